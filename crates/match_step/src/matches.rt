// The partners of a row at a join, one at a time, with pauses.
ghost use Rattle.std.specs.Prelude.{◌≡◌, ◌↔◌, [], false, IfOk};

use crate::seekers::Seeker;
use crate::ways::{JoinWay, partner_rows};
use ev_bind::Row;
use goal_store::{Cursor, GoalStore, RowsFrom};
use interval_ops::Side;
use std::alloc::{AllocError, Global};

/// Where a walk over partners goes on. It has the row that looks for them, and borrows nothing.
#[derive(Drop)]
pub struct MatchMark {
    seeker: Seeker,
    cursor: Option<Cursor>,
}

/// Goes over the partners of a row of a join. Of each it gives the joined row, or `None` where there is none or it is longer than the
/// cap of the join. Nothing comes behind an error.
#[derive(Drop)]
pub struct Matches<'a> {
    alloc: Global,
    seeker: Seeker,
    walk: Option<RowsFrom<'a>>,
}

impl<'a> Matches<'a> {
    ghost use Rattle.std.specs.Prelude.{map};
    ghost use Rattle.change_meaning.specs.Caps.{fitting};
    ghost use Rattle.change_meaning.specs.JoinVisits.{partners, meeting};
    ghost use Rattle.goal_store.specs.declared.kept.GoalStore.{GoalStore};
    ghost use Rattle.match_step.specs.Joining.{IsWay, view_of};
    ghost use Rattle.match_step.specs.Left.{items_left, mark_left, IsOver};

    /// Before all partners of a row.
    pub fn start(
        alloc: Global,
        goals: &'a GoalStore,
        way: JoinWay,
        side: Side,
        row: &'a Row,
    ) -> Result<Matches<'a>, AllocError>
        requires { IsWay goals.now way }
        ensures items { IfOk result (λ m. items_left m
            ≡ map (λ p. fitting way.cap (meeting way.op side row.now p)) (partners (view_of goals.now way) side row.now)) }
        ensures store { IfOk result (λ m. IsOver goals.now m) }
    {
        let walk = partner_rows(goals, way, side, row);
        let seeker = Seeker {
            op: way.op,
            cap: way.cap,
            side,
            row: row.share()?,
        };
        Ok(Matches {
            alloc,
            seeker,
            walk,
        })
    }

    /// Where the walk stands.
    pub fn pause(self) -> MatchMark
        ensures { (goals : GoalStore) → IsOver goals self.entry → mark_left goals result ≡ items_left self.entry }
    {
        let cursor = match &self.walk {
            None => None,
            Some(walk) => Some(walk.cursor()),
        };
        MatchMark {
            seeker: self.seeker,
            cursor,
        }
    }

    /// Goes on where a walk stood.
    pub fn resume(alloc: Global, goals: &'a GoalStore, mark: MatchMark) -> Matches<'a>
        ensures items { items_left result ≡ mark_left goals.now mark }
        ensures store { IsOver goals.now result }
    {
        let walk = match &mark.cursor {
            None => None,
            Some(cursor) => goals.rows_from(cursor),
        };
        Matches {
            alloc,
            seeker: mark.seeker,
            walk,
        }
    }

    /// Whether anything is left.
    pub fn remain(&self) -> bool
        ensures { (result ≡ false) ↔ (items_left self.now ≡ []) }
    {
        match &self.walk {
            None => false,
            Some(walk) => walk.next_row().is_some(),
        }
    }
}

impl<'a> Iterator for Matches<'a> {
    ghost use Rattle.match_step.specs.Left.{GivesItem, items_left};
    ghost use Rattle.std.specs.Iterator.{item_count};

    type Item = Result<Option<Row>, AllocError>;

    ghost next_gives = { GivesItem };

    ghost remaining = { item_count items_left };

    fn next(&mut self) -> Option<Result<Option<Row>, AllocError>> {
        let Some(walk) = &self.walk else {
            return None;
        };
        let Some((partner, behind)) = walk.next_row() else {
            return None;
        };
        match self.seeker.join(self.alloc, partner) {
            Ok(item) => {
                self.walk = Some(behind);
                Some(Ok(item))
            }
            Err(error) => {
                self.walk = None;
                Some(Err(error))
            }
        }
    }
}
