// The work on a join: its changed rows, left and then right, each with a visit of its own and one for each partner.
ghost use Rattle.std.specs.Prelude.{◌≡◌, ◌+◌, ◌<◌, ◌∷◌, [], None, IfOk, List, MatchOption, drop, map};
ghost use Rattle.goal_store.specs.declared.kept.GoalStore.{GoalStore};
ghost use Rattle.change_meaning.specs.JoinVisits.{join_visits};
ghost use Rattle.row_changes.specs.Visits.{signed};
ghost use Rattle.step_changes.specs.Deltas.{plain_deltas};
ghost use Rattle.step_changes.specs.Notes.{noted};
ghost use Rattle.step_changes.specs.Tasks.{at_left, WorksOn};
ghost use Rattle.step_changes.specs.declared.deltas.Delta.{Delta};
ghost use Rattle.match_step.specs.declared.ways.JoinWay.{JoinWay};
ghost use Rattle.match_step.specs.Joining.{IsWay, view_of, join_left};
ghost use Rattle.match_step.specs.Left.{items_left, IsOver};
ghost use Rattle.match_step.specs.Rows.{tasks, task_of, join_at, row_at, RowWork};

use crate::matches::{MatchMark, Matches};
use crate::meeting::meet;
use crate::ways::JoinWay;
use event_changes::Sign;
use goal_store::GoalStore;
use interval_ops::Side;
use std::alloc::{AllocError, Global};
use step_changes::{Delta, Pending};

// The changed row under way.
#[derive(Drop)]
struct Under {
    sign: Sign,
    mark: MatchMark,
}

/// How far a join has come.
#[derive(Drop)]
pub struct Place {
    // So many changed rows were begun.
    begun: usize,
    // The last of these, where it has partners left.
    under: Option<Under>,
}

impl Place {
    /// Before the first changed row.
    pub fn start() -> Place
        ensures { (goals : GoalStore) (way : JoinWay) (lefts rights : List Delta)
            → join_left goals way lefts rights result ≡ join_visits (view_of goals way) (plain_deltas lefts) (plain_deltas rights) }
    {
        Place {
            begun: 0,
            under: None,
        }
    }
}

/// A join with the changed rows of its operands. Left ones look for partners among the right rows after the change, and right ones
/// among the left rows before it, so no pair of rows is met twice.
#[derive(Clone, Copy)]
pub struct JoinStep<'a> {
    pub goals: &'a GoalStore,
    pub way: JoinWay,
    pub lefts: &'a [Delta],
    pub rights: &'a [Delta],
}

impl<'a> JoinStep<'a> {
    // The changed row behind so many others.
    fn row(&self, begun: usize) -> Option<(Side, &'a Delta)>
        ensures { MatchOption result (drop begun (tasks self.now) ≡ [])
            (λ p. drop begun (tasks self.now) ≡ task_of p.0 p.1.now ∷ drop (begun + 1) (tasks self.now)) }
    {
        if begun < self.lefts.len() {
            return Some((Side::Left, &self.lefts[begun]));
        }
        let at = begun - self.lefts.len();
        if at < self.rights.len() {
            return Some((Side::Right, &self.rights[at]));
        }
        None
    }

    // Visits the partners of a row as far as the units go, and keeps it where some are left.
    fn meet_row(
        &self,
        matches: Matches<'a>,
        sign: Sign,
        place: &mut Place,
        pending: &mut Pending,
        units: u32,
    ) -> Result<Option<u32>, AllocError>
        requires { place.old.under ≡ None }
        ensures { IsOver self.now.goals.now matches.entry
            → IfOk result (RowWork self.now place.old.begun
            (row_at self.now place.old.begun (map (signed sign) (items_left matches.entry)) pending.old) place.new pending.new units) }
    {
        let mut matches = matches;
        match meet(&mut matches, sign, pending, units)? {
            Some(rest) => Ok(Some(rest)),
            None => {
                place.under = Some(Under {
                    sign,
                    mark: matches.pause(),
                });
                Ok(None)
            }
        }
    }

    // Goes on with the row under way.
    fn finish_row(
        &self,
        alloc: Global,
        place: &mut Place,
        pending: &mut Pending,
        units: u32,
    ) -> Result<Option<u32>, AllocError>
        ensures { IfOk result (RowWork self.now place.old.begun (join_at self.now place.old pending.old) place.new pending.new units) }
    {
        let Some(under) = place.under.take() else {
            return Ok(Some(units));
        };
        let matches = Matches::resume(alloc, self.goals, under.mark);
        self.meet_row(matches, under.sign, place, pending, units)
    }

    // Begins the next row: its own visit, and then its partners.
    fn begin_row(
        &self,
        alloc: Global,
        side: Side,
        delta: &'a Delta,
        place: &mut Place,
        pending: &mut Pending,
        units: u32,
    ) -> Result<Option<u32>, AllocError>
        requires way { IsWay self.now.goals.now self.now.way }
        requires units { 0 < units }
        requires none { place.old.under ≡ None }
        requires task { drop place.old.begun (tasks self.now) ≡ task_of side delta.now ∷ drop (place.old.begun + 1) (tasks self.now) }
        ensures { IfOk result
            (RowWork self.now (place.old.begun + 1) (join_at self.now place.old pending.old) place.new pending.new units) }
    {
        let matches = Matches::start(alloc, self.goals, self.way, side, &delta.row)?;
        place.begun += 1;
        self.meet_row(matches, delta.sign, place, pending, units - 1)
    }

    // Begins row after row.
    fn begin_rows(
        &self,
        alloc: Global,
        place: &mut Place,
        pending: &mut Pending,
        units: u32,
    ) -> Result<Option<u32>, AllocError>
        requires way { IsWay self.now.goals.now self.now.way }
        requires none { place.old.under ≡ None }
        ensures { IfOk result (WorksOn (join_at self.now place.old pending.old) (join_at self.now place.new pending.new) units) }
    {
        let mut units = units;
        loop {
            let Some((side, delta)) = self.row(place.begun) else {
                return Ok(Some(units));
            };
            if units == 0 {
                return Ok(None);
            }
            match self.begin_row(alloc, side, delta, place, pending, units)? {
                None => return Ok(None),
                Some(rest) => units = rest,
            }
        }
    }

    /// Makes visits as far as the units go, and notes what they give. Answers the units that are left where all visits are made, and
    /// `None` where the units are used up before that.
    pub fn work(
        &self,
        alloc: Global,
        place: &mut Place,
        pending: &mut Pending,
        units: u32,
    ) -> Result<Option<u32>, AllocError>
        requires { IsWay self.now.goals.now self.now.way }
        ensures { IfOk result (λ r. WorksOn
            (at_left (join_left self.now.goals.now self.now.way self.now.lefts.now self.now.rights.now place.old) (noted pending.old))
            (at_left (join_left self.now.goals.now self.now.way self.now.lefts.now self.now.rights.now place.new) (noted pending.new))
            units r) }
    {
        let Some(rest) = self.finish_row(alloc, place, pending, units)? else {
            return Ok(None);
        };
        self.begin_rows(alloc, place, pending, rest)
    }
}
