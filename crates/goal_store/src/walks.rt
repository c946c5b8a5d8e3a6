// Walks over the rows of an index with a key, in a range.
ghost use Rattle.goal_store.specs.Walked.{IsWalk, IsWalk-prop};
ghost use Rattle.goal_store.specs.Fits.{SlotsFit, SlotsFit-prop};
ghost use Rattle.key_lists.specs.Pieces.{all_lent};

use crate::cursors::Cursor;
use crate::kept::GoalStore;
use crate::marks::When;
use crate::places::Place;
use ev_bind::{Binding, Row};
use event_model::{Edge, Slots};
use key_lists::{Position, Run};
use rule_ast::{IndexId, StepId};

/// A walk over the rows of an index that are seen, have a key and lie in a range. It borrows the store, and spares the search
/// that each step of a cursor begins with.
#[derive(Clone, Copy)]
pub struct RowsFrom<'a> {
    pub(crate) store: &'a GoalStore,
    pub(crate) index: IndexId,
    pub(crate) step: StepId,
    pub(crate) slots: Slots,
    pub(crate) key: &'a Binding,
    pub(crate) places: Run<'a, Place>,
    pub(crate) high: u64,
    pub(crate) when: When,
    pub(crate) at: Position,
    pub(crate) edge: Edge,
    ghost walk: { IsWalk store.now index step slots edge key.now (all_lent places) } by { IsWalk-prop store.now index step slots edge key.now (all_lent places) },
    ghost fit: { SlotsFit slots } by { SlotsFit-prop slots },
}

// A place, where it stands, and where what is behind it stands.
#[derive(Clone, Copy, Drop)]
struct Stop<'a> {
    place: &'a Place,
    at: Position,
    behind: Position,
}

impl<'a> RowsFrom<'a> {
    ghost use Rattle.std.specs.Prelude.{◌≡◌, ◌&&◌, [], ◌∷◌, map, IfSome, IfNone, MatchOption};
    ghost use Rattle.ev_bind.specs.Projections.{project, same_pairs};
    ghost use Rattle.row_table.specs.Steps.{step_value};
    ghost use Rattle.goal_store.specs.Goals.{rest};
    ghost use Rattle.goal_store.specs.Marks.{seen_as};
    ghost use Rattle.goal_store.specs.Walks.{rows_left, shown_from, StopsAt};

    // Whether the row is seen and has the key.
    fn shows(&self, place: &Place) -> bool
        ensures { result ≡ (seen_as self.now.when (step_value self.now.store.now.goals.held.rows place.now.number self.now.step)
            && same_pairs (project self.now.slots place.now.row.binding) (project self.now.slots self.now.key.now)) }
    {
        match self.store.goals.held.rows.at(place.number, self.step) {
            None => false,
            Some(mark) => self.when.sees(mark) && place.row.binding.same_on(self.key, &self.slots),
        }
    }

    // Where the next row stands.
    fn seek(&self) -> Option<Stop<'a>>
        ensures none { IfNone result (shown_from self.now self.now.at ≡ []) }
        ensures stop { IfSome result (λ s. StopsAt self.now s.place.now s.at s.behind) }
    {
        let mut at = self.at;
        while let Some((place, behind)) = self.places.next(at) {
            if place.edge > self.high {
                return None;
            }
            if self.shows(place) {
                return Some(Stop { place, at, behind });
            }
            at = behind;
        }
        None
    }

    // The walk that stands at a position.
    #[tactic(auto, using(crate::proofs::Standing::left_is))]
    fn standing_at(&self, at: Position) -> RowsFrom<'a>
        ensures rows { rows_left result ≡ map (λ p. p.row) (shown_from self.now at) }
        ensures store { result.store.now ≡ self.now.store.now }
    {
        RowsFrom {
            store: self.store,
            index: self.index,
            step: self.step,
            slots: self.slots,
            key: self.key,
            places: self.places,
            high: self.high,
            when: self.when,
            at,
            edge: self.edge,
        }
    }

    /// The next row, and the walk behind it.
    #[tactic(auto, using(crate::proofs::Standing::none_first))]
    pub fn next_row(&self) -> Option<(&'a Row, RowsFrom<'a>)>
        ensures rows { MatchOption result (rows_left self.now ≡ []) (λ p. rows_left self.now ≡ p.0.now ∷ rows_left p.1) }
        ensures store { IfSome result (λ p. p.1.store.now ≡ self.now.store.now) }
    {
        match self.seek() {
            None => None,
            Some(stop) => Some((&stop.place.row, self.standing_at(stop.behind))),
        }
    }

    /// A cursor that goes on where this walk stands.
    pub fn cursor(&self) -> Cursor
        ensures { rest self.now.store.now result ≡ rows_left self.now }
    {
        match self.seek() {
            None => Cursor {
                index: self.index,
                when: self.when,
                high: self.high,
                number: None,
                hint: Position::start(),
            },
            Some(stop) => Cursor {
                index: self.index,
                when: self.when,
                high: self.high,
                number: Some(stop.place.number),
                hint: stop.at,
            },
        }
    }
}
