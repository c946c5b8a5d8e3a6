// A Minus under way: the changed rows of its operands, each with a visit of its own, and one for each joined row that it can change.
ghost use Rattle.std.specs.Prelude.{◌≡◌, ◌+◌, ◌∷◌, ◌<◌, [], drop, OnOk, IfOk, IfSome, MatchOption};
ghost use Rattle.event_changes.specs.declared.changes.Sign.{Sign};
ghost use Rattle.ev_bind.specs.declared.rows.Row.{Row};
ghost use Rattle.row_changes.specs.Visits.{Made, tally};
ghost use Rattle.change_meaning.specs.MinusVisits.{own_test, own_verdict};
ghost use Rattle.goal_store.specs.Goals.{rest};
ghost use Rattle.goal_store.specs.Walks.{rows_left};
ghost use Rattle.step_changes.specs.Deltas.{plain_delta};
ghost use Rattle.step_changes.specs.Notes.{noted};
ghost use Rattle.step_changes.specs.Tasks.{at_left, WorksOn, StopsAt};
ghost use Rattle.negation_witness.specs.Looking.{rows_or_none};
ghost use Rattle.negation_witness.specs.Testing.{minus_left};
ghost use Rattle.negation_witness.specs.Ways.{IsMinusWay};
ghost use Rattle.negation_witness.specs.Working.{view_of, tasks_of, task_of, looked_at, told, tells, tests_of, under_of, place_at, IsOver, Walks, RowWork, BeginsRow};

use crate::blocking::blocked;
use crate::looking::rows_by;
use crate::places::{Test, TestPlace};
use crate::ways::MinusWay;
use ev_bind::Row;
use event_changes::Sign;
use event_model::Op;
use goal_store::{GoalStore, RowsFrom};
use std::alloc::AllocError;
use step_changes::{Delta, Hint, Pending, fits};

// An operand of a Minus.
#[derive(Clone, Copy)]
enum Operand {
    Joined,
    Inner,
    Before,
    After,
}

// How the next changed row is begun: there are no units for it, or there is none, or its own visit is made.
enum Begun<'a> {
    Stopped,
    Over,
    Started(Operand, &'a Delta),
}

/// A Minus that works: what it looks at, and the changed rows of its operands.
#[derive(Clone, Copy)]
pub struct MinusStep<'a> {
    pub goals: &'a GoalStore,
    pub way: MinusWay,
    pub joined: &'a [Delta],
    pub inner: &'a [Delta],
    pub before: &'a [Delta],
    pub after: &'a [Delta],
}

impl<'a> MinusStep<'a> {
    // The changed row with this number.
    fn changed(&self, at: usize) -> Option<(Operand, &'a Delta)>
        ensures { MatchOption result (drop at (tasks_of self.now) ≡ [])
            (λ p. drop at (tasks_of self.now) ≡ task_of (view_of self.now) p.0 (plain_delta p.1.now) ∷ drop (at + 1) (tasks_of self.now)) }
    {
        if at < self.joined.len() {
            return Some((Operand::Joined, &self.joined[at]));
        }
        let at = at - self.joined.len();
        if at < self.inner.len() {
            return Some((Operand::Inner, &self.inner[at]));
        }
        let at = at - self.inner.len();
        if at < self.before.len() {
            return Some((Operand::Before, &self.before[at]));
        }
        let at = at - self.before.len();
        if at < self.after.len() {
            return Some((Operand::After, &self.after[at]));
        }
        None
    }

    // The joined rows that a changed row can change; a joined row changes itself alone.
    fn joined_rows(&self, operand: Operand, row: &'a Row) -> Option<RowsFrom<'a>>
        requires { IsMinusWay self.now.goals.now self.now.way }
        ensures rows { rows_or_none result ≡ looked_at self.now operand row.now }
        ensures store { Walks self.now result }
    {
        let (goals, key, span) = (self.goals, &row.binding, row.span);
        match operand {
            Operand::Joined => None,
            Operand::Inner => rows_by(goals, self.way.joined_inner, key, Op::During, span),
            Operand::Before => rows_by(goals, self.way.joined_before, key, Op::Starts, span),
            Operand::After => rows_by(goals, self.way.joined_after, key, Op::Finishes, span),
        }
    }

    // Notes of a joined row whether the Minus has it.
    #[tactic(auto, unfolding(crate::specs::Working::told))]
    fn note_verdict(&self, row: &Row, hint: Hint, pending: &mut Pending) -> Result<(), AllocError>
        requires { IsMinusWay self.now.goals.now self.now.way }
        ensures { (s : Sign) (r : Row)
            → OnOk result (noted pending.new s r ≡ noted pending.old s r + tally s r (told self.now row.now ∷ [])) }
    {
        if !fits(self.way.cap, row.span) {
            return Ok(());
        }
        let sign = if blocked(self.goals, &self.way, row) {
            Sign::Minus
        } else {
            Sign::Plus
        };
        pending.note(sign, row.share()?, hint)
    }

    // Makes the visit of a joined row, under a changed row with this end.
    fn note_test(&self, end: u64, row: &Row, pending: &mut Pending) -> Result<(), AllocError>
        requires { IsMinusWay self.now.goals.now self.now.way }
        ensures { (s : Sign) (r : Row)
            → OnOk result (noted pending.new s r ≡ noted pending.old s r + tally s r (tells self.now end row.now ∷ [])) }
    {
        if end <= row.span.end() {
            return self.note_verdict(row, Hint::none(), pending);
        }
        Ok(())
    }

    // Makes the visit of a changed joined row itself.
    #[tactic(auto, unfolding(crate::specs::Working::told))]
    fn note_joined(&self, delta: &Delta, pending: &mut Pending) -> Result<(), AllocError>
        requires { IsMinusWay self.now.goals.now self.now.way }
        ensures { (s : Sign) (r : Row) → OnOk result (noted pending.new s r
            ≡ noted pending.old s r + tally s r (own_verdict (view_of self.now) delta.now.sign delta.now.row ∷ [])) }
    {
        match delta.sign {
            Sign::Plus => self.note_verdict(&delta.row, delta.hint, pending),
            Sign::Minus => {
                if !fits(self.way.cap, delta.row.span) {
                    return Ok(());
                }
                pending.note(Sign::Minus, delta.row.share()?, delta.hint)
            }
        }
    }

    // Makes the visit of a changed row itself.
    fn note_own(
        &self,
        operand: Operand,
        delta: &Delta,
        pending: &mut Pending,
    ) -> Result<(), AllocError>
        requires { IsMinusWay self.now.goals.now self.now.way }
        ensures { (s : Sign) (r : Row) → OnOk result (noted pending.new s r
            ≡ noted pending.old s r
            + tally s r (own_test (view_of self.now) (task_of (view_of self.now) operand (plain_delta delta.now)) ∷ [])) }
    {
        match operand {
            Operand::Joined => self.note_joined(delta, pending),
            Operand::Inner | Operand::Before | Operand::After => Ok(()),
        }
    }

    // The next row of a walk, and the walk behind it.
    fn next_row(&self, rows: &Option<RowsFrom<'a>>) -> Option<(&'a Row, RowsFrom<'a>)>
        requires { Walks self.now rows.now }
        ensures rows { MatchOption result (rows_or_none rows.now ≡ []) (λ p. rows_or_none rows.now ≡ p.0.now ∷ rows_left p.1) }
        ensures store { IfSome result (λ p. p.1.store.now ≡ self.now.goals.now) }
    {
        match rows {
            None => None,
            Some(walk) => walk.next_row(),
        }
    }

    // The changed row with this end, where joined rows of it are left.
    fn left_under(&self, end: u64, rows: &Option<RowsFrom<'a>>) -> Option<Test>
        requires { Walks self.now rows.now }
        ensures { MatchOption result (rows_or_none rows.now ≡ []) (λ u. (u.end ≡ end)
            × (rest self.now.goals.now u.cursor ≡ rows_or_none rows.now) × (rows_or_none rows.now ≡ [] → ⊥)) }
    {
        match rows {
            None => None,
            Some(walk) => {
                if walk.next_row().is_none() {
                    return None;
                }
                Some(Test {
                    end,
                    cursor: walk.cursor(),
                })
            }
        }
    }

    // Makes the visits of joined rows, as far as the units go. Answers the units that are left, and the row where some are left.
    fn test_rows(
        &self,
        end: u64,
        rows: &mut Option<RowsFrom<'a>>,
        pending: &mut Pending,
        units: u32,
    ) -> Result<(u32, Option<Test>), AllocError>
        requires way { IsMinusWay self.now.goals.now self.now.way }
        requires store { Walks self.now rows.old }
        ensures made { IfOk result (λ p. Made (at_left (tests_of self.now end (rows_or_none rows.old)) (noted pending.old))
            (at_left (under_of self.now p.1) (noted pending.new)) units p.0) }
        ensures stops { IfOk result (λ p. StopsAt p.0 p.1 (under_of self.now p.1)) }
    {
        let mut units = units;
        while units > 0 {
            let Some((row, behind)) = self.next_row(rows) else {
                return Ok((units, None));
            };
            self.note_test(end, row, pending)?;
            *rows = Some(behind);
            units -= 1;
        }
        Ok((0, self.left_under(end, rows)))
    }

    // Goes on with the changed row under way, which has this end, and these joined rows left. Answers the units that are left where
    // none of them is.
    fn walk_row(
        &self,
        place: &mut TestPlace,
        end: u64,
        rows: &mut Option<RowsFrom<'a>>,
        pending: &mut Pending,
        units: u32,
    ) -> Result<Option<u32>, AllocError>
        requires way { IsMinusWay self.now.goals.now self.now.way }
        requires store { Walks self.now rows.old }
        ensures { IfOk result (λ r. RowWork self.now place.old.at (tests_of self.now end (rows_or_none rows.old)) place.new
            pending.old pending.new units r) }
    {
        let (rest, under) = self.test_rows(end, rows, pending, units)?;
        place.under = under;
        if under.is_some() {
            return Ok(None);
        }
        Ok(Some(rest))
    }

    // Ends the changed row under way, if there is one.
    fn finish_row(
        &self,
        place: &mut TestPlace,
        pending: &mut Pending,
        units: u32,
    ) -> Result<Option<u32>, AllocError>
        requires { IsMinusWay self.now.goals.now self.now.way }
        ensures { IfOk result (λ r. RowWork self.now place.old.at (under_of self.now place.old.under) place.new
            pending.old pending.new units r) }
    {
        let Some(test) = place.under else {
            return Ok(Some(units));
        };
        let mut rows = self.goals.rows_from(&test.cursor);
        self.walk_row(place, test.end, &mut rows, pending, units)
    }

    // Begins the next changed row, by its own visit.
    fn begin_row(
        &self,
        place: &mut TestPlace,
        pending: &mut Pending,
        units: u32,
    ) -> Result<Begun<'a>, AllocError>
        requires way { IsMinusWay self.now.goals.now self.now.way }
        requires over { IsOver place.old }
        ensures { IfOk result (λ b. BeginsRow self.now place.old place.new pending.old pending.new units b) }
    {
        let Some((operand, delta)) = self.changed(place.at) else {
            return Ok(Begun::Over);
        };
        if units == 0 {
            return Ok(Begun::Stopped);
        }
        self.note_own(operand, delta, pending)?;
        place.at += 1;
        Ok(Begun::Started(operand, delta))
    }

    // Makes the visits of the joined rows of a changed row whose own visit is made.
    fn visit_rows(
        &self,
        place: &mut TestPlace,
        operand: Operand,
        delta: &'a Delta,
        pending: &mut Pending,
        units: u32,
    ) -> Result<Option<u32>, AllocError>
        requires { IsMinusWay self.now.goals.now self.now.way }
        ensures { IfOk result (λ r. RowWork self.now place.old.at
            (tests_of self.now delta.now.row.span.end (looked_at self.now operand delta.now.row)) place.new
            pending.old pending.new units r) }
    {
        let mut rows = self.joined_rows(operand, &delta.row);
        self.walk_row(place, delta.row.span.end(), &mut rows, pending, units)
    }

    // Makes the visits of changed rows that aren't begun yet.
    fn next_rows(
        &self,
        place: &mut TestPlace,
        pending: &mut Pending,
        units: u32,
    ) -> Result<Option<u32>, AllocError>
        requires way { IsMinusWay self.now.goals.now self.now.way }
        requires over { IsOver place.old }
        ensures { IfOk result (λ r. WorksOn (place_at self.now place.old pending.old) (place_at self.now place.new pending.new) units r) }
    {
        let mut units = units;
        'changed: loop {
            match self.begin_row(place, pending, units)? {
                Begun::Stopped => return Ok(None),
                Begun::Over => return Ok(Some(units)),
                Begun::Started(operand, delta) => {
                    match self.visit_rows(place, operand, delta, pending, units - 1)? {
                        None => return Ok(None),
                        Some(rest) => units = rest,
                    }
                }
            }
        }
    }

    /// Makes visits as far as the units go: each changed row has one, and each joined row that it can change. `None` where units ran
    /// out with visits left; else all are made, and the answer is the units that are left.
    pub fn work(
        &self,
        place: &mut TestPlace,
        pending: &mut Pending,
        units: u32,
    ) -> Result<Option<u32>, AllocError>
        requires { IsMinusWay self.now.goals.now self.now.way }
        ensures { let left = minus_left self.now.goals.now self.now.way self.now.joined.now self.now.inner.now self.now.before.now
            self.now.after.now in
            IfOk result (λ r. WorksOn (at_left (left place.old) (noted pending.old)) (at_left (left place.new) (noted pending.new))
            units r) }
    {
        let Some(rest) = self.finish_row(place, pending, units)? else {
            return Ok(None);
        };
        self.next_rows(place, pending, rest)
    }
}
