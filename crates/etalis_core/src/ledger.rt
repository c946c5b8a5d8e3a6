// What is kept of the inputs: the events that are present, the bounds, and whether a batch is open.
use crate::judging::{is_below, is_in_batch_after, is_misplaced, raised};
use crate::present::Present;
use event_changes::EventChange;
use event_model::{Input, Judgement};
use std::alloc::{AllocError, Global};
use support_table::Copies;

/// What the inputs come to, those of an open batch too. It knows how the next input is judged, and how the events that are present
/// differ from those at the last settlement. It keeps no events below the bound.
#[derive(Drop)]
pub struct Ledger {
    present: Present,
    bound: u64,
    next_bound: u64,
    in_batch: bool,
}

impl Ledger {
    ghost use Rattle.std.specs.Prelude.{◌≡◌, ℕ, nat_le, Option, List, [], length, false, OnOk, OnErr, IfOk};
    ghost use Rattle.std.specs.List.{filter};
    ghost use Rattle.event_model.specs.Events.{time_of};
    ghost use Rattle.event_model.specs.declared.inputs.Input.{Input};
    ghost use Rattle.event_model.specs.declared.inputs.Judgement.TheVariants.{Fine};
    ghost use Rattle.event_model.specs.Presence.{History, added, no_history, settled, all_inputs, extended, in_batch};
    ghost use Rattle.event_model.specs.Presence.{bound, present, judge, IsAccepted};
    ghost use Rattle.event_changes.specs.Events.{event_changes};
    ghost use Rattle.change_meaning.specs.Moved.{AreSpans};
    ghost use Rattle.support_table.specs.Copies.{copies_of};
    ghost use Rattle.etalis_core.specs.Kept.{number_of, AreCopies, HasRoom, IsLedgerOf};

    /// Of no inputs.
    pub fn new(alloc: Global) -> Ledger
        ensures { (late : Option ℕ) → IsLedgerOf result late [] no_history }
    {
        Ledger {
            present: Present::new(alloc),
            bound: 0,
            next_bound: 0,
            in_batch: false,
        }
    }

    /// Of a history in which no batch is open, by its bound and the copies of its events from the bound on.
    pub fn over(alloc: Global, horizon: u64, copies: Copies) -> Ledger
        ensures { (late : Option ℕ) (history : History) → in_batch history ≡ false → horizon ≡ bound late (settled history)
            → AreCopies (copies_of copies) (bound late (settled history)) (all_inputs history)
            → IsLedgerOf result late (settled history) history }
    {
        Ledger {
            present: Present::over(alloc, copies),
            bound: horizon,
            next_bound: horizon,
            in_batch: false,
        }
    }

    /// The bound and the copies alone.
    pub fn apart(self) -> (u64, Copies)
        ensures bound { result.0 ≡ self.bound }
        ensures copies { result.1 ≡ self.present.numbers }
    {
        let Ledger {
            present,
            bound,
            next_bound: _,
            in_batch: _,
        } = self;
        (bound, present.apart())
    }

    /// The bound at the last settlement.
    pub fn bound(&self) -> u64
        ensures { result ≡ self.now.bound }
    {
        self.bound
    }

    /// Whether a batch is open.
    pub fn in_batch(&self) -> bool
        ensures { result ≡ self.now.in_batch }
    {
        self.in_batch
    }

    /// How many events it keeps: those that are present with a time of at least the bound.
    pub fn held(&self) -> usize
        ensures { (late : Option ℕ) (told : List Input) (history : History) → IsLedgerOf self.now late told history
            → result ≡ length (filter (λ e. nat_le (bound late told) (time_of e)) (present (all_inputs history))) }
    {
        self.present.held()
    }

    /// How the events that are present have changed since the last settlement, in order.
    pub fn changes(&self, alloc: Global) -> Result<Vec<EventChange>, AllocError>
        ensures { (late : Option ℕ) (told : List Input) (history : History) → IsLedgerOf self.now late told history
            → IfOk result (λ v. v.items ≡ event_changes (present told) (present (all_inputs history))) }
    {
        self.present.changes(alloc)
    }

    /// How an input is judged after those that were followed.
    pub fn judge(&self, input: &Input) -> Judgement
        ensures { (late : Option ℕ) (history : History) → IsLedgerOf self.now late (settled history) history
            → result ≡ judge late history input.now }
    {
        if is_misplaced(self.in_batch, input) {
            return Judgement::Batch;
        }
        if is_below(self.bound, input) {
            return Judgement::Below { bound: self.bound };
        }
        if self.present.is_absent(input) {
            return Judgement::Absent;
        }
        Judgement::Fine
    }

    /// Follows an input that is fine. Where memory fails, all stays as it was.
    pub fn follow(&mut self, late: Option<u64>, input: &Input) -> Result<(), AllocError>
        requires { HasRoom (number_of self.old.present) input.now }
        ensures ok { (history : History) → IsLedgerOf self.old late (settled history) history → IsAccepted late history
            → judge late history input.now ≡ Fine → OnOk result (IsLedgerOf self.new late (settled history) (extended history input.now)) }
        ensures err { (told : List Input) (history : History) → IsLedgerOf self.old late told history
            → OnErr result (IsLedgerOf self.new late told history) }
        ensures spans { AreSpans (added input.now) }
    {
        let next_bound = self.next_bound.max(raised(late, input));
        let in_batch = is_in_batch_after(self.in_batch, input);
        self.present.follow(input)?;
        self.next_bound = next_bound;
        self.in_batch = in_batch;
        Ok(())
    }

    /// Takes all that was followed as settled: the bound is raised, the changes of the events are forgotten, and the events below
    /// the bound go.
    pub fn settle(&mut self)
        ensures { (late : Option ℕ) (told : List Input) (history : History) → IsLedgerOf self.old late told history
            → IsLedgerOf self.new late (all_inputs history) history }
    {
        self.bound = self.next_bound;
        self.present.settle(self.bound);
    }
}
