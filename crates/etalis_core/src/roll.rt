// All the events that are present by the inputs that were settled.
ghost use Rattle.std.specs.Prelude.{◌≡◌, List, OnOk, if◌then◌else◌};
ghost use Rattle.std.specs.BTreeSet.{IsOrdered};
ghost use Rattle.std.specs.Ordering.{is_eq};
ghost use Rattle.ordered_lists.specs.Canon.{has, Rising};
ghost use Rattle.event_model.specs.declared.events.Event.{Event};
ghost use Rattle.event_model.specs.EventOrder.{event_cmp};
ghost use Rattle.event_changes.specs.Events.{event_of, event_changes};
ghost use Rattle.etalis_core.specs.Kept.{has_come};

use crate::ledger::Ledger;
use event_changes::EventChange;
use event_model::{Event, Input, Judgement};
use std::alloc::{AllocError, Global};
use std::collections::BTreeSet;

/// Follows inputs, and keeps all the events that are present by those that were settled, whatever the bound. An input outside a
/// batch settles itself, and a `Commit` all of its batch.
#[derive(Drop)]
pub struct Roll {
    alloc: Global,
    ledger: Ledger,
    events: BTreeSet<Event>,
}

// Puts an event that came into a set, or takes one that went out of it.
fn apply(events: &mut BTreeSet<Event>, change: &EventChange) -> Result<(), AllocError>
    ensures events { (e : Event) → OnOk result (has event_cmp e events.new.keys
        ≡ (if is_eq (event_cmp (event_of change.now) e) then has_come change.now else has event_cmp e events.old.keys)) }
    ensures ordered { OnOk result (IsOrdered event_cmp events.new) }
{
    match change {
        EventChange::Came(event) => {
            events.insert(event.share()?)?;
        }
        EventChange::Went(event) => {
            events.remove(event);
        }
    }
    Ok(())
}

// Does so with all of these.
fn apply_all(events: &mut BTreeSet<Event>, changes: &[EventChange]) -> Result<(), AllocError>
    ensures { (after : List Event) → Rising event_cmp events.old.keys → Rising event_cmp after
        → changes.now ≡ event_changes events.old.keys after → OnOk result (events.new.keys ≡ after) }
{
    for change in changes {
        apply(events, change)?;
    }
    Ok(())
}

impl Roll {
    ghost use Rattle.std.specs.Prelude.{ℕ, Option, IfOk};
    ghost use Rattle.event_model.specs.declared.inputs.Input.{Input};
    ghost use Rattle.event_model.specs.declared.inputs.Judgement.TheVariants.{Fine};
    ghost use Rattle.event_model.specs.Presence.{History, no_history, settled, all_inputs, extended, in_batch};
    ghost use Rattle.event_model.specs.Presence.{copies, present, judge, IsAccepted};
    ghost use Rattle.etalis_core.specs.Kept.{HasRoom, IsRollOf};

    /// Of no inputs.
    pub fn new(alloc: Global) -> Roll
        ensures { (late : Option ℕ) → IsRollOf result late no_history }
    {
        Roll {
            alloc,
            ledger: Ledger::new(alloc),
            events: BTreeSet::new(alloc),
        }
    }

    /// Whether a batch is open.
    pub fn in_batch(&self) -> bool
        ensures { (late : Option ℕ) (history : History) → IsRollOf self.now late history → result ≡ in_batch history }
    {
        self.ledger.in_batch()
    }

    /// How an input is judged after those that were followed.
    pub fn judge(&self, input: &Input) -> Judgement
        ensures { (late : Option ℕ) (history : History) → IsRollOf self.now late history → result ≡ judge late history input.now }
    {
        self.ledger.judge(input)
    }

    /// Follows an input that is fine. An `Err` may have followed it in part, so no more inputs should come after one.
    pub fn follow(&mut self, late: Option<u64>, input: &Input) -> Result<(), AllocError>
        requires { (history : History) × IsRollOf self.old late history × HasRoom (copies (all_inputs history)) input.now }
        ensures { (history : History) → IsRollOf self.old late history → IsAccepted late history
            → judge late history input.now ≡ Fine → OnOk result (IsRollOf self.new late (extended history input.now)) }
    {
        self.ledger.follow(late, input)?;
        if self.ledger.in_batch() {
            return Ok(());
        }
        let changes = self.ledger.changes(self.alloc)?;
        apply_all(&mut self.events, &changes)?;
        self.ledger.settle();
        Ok(())
    }

    /// The events that are present by the inputs that were settled, in order and each once.
    pub fn events(&self) -> Result<Vec<Event>, AllocError>
        ensures { (late : Option ℕ) (history : History) → IsRollOf self.now late history
            → IfOk result (λ v. v.items ≡ present (settled history)) }
    {
        let mut list = Vec::new(self.alloc);
        for event in &self.events {
            list.push(event.share()?)?;
        }
        Ok(list)
    }
}
