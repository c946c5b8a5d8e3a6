// The events that are present, with the numbers of their copies, and which of them have changed.
ghost use Rattle.std.specs.Prelude.{◌≡◌, ◌<◌, OnOk, OnErr, if◌then◌else◌, not};
ghost use Rattle.std.specs.Ordering.{is_eq};
ghost use Rattle.std.specs.BTreeSet.{BTreeSet, IsOrdered};
ghost use Rattle.std.proofs.Props.{props};
ghost use Rattle.ordered_lists.specs.Canon.{has};
ghost use Rattle.event_model.specs.declared.events.Event.{Event};
ghost use Rattle.event_model.specs.EventOrder.{event_cmp};

use event_changes::EventChange;
use event_model::{Event, Input};
use std::alloc::{AllocError, Global};
use std::collections::BTreeSet;
use support_table::{Change, Copies};

/// The most copies of an event.
pub const MOST_COPIES: u64 = support_table::MOST_COPIES;

/// The number of copies of each event that is present, and the events that are present and weren't, or aren't and were, since the
/// changes were last forgotten. Events below a bound are dropped then.
#[derive(Drop)]
pub struct Present {
    numbers: Copies,
    changed: BTreeSet<Event>,
    ghost in_order: { IsOrdered event_cmp changed } by { Prim.hlevel props },
}

// Puts an event into a set, or takes it out where it's in.
fn flip(events: &mut BTreeSet<Event>, event: &Event) -> Result<(), AllocError>
    ensures ok { (e : Event) → OnOk result (has event_cmp e events.new.keys
        ≡ (if is_eq (event_cmp event.now e) then not (has event_cmp e events.old.keys) else has event_cmp e events.old.keys)) }
    ensures err { OnErr result (events.new.keys ≡ events.old.keys) }
    ensures ordered { IsOrdered event_cmp events.new }
{
    if !events.remove(event) {
        events.insert(event.share()?)?;
    }
    Ok(())
}

impl Present {
    ghost use Rattle.std.specs.Prelude.{◌+◌, ◌-◌, ℕ, List, [], ◌∷◌, IfOk, false, length, nat_le, nat_lt};
    ghost use Rattle.std.specs.List.{filter};
    ghost use Rattle.event_model.specs.Events.{time_of};
    ghost use Rattle.event_model.specs.Presence.{added, taken, occurrences, present, is_absent, is_below};
    ghost use Rattle.event_model.specs.declared.inputs.Input.{Input};
    ghost use Rattle.support_table.specs.Copies.{copies_of};
    ghost use Rattle.etalis_core.specs.Kept.{number_of, copies_from, was_kept, net_change, net_changes, HasCopies, HasRoom};

    /// No events, and no changes.
    pub fn new(alloc: Global) -> Present
        ensures numbers { (e : Event) → number_of result e ≡ 0 }
        ensures changed { result.changed.keys ≡ [] }
    {
        Present {
            numbers: Copies::new(alloc),
            changed: BTreeSet::new(alloc),
        }
    }

    /// These copies, and no changes.
    pub fn over(alloc: Global, numbers: Copies) -> Present
        ensures numbers { (e : Event) → number_of result e ≡ copies_of numbers e }
        ensures changed { result.changed.keys ≡ [] }
    {
        Present {
            numbers,
            changed: BTreeSet::new(alloc),
        }
    }

    /// The copies alone.
    pub fn apart(self) -> Copies
        ensures { result ≡ self.numbers }
    {
        let Present {
            numbers,
            changed: _,
        } = self;
        numbers
    }

    /// The copies of an event.
    pub fn number_of(&self, event: &Event) -> u64
        ensures { result ≡ number_of self.now event.now }
    {
        self.numbers.number(event)
    }

    /// Whether an input takes back an event of which there is no copy.
    pub fn is_absent(&self, input: &Input) -> bool
        ensures { (from : ℕ) (inputs : List Input) → HasCopies self.now from inputs → is_below from input.now ≡ false
            → result ≡ is_absent inputs input.now }
    {
        match input {
            Input::Take(event) => self.number_of(event) == 0,
            _ => false,
        }
    }

    /// The number of events that have a copy.
    pub fn held(&self) -> usize
        ensures { (from : ℕ) (inputs : List Input) → HasCopies self.now from inputs
            → result ≡ length (filter (λ e. nat_le from (time_of e)) (present inputs)) }
    {
        self.numbers.held()
    }

    // How an event that has changed did.
    fn change_of(&self, event: &Event) -> Result<EventChange, AllocError>
        ensures { IfOk result (λ c. c ≡ net_change self.now event.now) }
    {
        let shared = event.share()?;
        if self.number_of(event) > 0 {
            Ok(EventChange::Came(shared))
        } else {
            Ok(EventChange::Went(shared))
        }
    }

    /// The changes since they were last forgotten, in the order of their events.
    pub fn changes(&self, alloc: Global) -> Result<Vec<EventChange>, AllocError>
        ensures { IfOk result (λ v. v.items ≡ net_changes self.now) }
    {
        let mut changes = Vec::new(alloc);
        for event in &self.changed {
            changes.push(self.change_of(event)?)?;
        }
        Ok(changes)
    }

    /// Forgets the changes, and drops the copies of events with a time below the bound.
    pub fn settle(&mut self, bound: u64)
        ensures numbers { (e : Event) → number_of self.new e ≡ copies_from bound (number_of self.old) e }
        ensures changed { self.new.changed.keys ≡ [] }
    {
        while self.changed.pop_first().is_some() {}
        self.numbers.drop_below(bound);
    }

    // Adds a copy of an event.
    fn add(&mut self, event: &Event) -> Result<(), AllocError>
        requires { number_of self.old event.now < MOST_COPIES }
        ensures numbers { (e : Event) → OnOk result (number_of self.new e ≡ number_of self.old e + occurrences e (event.now ∷ [])) }
        ensures was { (e : Event) → OnOk result (was_kept self.new e ≡ was_kept self.old e) }
        ensures err_numbers { (e : Event) → OnErr result (number_of self.new e ≡ number_of self.old e) }
        ensures err_changed { OnErr result (self.new.changed.keys ≡ self.old.changed.keys) }
    {
        match self.numbers.add(event)? {
            Change::Appeared => {
                if let Err(fault) = flip(&mut self.changed, event) {
                    self.numbers.take(event);
                    return Err(fault);
                }
                Ok(())
            }
            Change::Same | Change::Vanished => Ok(()),
        }
    }

    // Takes the last copy of an event away.
    fn remove_last(&mut self, event: &Event) -> Result<(), AllocError>
        requires { number_of self.old event.now ≡ 1 }
        ensures numbers { (e : Event) → OnOk result (number_of self.new e ≡ number_of self.old e - occurrences e (event.now ∷ [])) }
        ensures was { (e : Event) → OnOk result (was_kept self.new e ≡ was_kept self.old e) }
        ensures err_numbers { (e : Event) → OnErr result (number_of self.new e ≡ number_of self.old e) }
        ensures err_changed { OnErr result (self.new.changed.keys ≡ self.old.changed.keys) }
    {
        flip(&mut self.changed, event)?;
        self.numbers.take(event);
        Ok(())
    }

    // Takes a copy of an event away, where there is one.
    fn remove(&mut self, event: &Event) -> Result<(), AllocError>
        ensures numbers { (e : Event) → OnOk result (number_of self.new e ≡ number_of self.old e - occurrences e (event.now ∷ [])) }
        ensures was { (e : Event) → OnOk result (was_kept self.new e ≡ was_kept self.old e) }
        ensures err_numbers { (e : Event) → OnErr result (number_of self.new e ≡ number_of self.old e) }
        ensures err_changed { OnErr result (self.new.changed.keys ≡ self.old.changed.keys) }
    {
        if self.number_of(event) == 1 {
            return self.remove_last(event);
        }
        self.numbers.take(event);
        Ok(())
    }

    /// Follows an input: adds a copy of the event that it adds, or takes one away of the event that it takes back. Where memory
    /// fails, all stays as it was.
    pub fn follow(&mut self, input: &Input) -> Result<(), AllocError>
        requires { HasRoom (number_of self.old) input.now }
        ensures numbers { (e : Event) → OnOk result (number_of self.new e
            ≡ number_of self.old e + occurrences e (added input.now) - occurrences e (taken input.now)) }
        ensures was { (e : Event) → OnOk result (was_kept self.new e ≡ was_kept self.old e) }
        ensures err_numbers { (e : Event) → OnErr result (number_of self.new e ≡ number_of self.old e) }
        ensures err_changed { OnErr result (self.new.changed.keys ≡ self.old.changed.keys) }
    {
        match input {
            Input::Add(event) => self.add(event),
            Input::Take(event) => self.remove(event),
            Input::Advance(_) | Input::Nothing | Input::Begin | Input::Commit => Ok(()),
        }
    }
}
