// How many copies of each event there are.
ghost use Rattle.std.proofs.Props.{props};
ghost use Rattle.support_table.specs.Times.{number_in, IsTimed, IsCounted};

use crate::supports::Change;
use crate::times::{first_time, lower, number_of, raise};
use event_model::Event;
use std::alloc::{AllocError, Global};
use std::collections::BTreeMap;

/// The most copies of an event.
pub const MOST_COPIES: u64 = 1 << 63;

/// How many copies of each event there are. The events stand under their times, so that the earliest are at hand.
#[derive(Drop)]
pub struct Copies {
    alloc: Global,
    times: BTreeMap<u64, BTreeMap<Event, u64>>,
    // how many events have a copy
    held: usize,
    ghost timed: { IsTimed times } by { Prim.hlevel props },
    ghost counted: { IsCounted held (number_in times) } by { Prim.hlevel props },
}

impl Copies {
    ghost use Rattle.std.specs.Prelude.{◌≡◌, ℕ, OnOk, OnErr, ◌+◌, ◌-◌, ◌<◌, ◌==◌, [], ◌∷◌, List, length, nat_lt, if◌then◌else◌, true, false, IfOk, MatchOption};
    ghost use Rattle.ordered_lists.specs.Canon.{has, Rising};
    ghost use Rattle.event_model.specs.Events.{time_of};
    ghost use Rattle.event_model.specs.EventOrder.{event_cmp};
    ghost use Rattle.event_model.specs.Presence.{occurrences};
    ghost use Rattle.support_table.specs.Copies.{copies_of};

    /// No event.
    #[tactic(auto, unfolding(crate::specs::Copies::copies_of))]
    pub fn new(alloc: Global) -> Copies
        ensures { (e : Event) → copies_of result e ≡ 0 }
    {
        Copies {
            alloc,
            times: BTreeMap::new(alloc),
            held: 0,
        }
    }

    /// The number of copies of an event.
    #[tactic(auto, unfolding(crate::specs::Copies::copies_of))]
    pub fn number(&self, event: &Event) -> u64
        ensures { result ≡ copies_of self.now event.now }
    {
        number_of(&self.times, event)
    }

    /// Whether an event has a copy.
    pub fn has(&self, event: &Event) -> bool
        ensures { result ≡ nat_lt 0 (copies_of self.now event.now) }
    {
        self.number(event) > 0
    }

    /// The number of events that have a copy.
    #[tactic(auto, unfolding(crate::specs::Copies::copies_of))]
    pub fn held(&self) -> usize
        ensures { (es : List Event) → Rising event_cmp es → ((e : Event) → has event_cmp e es ≡ nat_lt 0 (copies_of self.now e))
            → result ≡ length es }
    {
        self.held
    }

    /// A copy of an event comes.
    #[tactic(auto, unfolding(crate::specs::Copies::copies_of))]
    pub fn add(&mut self, event: &Event) -> Result<Change, AllocError>
        requires { copies_of self.old event.now < MOST_COPIES }
        ensures copies { (e : Event) → OnOk result (copies_of self.new e ≡ copies_of self.old e + occurrences e (event.now ∷ [])) }
        ensures change { IfOk result (λ c. c ≡ (if copies_of self.old event.now == 0 then Change.Appeared else Change.Same)) }
        ensures err { (e : Event) → OnErr result (copies_of self.new e ≡ copies_of self.old e) }
    {
        let Some(held) = self.held.checked_add(1) else {
            return Err(AllocError);
        };
        let before = raise(self.alloc, &mut self.times, event)?;
        if before > 0 {
            return Ok(Change::Same);
        }
        self.held = held;
        Ok(Change::Appeared)
    }

    /// A copy of an event goes; `None` where there is none, and nothing changes.
    #[tactic(auto, unfolding(crate::specs::Copies::copies_of))]
    pub fn take(&mut self, event: &Event) -> Option<Change>
        ensures copies { (e : Event) → copies_of self.new e ≡ copies_of self.old e - occurrences e (event.now ∷ []) }
        ensures change { MatchOption result (copies_of self.old event.now ≡ 0) (λ c. (0 < copies_of self.old event.now)
            × (c ≡ (if copies_of self.old event.now == 1 then Change.Vanished else Change.Same))) }
    {
        let before = lower(&mut self.times, event);
        if before == 0 {
            return None;
        }
        if before > 1 {
            return Some(Change::Same);
        }
        self.held = self.held.saturating_sub(1);
        Some(Change::Vanished)
    }

    // The events of the earliest time go, where it is below the bound; answers whether there were any.
    #[tactic(auto, unfolding(crate::specs::Copies::copies_of))]
    fn drop_first(&mut self, bound: u64) -> bool
        ensures kept { (e : Event) → nat_lt (time_of e) bound ≡ false → copies_of self.new e ≡ copies_of self.old e }
        ensures none { result ≡ false → (e : Event) → nat_lt (time_of e) bound ≡ true → copies_of self.new e ≡ 0 }
        ensures fewer { result ≡ true → length self.new.times.entries < length self.old.times.entries }
    {
        let Some(time) = first_time(&self.times) else {
            return false;
        };
        if time >= bound {
            return false;
        }
        if let Some(events) = self.times.remove(&time) {
            self.held = self.held.saturating_sub(events.len());
        }
        true
    }

    /// The events with a time below the bound go, and no others.
    pub fn drop_below(&mut self, bound: u64)
        ensures { (e : Event) → copies_of self.new e ≡ (if nat_lt (time_of e) bound then 0 else copies_of self.old e) }
    {
        while self.drop_first(bound) {}
    }
}
