// Numbers of events that stand under their times.
ghost use Rattle.std.specs.Prelude.{◌≡◌, ◌+◌, ◌<◌, ◌^◌, ℕ, [], cond, unwrap_or, IfOk, OnErr, Some, None, IfSome, IfNone, IsSome, true, false};
ghost use Rattle.std.specs.BTreeMap.{get};
ghost use Rattle.std.specs.Ordering.{nat_cmp, is_eq, is_gt};
ghost use Rattle.event_model.specs.EventOrder.{event_cmp};
ghost use Rattle.event_model.specs.Events.{time_of};
ghost use Rattle.event_model.specs.declared.events.Event.{Event};
ghost use Rattle.support_table.specs.Times.{fewer, number_at, number_in, Puts, Stays};

use event_model::Event;
use std::alloc::{AllocError, Global};
use std::collections::BTreeMap;
use std::collections::btree_map::Entry;

// The number of an event under its time, 0 where it has none.
pub(crate) fn number_of(times: &BTreeMap<u64, BTreeMap<Event, u64>>, event: &Event) -> u64
    ensures { result ≡ number_in times.now event.now }
{
    match times.get(&event.time()) {
        None => 0,
        Some(events) => events.get(event).copied().unwrap_or(0),
    }
}

// One copy more of an event of a time; answers how many there were.
fn raise_in(events: &mut BTreeMap<Event, u64>, event: &Event) -> Result<u64, AllocError>
    requires room { unwrap_or (get event_cmp events.old event.now) 0 + 1 < 2 ^ 64 }
    ensures was { IfOk result (λ n. n ≡ unwrap_or (get event_cmp events.old event.now) 0) }
    ensures ok { IfOk result (λ n. (e : Event)
        → get event_cmp events.new e ≡ cond (is_eq (event_cmp event.now e)) (Some (n + 1)) (get event_cmp events.old e)) }
    ensures err { OnErr result ((e : Event) → get event_cmp events.new e ≡ get event_cmp events.old e) }
{
    let kept = events.entry(event.share()?)?.or_insert(0);
    let before = *kept;
    *kept = before + 1;
    Ok(before)
}

// One copy more of an event, under its time; answers how many there were.
pub(crate) fn raise(
    alloc: Global,
    times: &mut BTreeMap<u64, BTreeMap<Event, u64>>,
    event: &Event,
) -> Result<u64, AllocError>
    requires room { number_in times.old event.now + 1 < 2 ^ 64 }
    ensures was { IfOk result (λ n. n ≡ number_in times.old event.now) }
    ensures ok { IfOk result (λ n. Puts times.old times.new event.now (Some (n + 1))) }
    ensures err { OnErr result (Stays times.old times.new) }
{
    match times.entry(event.time())? {
        Entry::Occupied(kept) => raise_in(kept.into_mut(), event),
        Entry::Vacant(place) => {
            let mut events = BTreeMap::new(alloc);
            events.insert(event.share()?, 1)?;
            place.insert(events);
            Ok(0)
        }
    }
}

// One copy less of an event of a time, which goes with its last; answers how many there were.
#[tactic(auto, using(crate::proofs::TimeLaws::none_kept))]
fn lower_in(events: &mut BTreeMap<Event, u64>, event: &Event) -> u64
    ensures was { result ≡ unwrap_or (get event_cmp events.old event.now) 0 }
    ensures less { (e : Event)
        → get event_cmp events.new e ≡ cond (is_eq (event_cmp event.now e)) (fewer result) (get event_cmp events.old e) }
{
    let Some(kept) = events.get_mut(event) else {
        return 0;
    };
    let before = *kept;
    if before > 1 {
        *kept = before - 1;
        return before;
    }
    events.remove(event);
    before
}

// One copy less of an event among the others of its time; answers how many there were, and whether no event is left there.
#[tactic(auto, using(crate::proofs::TimeLaws::nowhere_kept))]
fn take_out(times: &mut BTreeMap<u64, BTreeMap<Event, u64>>, event: &Event) -> (u64, bool)
    ensures was { result.0 ≡ number_in times.old event.now }
    ensures out { Puts times.old times.new event.now (fewer result.0) }
    ensures none { result.1 ≡ true → (e : Event) → number_at times.new (time_of event.now) e ≡ None }
{
    match times.get_mut(&event.time()) {
        None => (0, false),
        Some(events) => {
            let before = lower_in(events, event);
            (before, events.is_empty())
        }
    }
}

// One copy less of an event, under its time; answers how many there were.
pub(crate) fn lower(times: &mut BTreeMap<u64, BTreeMap<Event, u64>>, event: &Event) -> u64
    ensures was { result ≡ number_in times.old event.now }
    ensures out { Puts times.old times.new event.now (fewer result) }
{
    let (before, none_left) = take_out(times, event);
    if none_left {
        times.remove(&event.time());
    }
    before
}

// The earliest time.
pub(crate) fn first_time(times: &BTreeMap<u64, BTreeMap<Event, u64>>) -> Option<u64>
    ensures there { IfSome result (λ t. IsSome (get nat_cmp times.now t)) }
    ensures least { IfSome result (λ t. (q : ℕ) → IsSome (get nat_cmp times.now q) → is_gt (nat_cmp t q) ≡ false) }
    ensures none { IfNone result (times.now.entries ≡ []) }
{
    let (time, _) = times.first_key_value()?;
    Some(*time)
}
