// When a table that held much and holds little gives memory back.
ghost use Rattle.std.specs.Prelude.{◌≡◌, ◌<◌, ◌==◌, ℕ, true};
ghost use Rattle.std.specs.HashMap.{get};
ghost use Rattle.slab.specs.Slab.{SameValues};

use slab::Slab;
use std::collections::HashMap;

// So few places are kept in any case.
const LEAST: usize = 16;

// Whether less than a quarter of the room is in use.
fn is_slack(held: usize, room: usize) -> bool
    ensures { result ≡ true → held < room }
{
    room >= LEAST && held < room / 4
}

/// Gives the places past the last value back where few are in use. That takes as long as there are places, so it waits for a
/// share of as many takes, and a value in the last place holds it up.
pub(crate) fn trim_places<T: Drop>(places: &mut Slab<T>, taken: &mut usize)
    ensures { SameValues places.old places.new }
{
    *taken = taken.saturating_add(1);
    let room = places.capacity();
    if is_slack(places.len(), room) && *taken >= room / 8 && !places.contains(room - 1) {
        *taken = 0;
        places.shrink_to_fit();
    }
}

/// Gives room back where little is in use, and keeps twice what is, so the next time is as many changes away.
pub(crate) fn trim_numbers(numbers: &mut HashMap<u64, usize>)
    ensures { (h : ℕ) → get ◌==◌ numbers.new h ≡ get ◌==◌ numbers.old h }
{
    let held = numbers.len();
    if is_slack(held, numbers.capacity()) {
        numbers.shrink_to(2 * held);
    }
}
