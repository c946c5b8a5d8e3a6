// When lists that held much and hold little give memory back.
ghost use Rattle.std.specs.Prelude.{◌≡◌, ◌==◌, ℕ};
ghost use Rattle.std.specs.HashMap.{get};

use crate::pieces::Pieces;
use std::collections::HashMap;

// Room for so few is kept in any case.
const LEAST: usize = 16;

// Whether less than a quarter of the room is in use. Twice what is in use is kept then, so the next time is as many changes away.
fn is_slack(held: usize, room: usize) -> bool {
    room >= LEAST && held < room / 4
}

/// Gives room of a list back where little is in use.
pub(crate) fn trim_list<T>(items: &mut Vec<T>)
    ensures { items.new.items ≡ items.old.items }
{
    let room = items.capacity();
    if is_slack(items.len(), room) {
        items.shrink_to(room / 2);
    }
}

/// Gives room for lists back where little is in use.
pub(crate) fn trim_lists<T>(lists: &mut HashMap<u64, Pieces<T>>)
    ensures { (h : ℕ) → get ◌==◌ lists.new h ≡ get ◌==◌ lists.old h }
{
    let held = lists.len();
    if is_slack(held, lists.capacity()) {
        lists.shrink_to(2 * held);
    }
}
