// The cap and the reach of a step. There is no limit past the last step.
ghost use Rattle.std.specs.Prelude.{◌≡◌};
ghost use Rattle.change_meaning.specs.Caps.{caps_in};

use row_changes::{CapList, Reach};

pub(crate) fn cap_at(caps: &CapList, at: usize) -> Option<u64>
    ensures { result ≡ (caps_in caps.now).cap at }
{
    if at < caps.cap.len() {
        return caps.cap[at];
    }
    None
}

pub(crate) fn reach_at(caps: &CapList, at: usize) -> Reach
    ensures { result ≡ (caps_in caps.now).reach at }
{
    if at < caps.reach.len() {
        return caps.reach[at];
    }
    Reach::Free
}
