// All events, from which what stands is found.
ghost use Rattle.std.specs.Prelude.{◌≡◌, ℕ, Option, OnOk, is_some};
ghost use Rattle.event_model.specs.Presence.{History, no_history, all_inputs, extended, copies, judge, IsAccepted};
ghost use Rattle.event_model.specs.declared.inputs.Judgement.TheVariants.{Fine};
ghost use Rattle.etalis_core.specs.Kept.{HasRoom};
ghost use Rattle.etalis_cli.specs.StandsFor.{KeepsAll, keeps_all};

use crate::voices::Voice;
use etalis_core::Roll;
use event_model::Input;
use std::alloc::{AllocError, Global};

/// A roll of no inputs, where all events are to be kept.
pub fn roll_for(alloc: Global, voice: Voice) -> Option<Roll>
    ensures all { (late : Option ℕ) → KeepsAll result late no_history }
    ensures there { is_some result ≡ keeps_all voice }
{
    match voice {
        Voice::Refusals => Some(Roll::new(alloc)),
        Voice::Replies | Voice::Held | Voice::Counts => None,
    }
}

/// Has the roll, if there is one, follow an input that is fine.
pub fn keep(roll: &mut Option<Roll>, late: Option<u64>, input: &Input) -> Result<(), AllocError>
    requires { (h : History) × KeepsAll roll.old late h × HasRoom (copies (all_inputs h)) input.now }
    ensures all { (h : History) → KeepsAll roll.old late h → IsAccepted late h → judge late h input.now ≡ Fine
        → OnOk result (KeepsAll roll.new late (extended h input.now)) }
    ensures there { is_some roll.new ≡ is_some roll.old }
{
    match roll {
        Some(roll) => roll.follow(late, input),
        None => Ok(()),
    }
}
