// A watch that rests.
ghost use Rattle.std.specs.Prelude.{◌≡◌, IfOk, IsOkUnless};
ghost use Rattle.event_model.specs.Presence.{History};
ghost use Rattle.parcel_watch.specs.Watches.{Watches, Rests, rules_in, late_in, rules_at_rest, late_at_rest};
ghost use Rattle.parcel_watch.specs.declared.faults.WatchFault.TheVariants.{Memory};

use crate::faults::WatchFault;
use crate::watch::Watch;
use etalis_core::{Engine, EngineParts};
use std::alloc::Global;

/// All that a watch keeps between inputs: the parts of its engine, and how many inputs came.
#[derive(Drop)]
pub struct Resting {
    pub parts: EngineParts,
    pub count: u64,
}

impl Resting {
    /// The watch again, which goes on as if it hadn't rested.
    pub fn wake(self, alloc: Global) -> Result<Watch, WatchFault>
        requires { (h : History) × Rests self h }
        ensures watches { (h : History) → Rests self h → IfOk result (λ watch. Watches watch h) }
        ensures rules { IfOk result (λ watch. rules_in watch ≡ rules_at_rest self) }
        ensures late { IfOk result (λ watch. late_in watch ≡ late_at_rest self) }
        ensures memory { IsOkUnless result Memory }
    {
        let Resting { parts, count } = self;
        Ok(Watch {
            alloc,
            engine: Engine::over(alloc, parts)?,
            count,
        })
    }
}
