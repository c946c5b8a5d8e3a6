// A work taken apart, and put together again.
ghost use Rattle.std.specs.Prelude.{◌≡◌, ℕ, List, [], IfOk};
ghost use Rattle.event_model.specs.declared.events.Event.{Event};
ghost use Rattle.revision.specs.Holding.{Holds};
ghost use Rattle.revision.specs.InHand.{hand, IsReady, IsDue, told_in};
ghost use Rattle.revision.specs.Apart.{parts_in, PartsHold};

use crate::expiring::expiries_of;
use crate::making::empty_lists;
use crate::parts::Parts;
use goal_store::GoalStore;
use row_changes::CapList;
use rule_ast::Plan;
use std::alloc::{AllocError, Global};
use step_changes::Pending;
use step_work::{Spot, ways_of};
use support_table::Supports;

/// All that a work keeps between changes: the plan with its caps, and the rows of its steps with their counts.
#[derive(Drop)]
pub struct WorkParts {
    pub plan: Plan,
    pub caps: CapList,
    pub goals: GoalStore,
    pub supports: Supports,
}

impl Parts {
    /// The plan with its caps, and the rows with their counts. All else goes.
    pub(crate) fn apart(self) -> WorkParts
        ensures { result ≡ parts_in self }
    {
        let Parts {
            alloc: _,
            plan,
            caps,
            ways: _,
            goals,
            supports,
            expiries: _,
            events: _,
            changed: _,
            finished: _,
            spot: _,
            pending: _,
            spare: _,
            gone: _,
            come: _,
            made: _,
        } = self;
        WorkParts {
            plan,
            caps,
            goals,
            supports,
        }
    }

    /// Over these rows, and without changes in hand. The ways and the expiries are found anew.
    pub(crate) fn over(alloc: Global, kept: WorkParts) -> Result<Parts, AllocError>
        requires { (b : ℕ) × (E : List Event) × PartsHold kept b E }
        ensures holds { (b : ℕ) (E : List Event) → PartsHold kept b E → IfOk result (λ p. Holds (hand p) b E) }
        ensures due { (b : ℕ) (E : List Event) → PartsHold kept b E → IfOk result (λ p. IsDue p b E) }
        ensures ready { IfOk result (λ p. IsReady p) }
        ensures kept { IfOk result (λ p. parts_in p ≡ kept) }
        ensures told { IfOk result (λ p. told_in p ≡ record { gone = []; come = [] }) }
        ensures made { IfOk result (λ p. p.made ≡ 0) }
    {
        let WorkParts {
            plan,
            caps,
            goals,
            supports,
        } = kept;
        let ways = ways_of(alloc, &plan, &caps)?;
        let expiries = expiries_of(alloc, &goals, &caps)?;
        let changed = empty_lists(alloc, plan.steps.len())?;
        Ok(Parts {
            alloc,
            plan,
            caps,
            ways,
            goals,
            supports,
            expiries,
            events: Vec::new(alloc),
            changed,
            finished: 0,
            spot: Spot::start(),
            pending: Pending::new(alloc),
            spare: Pending::new(alloc),
            gone: Vec::new(alloc),
            come: Vec::new(alloc),
            made: 0,
        })
    }
}
