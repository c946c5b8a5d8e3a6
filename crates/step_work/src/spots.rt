// How far the step under way is.
ghost use Rattle.std.specs.Prelude.{◌≡◌, ℕ, List, Option};

use match_step::Place;
use negation_witness::TestPlace;

/// How far a step is with its visits, if it is a join or a Minus.
#[derive(Drop)]
pub struct Spot {
    pub join: Place,
    pub tests: TestPlace,
}

impl Spot {
    ghost use Rattle.std.specs.declared.alloc.Global.{Global as GlobalOf};
    ghost use Rattle.std.specs.declared.vec.Vec.{Vec as VecOf};
    ghost use Rattle.ev_bind.specs.declared.rows.Row.{Row};
    ghost use Rattle.rule_ast.specs.PlainPlans.{PlainIndex, PlainStep};
    ghost use Rattle.goal_store.specs.Goals.{indexes_of};
    ghost use Rattle.goal_store.specs.declared.kept.GoalStore.{GoalStore};
    ghost use Rattle.step_changes.specs.declared.deltas.Delta.{Delta};
    ghost use Rattle.step_work.specs.Views.{seen_visits};
    ghost use Rattle.step_work.specs.Ways.{IsWayOf};
    ghost use Rattle.step_work.specs.Seen.{left_of, view_in};
    ghost use Rattle.step_work.specs.declared.ways.StepWay.{StepWay};

    /// Before all visits of a step, whichever it is.
    pub fn start() -> Spot
        ensures { (goals : GoalStore) (changed : List (VecOf Delta GlobalOf)) (count : ℕ → Row → ℕ) (indexes : List PlainIndex)
            (cap : Option ℕ) (slots : ℕ → List ℕ) (s : PlainStep) (way : StepWay) → indexes_of goals ≡ indexes
            → IsWayOf indexes cap slots s way
            → left_of goals changed s way result ≡ seen_visits cap slots s (view_in goals count changed) }
    {
        Spot {
            join: Place::start(),
            tests: TestPlace::start(),
        }
    }
}
