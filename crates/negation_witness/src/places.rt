// How far the tests of a Minus have come.
ghost use Rattle.std.specs.Prelude.{◌≡◌};
ghost use Rattle.event_changes.specs.declared.changes.Sign.{Sign};
ghost use Rattle.step_changes.specs.declared.deltas.Delta.{Delta};

use goal_store::Cursor;

// A changed row under way: its end, and where the joined rows go on that it can change.
#[derive(Clone, Copy, Drop)]
pub(crate) struct Test {
    pub(crate) end: u64,
    pub(crate) cursor: Cursor,
}

/// How far a Minus has come: so many changed rows are begun, and one may be under way.
#[derive(Clone, Copy, Drop)]
pub struct TestPlace {
    pub(crate) at: usize,
    pub(crate) under: Option<Test>,
}

impl TestPlace {
    ghost use Rattle.negation_witness.specs.Testing.{minus_left, all_tests};
    ghost use Rattle.negation_witness.specs.declared.ways.MinusWay.{MinusWay};
    ghost use Rattle.goal_store.specs.declared.kept.GoalStore.{GoalStore};
    ghost use Rattle.std.specs.Prelude.{List};

    /// Before all visits.
    #[tactic(auto, unfolding(crate::specs::Testing::minus_left))]
    pub fn start() -> TestPlace
        ensures { (goals : GoalStore) (way : MinusWay) (joined inner before after : List Delta)
            → minus_left goals way joined inner before after result ≡ all_tests goals way joined inner before after }
    {
        TestPlace { at: 0, under: None }
    }
}
