// The store of the goals.
ghost use Rattle.goal_store.specs.Fits.{IsPlaced, IsPlaced-prop, IsGood-prop};
ghost use Rattle.goal_store.specs.Good.{IsGood};

use crate::goals::Goals;
use rule_ast::Index;

/// Which rows each step of a plan has, with a mark each, and the plan's indexes over them. A row has a number for as long as
/// it is kept.
#[derive(Drop)]
pub struct GoalStore {
    pub(crate) indexes: Vec<Index>,
    // Where each index of the plan stands among those of its step.
    pub(crate) spots: Vec<usize>,
    pub(crate) goals: Goals,
    ghost good: { IsGood goals } by { IsGood-prop goals },
    ghost placed: { IsPlaced indexes.items spots.items goals.held.steps.items } by { IsPlaced-prop indexes.items spots.items goals.held.steps.items },
}
