// The marks of the goals, and who sees which.
ghost use Rattle.std.specs.Prelude.{◌≡◌};
ghost use Rattle.goal_store.specs.Marks.{sees, is_old};

/// How a step has a row. A goal is a step with a row that it has.
#[derive(Clone, Copy, Debug, Drop, PartialEq, Eq)]
pub enum Mark {
    /// It had the row before the change that is under way, and has it still.
    Old,
    /// It has the row since this change.
    Fresh,
    /// It had the row before this change, and has it no more.
    Dying,
}

/// From where the goals are seen: as before the change that is under way, or as after it.
#[derive(Clone, Copy, Debug, Drop, PartialEq, Eq)]
pub enum When {
    /// Sees what is old or dying.
    Before,
    /// Sees what is old or fresh.
    After,
}

impl When {
    pub(crate) fn sees(self, mark: Mark) -> bool
        ensures { result ≡ sees self mark }
    {
        match (self, mark) {
            (_, Mark::Old) => true,
            (When::Before, Mark::Dying) => true,
            (When::After, Mark::Fresh) => true,
            (When::Before, Mark::Fresh) => false,
            (When::After, Mark::Dying) => false,
        }
    }
}
