// Plans: steps that are named by number, and the indexes that they use.
use crate::conditions::Cond;
use event_model::{Edge, NameArity, Op, PatAtom, Slots};

/// The number of a step in its plan, from 0.
pub type StepId = u32;

/// The number of an index in its plan, from 0.
pub type IndexId = u32;

/// A step of a plan, whose operands have lower numbers.
#[derive(Drop)]
pub enum Step {
    /// The rows of a name: its events, and what the `Head` steps of its rules give.
    Named {
        name: NameArity,
        heads: Vec<StepId>,
    },
    /// The rows of an atom in a body, from those of its name.
    Leaf {
        of: StepId,
        pat: PatAtom,
    },
    Join {
        op: Op,
        left: StepId,
        right: StepId,
    },
    Either {
        left: StepId,
        right: StepId,
    },
    Where {
        of: StepId,
        cond: Cond,
    },
    /// The rows of exactly this length in ticks.
    Exact {
        of: StepId,
        q: u64,
    },
    /// The rows of at most this length in ticks.
    Within {
        of: StepId,
        q: u64,
    },
    /// The rows of `joined` that no chain of a row of `before`, one of `inner` and one of `after` gives.
    Minus {
        joined: StepId,
        before: StepId,
        inner: StepId,
        after: StepId,
    },
    /// The rows of a rule's head, from those of its body.
    Head {
        of: StepId,
        head: PatAtom,
    },
}

/// The rows of a step by the values at the key's slots, and by an edge of their spans.
#[derive(Clone, Copy, Drop)]
pub struct Index {
    pub of: StepId,
    pub key: Slots,
    pub edge: Edge,
}

/// Steps, operands first, with the indexes that they use and the `Named` steps of the names that are given out.
#[derive(Drop)]
pub struct Plan {
    pub steps: Vec<Step>,
    pub indexes: Vec<Index>,
    pub shown: Vec<StepId>,
}
