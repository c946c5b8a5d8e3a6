// Why rules are refused.
use event_model::Name;
use std::alloc::AllocError;
use std::fmt;
use thiserror::Error;

/// Why rules are refused. Rules are numbered from 1 among the rules, and shown names from 1 over all `show` statements. A name
/// is that of a variable.
#[derive(Drop, Error)]
pub enum CheckFault {
    /// A variable of the head isn't one of the body.
    #[error("rule {}: head {}", .0, .1.as_str())]
    HeadUnbound(u32, Name),
    /// A variable of a condition isn't one of its WHERE's own pattern.
    #[error("rule {}: where {}", .0, .1.as_str())]
    WhereUnbound(u32, Name),
    /// A variable of one side of an OR isn't one of the other.
    #[error("rule {}: or {}", .0, .1.as_str())]
    OrVariables(u32, Name),
    /// A variable of a negated pattern isn't one of its start and end patterns.
    #[error("rule {}: not {}", .0, .1.as_str())]
    NotVariables(u32, Name),
    /// A shown name heads no rule.
    #[error("show {0}: unknown")]
    ShowUnknown(u32),
    /// The head of a rule stands on itself.
    #[error("rule {0}: cycle")]
    Cycle(u32),
    #[error("out of memory")]
    Memory,
}

impl fmt::Debug for CheckFault {
    fn fmt<W: fmt::Write>(&self, f: &mut fmt::Formatter<W>) -> fmt::Result {
        write!(f, "{self}")
    }
}

impl From<AllocError> for CheckFault {
    ghost use Rattle.std.specs.Prelude.{◌≡◌};
    ghost use Rattle.rule_check.specs.declared.faults.CheckFault.TheVariants.{Memory};

    ghost from_gives = { λ _ r. r ≡ Memory };

    fn from(_error: AllocError) -> CheckFault {
        CheckFault::Memory
    }
}
