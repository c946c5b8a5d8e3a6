// Why a rule file is refused.
use rule_check::CheckFault;
use rule_grammar::Which;

/// Why a rule file is refused. A place is a number of bytes from the file's begin.
#[derive(Debug, Drop)]
pub enum FileRefusal {
    TooLong,
    /// The longest first part that is UTF-8 ends there.
    NotUtf8(usize),
    Syntax(usize),
    Limit(Which, usize),
    /// What its rules are refused with; never want of memory.
    Unsound(CheckFault),
    /// Its rules are sound, and their plan would have more than 65,536 steps.
    TooManySteps,
}
