// An engine taken apart.
use revision::WorkParts;
use rule_check::Checked;
use support_table::Copies;

/// All that an engine keeps between inputs outside a batch: its rules and lateness, the bound, the copies of the events that are
/// present with a time of at least the bound, and the parts of its work.
#[derive(Drop)]
pub struct EngineParts {
    pub checked: Checked,
    pub late: Option<u64>,
    pub bound: u64,
    pub copies: Copies,
    pub work: WorkParts,
}
