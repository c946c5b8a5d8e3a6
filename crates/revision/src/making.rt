// The parts of a work that has no row yet.
ghost use Rattle.std.specs.Prelude.{◌≡◌, length, IfOk};

use std::alloc::{AllocError, Global};
use step_changes::Delta;

/// So many lists without a row.
pub(crate) fn empty_lists(alloc: Global, number: usize) -> Result<Vec<Vec<Delta>>, AllocError>
    ensures { IfOk result (λ v. length v.items ≡ number) }
{
    let mut lists = Vec::with_capacity(alloc, number)?;
    for _ in 0..number {
        lists.push(Vec::new(alloc))?;
    }
    Ok(lists)
}
