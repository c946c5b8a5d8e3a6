// Places in the lists of the indexes, as plain numbers.
use crate::marks::When;
use key_lists::Position;
use rule_ast::IndexId;

/// Where a walk over the rows of an index goes on. It names the next row by its number and borrows nothing.
#[derive(Clone, Copy, Debug, Drop)]
pub struct Cursor {
    pub(crate) index: IndexId,
    pub(crate) when: When,
    pub(crate) high: u64,
    pub(crate) number: Option<usize>,
    // Where the row probably stands in its list.
    pub(crate) hint: Position,
}
