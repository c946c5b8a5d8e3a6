// How a Minus finds the rows that it looks at.
use rule_ast::IndexId;

/// How a Minus works: the cap of its rows, and six indexes. Three are over its joined rows, in which those are found that a row
/// before, inside or after can change; the others are over the rows before, inside and after, in which chains are looked for.
#[derive(Clone, Copy, Drop)]
pub struct MinusWay {
    pub cap: Option<u64>,
    pub joined_before: IndexId,
    pub joined_inner: IndexId,
    pub joined_after: IndexId,
    pub before: IndexId,
    pub inner: IndexId,
    pub after: IndexId,
}
