// The limits of rule files that hold of their texts.

/// The parts of a rule: atoms, operators, lengths, and the operands of conditions.
pub const MOST_PARTS: usize = 256;

/// The open brackets of patterns and conditions.
pub const MOST_BRACKETS: usize = 32;
