// The limits of rule files that hold of their trees.

/// The most statements of a rule file.
pub const MOST_STATEMENTS: usize = 1024;

/// The most ticks that a pattern bounds its length by, 2^62.
pub const MOST_TICKS: u64 = 1 << 62;
