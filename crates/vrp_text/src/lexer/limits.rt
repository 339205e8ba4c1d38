//! The limits of a file's text. Clauses, definitions and code use these names; the numbers are only here.

/// The greatest number of bytes of a file.
pub const MAX_BYTES: usize = 16_777_216;

/// The greatest number of digits of a numeral, not counting its power of ten.
pub const MAX_DIGITS: usize = 18;

/// The greatest number of digits of a numeral's power of ten.
pub const MAX_POWER_DIGITS: usize = 4;

/// The greatest power of ten of a numeral, positive or negative.
pub const MAX_POWER: u64 = 18;

/// The greatest absolute value of a token that stands for a node. Whether there is such a node is checked later.
pub const MAX_NODE: i64 = 1_000_000_000;

/// The greatest demand that a token may state.
pub const MAX_DEMAND: u64 = 1_000_000_000;
