//! The limits of dual prices, so that no sum of them overflows. Clauses, definitions and code use these names; the numbers are only here.

/// The greatest number of price units in a unit of cost: 2 ^ 17.
pub const MAX_SCALE: u32 = 131_072;

/// The greatest absolute price of a customer: 2 ^ 46.
pub const MAX_PRICE: u64 = 70_368_744_177_664;

/// The greatest number of entry rows.
pub const MAX_ENTRY_ROWS: usize = 512;

/// The greatest absolute price of an entry row: 2 ^ 33.
pub const MAX_ENTRY_PRICE: u64 = 8_589_934_592;

/// The greatest number of subset rows: a set of rows has a bit for each.
pub const MAX_SUBSET_ROWS: usize = 256;

/// The greatest price of a subset row: 2 ^ 37.
pub const MAX_ROW_PRICE: u64 = 137_438_953_472;

/// The greatest absolute price of an arc: 2 ^ 48.
pub const MAX_ARC_PRICE: u64 = 281_474_976_710_656;

/// The greatest sum of the prices of a set of subset rows: `MAX_ROW_PRICE` for each of `MAX_SUBSET_ROWS`, 2 ^ 45.
pub const MAX_ROW_CHARGE: u64 = 35_184_372_088_832;

/// The greatest absolute lower bound: 2 ^ 59.
pub const MAX_LOW: u64 = 576_460_752_303_423_488;
