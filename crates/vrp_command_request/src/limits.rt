//! The greatest budget and the longest time that may be requested.

/// The greatest budget of partial plans for each part.
pub const MAX_BUDGET: u64 = 1_000_000_000_000;

/// The greatest limit of seconds.
pub const MAX_SECONDS: u32 = 1_000_000;
