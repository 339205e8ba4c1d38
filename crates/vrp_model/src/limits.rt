//! The limits of an instance. Clauses, definitions and code use these names; the numbers are only here.

/// The greatest number of nodes of a file, depots included.
pub const MAX_NODES: u16 = 1_200;

/// The greatest weight of an arc.
pub const MAX_WEIGHT: u64 = 1_000_000_000;

/// The greatest capacity of a truck, and so the greatest demand of a customer.
pub const MAX_CAPACITY: u64 = 1_000_000_000;

/// The greatest absolute value of a coordinate.
pub const MAX_COORDINATE: i64 = 100_000_000;

/// The greatest total demand: `MAX_CAPACITY` for each of `MAX_NODES`.
pub const MAX_WHOLE_DEMAND: u64 = 1_200_000_000_000;

/// More than the cost of any plan, which has at most 2,398 arcs. It stands for the cost of a missing plan.
pub const NO_COST: u64 = 4_000_000_000_000;

/// The greatest total weight of the arcs into `MAX_NODES` places: `MAX_WEIGHT` for each.
pub const MAX_ARCS: u64 = 1_200_000_000_000;
