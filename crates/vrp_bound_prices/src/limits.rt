//! The limits of a relaxation, by name.

/// The greatest factor on the cost of an arc.
pub const MAX_SCALE: u64 = 1_000;

/// The greatest number of cuts.
pub const MAX_CUTS: usize = 100;

/// The greatest amount that one cut takes off an arc: the highest cost of an arc before prices, `MAX_SCALE` times the
/// greatest weight.
pub const MAX_CUT_PRICE: u64 = 1_000_000_000_000;

/// The greatest amount that all cuts take off an arc.
pub(crate) const MAX_CUT_PRICES: u64 = 100_000_000_000_000;

/// The greatest amount that a customer's price adds to an arc: the greatest weight, plus the cut prices.
pub(crate) const MAX_PRICE: u64 = 100_001_000_000_000;

/// The greatest amount that a customer's rebate takes off an arc: the highest cost of an arc before prices.
pub(crate) const MAX_REBATE: u64 = 1_000_000_000_000;

/// The greatest amount that prices add to a plan: `MAX_PRICE` on each of the arcs of `MAX_NODES` places.
pub(crate) const MAX_CHARGES: u64 = 240_002_400_000_000_000;

/// The greatest amount that rebates take off a plan: `MAX_REBATE` on each of the arcs of `MAX_NODES` places.
pub(crate) const MAX_REBATE_REWARDS: u64 = 2_400_000_000_000_000;

/// The greatest amount that cut prices take off a plan: `MAX_CUT_PRICE` on each arc of `MAX_NODES` trucks across the border
/// of `MAX_CUTS` cuts.
pub(crate) const MAX_CUT_REWARDS: u64 = 240_000_000_000_000_000;

/// The greatest amount that rebates and cut prices take off a plan.
pub(crate) const MAX_REWARDS: u64 = 242_400_000_000_000_000;
