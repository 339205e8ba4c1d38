//! The label of a walk from the depot.

use std::mem::size_of;
use vrp_duals::RowSet;

/// The number in place of a label's where there is none.
pub const NO_LABEL: u32 = u32::MAX;

/// The label of walks from the depot to a customer.
// Wider fields come first: so it takes 64 bytes.
#[derive(Clone, Copy, Debug)]
pub struct Label {
    /// The subset rows in state 1.
    pub rows: RowSet,
    /// In half price units. It never overflows: a walk has at most 4,096 stops, each of which pays at most 2 ^ 50.
    pub cost: i64,
    /// The number of the label that this one continues, or `NO_LABEL` if its customer is the first.
    pub previous: u32,
    /// What the customers demand.
    pub load: u16,
    /// The last customer.
    pub at: u16,
    /// The customers near the last one that are remembered, a bit for each.
    pub mask: u8,
}

const _: () = prove!(size_of::<Label>() == 64);
