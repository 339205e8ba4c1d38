//! Routes, as a choice among them sees them.
use vrp_model::CustomerSet;

/// A route: its customers and its cost.
#[derive(Debug, Clone, Copy)]
pub struct Route {
    pub set: CustomerSet,
    pub cost: u32,
}
