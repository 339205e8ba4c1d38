//! The pools that column generation leaves: one for all plans, or one for each leaf.
use vrp_routes::{Leaves, RoutePool};

/// Useful routes for plans within a limit.
#[derive(Drop)]
pub enum Pools {
    /// Those of all plans.
    Whole(RoutePool),
    /// Those of each leaf.
    Leaves(LeafPools),
}

/// Both leaves, and a pool for each: its routes are those that may be in the canonical plan, if that plan is in the leaf.
#[derive(Drop)]
pub struct LeafPools {
    /// Which plans the leaves have.
    pub leaves: Leaves,
    /// The pool of the leaf with few routes.
    pub few: RoutePool,
    /// The pool of the leaf with many routes.
    pub many: RoutePool,
}

impl Pools {
    /// The number of routes; no clause pins it.
    pub fn route_count(&self) -> usize {
        match self {
            Pools::Whole(pool) => pool.len(),
            Pools::Leaves(pools) => pools.few.len().saturating_add(pools.many.len()),
        }
    }

    /// The number of labels that their lists went through; no clause pins it.
    pub fn label_count(&self) -> usize {
        match self {
            Pools::Whole(pool) => pool.labels(),
            Pools::Leaves(pools) => pools.few.labels().saturating_add(pools.many.labels()),
        }
    }
}
