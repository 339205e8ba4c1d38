//! What a search looks for among the routes of a pool.
use vrp_model::{CustomerSet, FleetView};

/// A search for the cheapest choice that serves these customers with the fleet's trucks and costs less than the incumbent.
#[derive(Clone, Copy, Debug)]
pub struct Task<'a> {
    pub fleet: FleetView<'a>,
    pub customers: CustomerSet,
    /// Choices with fewer routes need not be considered; with 0 all are.
    pub least_routes: u16,
    pub incumbent: u64,
}

/// A query for the routes that may be in a choice that serves these customers with the fleet's trucks and costs no more than the
/// limit.
#[derive(Clone, Copy, Debug)]
pub struct Query<'a> {
    pub fleet: FleetView<'a>,
    pub customers: CustomerSet,
    /// Choices with fewer routes need not be considered; with 0 all are.
    pub least_routes: u16,
    pub limit: u32,
}
