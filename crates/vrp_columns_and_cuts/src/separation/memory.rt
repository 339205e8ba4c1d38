//! The memory that a subset row needs, so that a route pays as often as if the row were remembered everywhere.
use crate::separation::solution::UsedRoute;
use vrp_model::{CustomerSet, PLACES};

// The order in which a route's stops are read.
#[derive(Clone, Copy, Debug, PartialEq, Eq)]
enum Direction {
    Forward,
    Backward,
}

/// The memory with which each of these routes pays in full for a row of these customers: the given one, and what each route adds to it in
/// the direction that adds less.
pub(crate) fn memory_for(
    customers: CustomerSet,
    memory: CustomerSet,
    routes: &[UsedRoute],
) -> CustomerSet {
    let mut all = memory;
    for route in routes {
        let forward = with_route(customers, all, &route.stops, Direction::Forward);
        let backward = with_route(customers, all, &route.stops, Direction::Backward);
        all = if forward.len() <= backward.len() {
            forward
        } else {
            backward
        };
    }
    all
}

// The memory, and for each second stop at a customer of the row those from the first stop on.
fn with_route(
    customers: CustomerSet,
    memory: CustomerSet,
    stops: &[u16],
    direction: Direction,
) -> CustomerSet {
    let mut all = memory;
    // The stops since the first of a pair; none if there is no first.
    let mut since = CustomerSet::empty();
    for step in 0..stops.len() {
        let index = match direction {
            Direction::Forward => step,
            Direction::Backward => stops.len() - 1 - step,
        };
        let stop = stops[index];
        if usize::from(stop) >= PLACES {
            continue;
        }
        let is_member = customers.contains(stop);
        if is_member && !since.is_empty() {
            all = all.union(since).with(stop);
            since = CustomerSet::empty();
        } else if is_member || !since.is_empty() {
            since = since.with(stop);
        }
    }
    all
}
