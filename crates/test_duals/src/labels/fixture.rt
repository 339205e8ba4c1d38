//! What the tests of labels share: graphs, their closed labels, and every route.

use crate::duals::fixture::set_of;
use std::alloc::Global;
use std::process::Abort;
use vrp_duals::FoldedDuals;
use vrp_labels::{GraphParts, RouteGraph};
use vrp_model::CustomerSet;

/// A graph where all arcs are alive, with these demands, and the same near customers at each place.
pub(super) fn whole_graph(
    rt: &impl Abort,
    alloc: Global,
    folded: FoldedDuals,
    (demands, capacity): (&[u32], u32),
    near: CustomerSet,
) -> RouteGraph {
    let places = demands.len();
    let mut all = set_of(&[0]);
    for place in 0..places {
        if place < 256 {
            all = all.with(place as u16);
        }
    }
    let parts = GraphParts {
        folded,
        capacity,
        demands: Vec::from_slice(alloc, demands).expect(rt, "memory"),
        near: vec![in alloc; near; places].expect(rt, "memory"),
        followers: vec![in alloc; all; places].expect(rt, "memory"),
    };
    RouteGraph::new(parts).expect(rt, "a graph")
}

/// Every route of customers whose demands fit a truck, the empty one first.
pub(super) fn all_routes(
    rt: &impl Abort,
    alloc: Global,
    demands: &[u32],
    capacity: u32,
) -> Vec<Vec<u16>> {
    let mut routes: Vec<Vec<u16>> = Vec::new(alloc);
    routes.push(Vec::new(alloc)).expect(rt, "memory");
    for index in 0..20_000 {
        let Some(route) = routes.get(index) else {
            break;
        };
        let longer = longer_routes(rt, alloc, route, demands, capacity);
        for one in longer {
            routes.push(one).expect(rt, "memory");
        }
    }
    routes
}

// A route with one customer more at its end.
fn longer_routes(
    rt: &impl Abort,
    alloc: Global,
    route: &[u16],
    demands: &[u32],
    capacity: u32,
) -> Vec<Vec<u16>> {
    let mut longer: Vec<Vec<u16>> = Vec::new(alloc);
    for customer in 1..demands.len() {
        let Ok(stop) = u16::try_from(customer) else {
            break;
        };
        if !route.contains(&stop)
            && load_of(route, demands).saturating_add(demands[customer]) <= capacity
        {
            let mut one = Vec::from_slice(alloc, route).expect(rt, "memory");
            one.push(stop).expect(rt, "memory");
            longer.push(one).expect(rt, "memory");
        }
    }
    longer
}

// What the stops of a route demand.
fn load_of(route: &[u16], demands: &[u32]) -> u32 {
    let mut load = 0u32;
    for stop in route {
        let demand = demands.get(usize::from(*stop)).unwrap_or(&0);
        load = load.saturating_add(*demand);
    }
    load
}
