//! A plain slow program: it tries every part of a pool, and keeps the least cost of those that are choices.

use std::process::Abort;
use vrp_model::CustomerSet;
use vrp_partition::Route;

// The greatest number of routes of a pool here.
const MOST_ROUTES: usize = 12;

/// The least cost of a choice of the pool with this many trucks, if there is one.
pub(crate) fn least_cost(
    rt: &impl Abort,
    pool: &[Route],
    customers: CustomerSet,
    trucks: u8,
) -> Option<u64> {
    assert!(rt; pool.len() <= MOST_ROUTES, "too many routes");
    let mut least: Option<u64> = None;
    for taken in 0..1u32 << MOST_ROUTES {
        let cost = cost_of_part(pool, customers, taken);
        if let Some(cost) = cost.filter(|_| taken.count_ones() <= u32::from(trucks)) {
            least = Some(least.map_or(cost, |known| known.min(cost)));
        }
    }
    least
}

// The cost of a part that has each customer once, and nobody else. The part has a bit for each of its routes.
fn cost_of_part(pool: &[Route], customers: CustomerSet, taken: u32) -> Option<u64> {
    let mut bits = taken;
    let mut unserved = customers;
    let mut cost: u64 = 0;
    for route in pool {
        if bits & 1 == 1 {
            if !route.set.is_subset(unserved) {
                return None;
            }
            unserved = unserved.difference(route.set);
            cost = cost.saturating_add(u64::from(route.cost));
        }
        bits >>= 1;
    }
    unserved.is_empty().then_some(cost)
}

/// The total cost of these routes, if they have each of the customers once, and nobody else, and there are enough trucks.
pub(crate) fn cost_of_choice(routes: &[Route], customers: CustomerSet, trucks: u8) -> Option<u64> {
    let cost = cost_of_part(routes, customers, u32::MAX);
    cost.filter(|_| routes.len() <= usize::from(trucks))
}
