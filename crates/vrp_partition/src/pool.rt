//! Passes over a pool of routes: their reduced costs, and the choice of those to keep.
ghost use Rattle.std.specs.Prelude.{◌≡◌, ◌↔◌, ◌≤◌, ◌≤ℤ◌, IfOk, IsTrue, length, map, filter, int_le, pos, vec_len};
ghost use Rattle.std.specs.List.{All};
ghost use Rattle.vrp_partition.specs.Choice.{is_apart, is_together};
ghost use Rattle.vrp_partition.specs.Prices.{AllFit, NoneNegative, load_of, is_within_gap, reduced_cost_of};
ghost use Rattle.vrp_partition.specs.declared.prices.TheConstants.{SCALE};

use crate::prices::{Prices, demand_of};
use crate::route::Route;
use std::alloc::{AllocError, Global};
use vrp_model::{CustomerSet, PLACES};

/// The reduced cost of each route by the prices.
pub fn reduced_costs(alloc: Global, prices: &Prices, pool: &[Route]) -> Result<Vec<i64>, AllocError>
    ensures { IfOk result (λ costs. costs.items ≡ map (reduced_cost_of prices.now SCALE) pool.now) }
{
    pool.iter()
        .map(|route| prices.reduced_cost(route.set, route.cost))
        .collect(alloc)
}

/// Whether each route fits one truck. The demands are those of all places.
pub fn all_fit(pool: &[Route], demands: &[u32], capacity: u32) -> bool
    requires { length demands.now ≡ PLACES }
    ensures { IsTrue result ↔ AllFit demands.now capacity pool.now }
{
    for route in pool {
        if demand_of(demands, route.set) > u64::from(capacity) {
            return false;
        }
    }
    true
}

/// Whether no reduced cost is negative.
pub fn none_negative(costs: &[i64]) -> bool
    ensures { IsTrue result ↔ All (λ cost. pos 0 ≤ℤ cost) costs.now }
{
    costs.iter().all(|cost| *cost >= 0)
}

/// The routes whose reduced costs are not above the gap, in order. `costs` are the reduced costs of the pool.
pub fn within_gap(
    alloc: Global,
    prices: &Prices,
    pool: &[Route],
    costs: &[i64],
    gap: i64,
) -> Result<Vec<Route>, AllocError>
    requires { costs.now ≡ map (reduced_cost_of prices.now SCALE) pool.now }
    ensures { IfOk result (λ kept.
        kept.items ≡ filter (is_within_gap prices.now SCALE gap) pool.now) }
{
    let mut kept = Vec::new(alloc);
    for (index, route) in pool.iter().enumerate() {
        if costs[index] <= gap {
            kept.push(*route)?;
        }
    }
    Ok(kept)
}

/// The routes that have all customers of a group, or none of them: the branch where one route serves them together.
pub fn together(alloc: Global, pool: &[Route], group: CustomerSet) -> Result<Vec<Route>, AllocError>
    ensures { IfOk result (λ kept. kept.items ≡ filter (is_together group) pool.now) }
{
    pool.iter()
        .copied()
        .filter(|route| route.set.intersection(group) == group || route.set.is_disjoint(group))
        .collect(alloc)
}

/// The routes that lack a customer of a group: the branch where no route serves all of them.
pub fn apart(alloc: Global, pool: &[Route], group: CustomerSet) -> Result<Vec<Route>, AllocError>
    ensures { IfOk result (λ kept. kept.items ≡ filter (is_apart group) pool.now) }
{
    pool.iter()
        .copied()
        .filter(|route| route.set.intersection(group) != group)
        .collect(alloc)
}
