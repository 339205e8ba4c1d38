//! The bound of a node: its routes are priced, those with reduced costs above the gap are dropped, and the others are searched by the
//! exact cover, or left to be branched on.
ghost use Rattle.std.specs.Prelude.{◌≡◌, ◌≤◌, ◌<◌, ◌≤ℤ◌, ◌<ℤ◌, ◌-◌, ◌^◌, IfNone, IfOk, IfSome, length, map, pos, unsigned_abs};
ghost use Rattle.vrp_partition.specs.Covering.{column_of, route_of};
ghost use Rattle.vrp_partition.specs.Prices.{AllFit, gap_of};
ghost use Rattle.vrp_partition.specs.Outcome.{IsLeastOf, IsOutcome};
ghost use Rattle.vrp_partition.specs.Pricing.{IsPriced};
ghost use Rattle.vrp_partition.specs.declared.prices.TheConstants.{SCALE};

use crate::cover::{Column, CoverNode, cheapest_cover};
use crate::pool::within_gap;
use crate::priced::{PricedPool, valid_prices};
use crate::prices::{PriceOffer, Prices, SCALE};
use crate::route::Route;
use crate::task::Task;
use std::alloc::{AllocError, Global};
use vrp_model::{CustomerSet, PLACES};

// With more routes than these a node is branched on at once.
const MOST_COLUMNS: usize = 3_000;

// The most nodes that the exact cover looks at before its node is branched on.
const MOST_COVER_NODES: u64 = 20_000;

/// The routes of a choice, and their cost. If no choice below the incumbent was found, the cost is the incumbent's, and the routes are
/// no choice.
#[derive(Debug, Drop)]
pub struct Chosen {
    pub cost: u64,
    pub routes: Vec<Route>,
}

/// The outcome of pricing a node: it is solved, or the routes that are left must be branched on.
#[derive(Debug, Drop)]
pub enum NodeOutcome {
    Solved(Chosen),
    Open(OpenRoutes),
}

/// The routes of a node that are left, and a lower bound on its choices.
#[derive(Debug, Drop)]
pub struct OpenRoutes {
    pub routes: Vec<Route>,
    pub lower_bound: u64,
}

/// Prices a node by the offered prices, if these are valid.
pub(crate) fn price_node(
    alloc: Global,
    offer: PriceOffer,
    task: &Task<'_>,
    pool: &[Route],
) -> Result<NodeOutcome, AllocError>
    requires len { length task.now.fleet.demands.now ≡ PLACES }
    requires fit { AllFit task.now.fleet.demands.now task.now.fleet.capacity pool.now }
    requires incumbent { task.now.incumbent ≤ 2 ^ 32 }
    ensures { IfOk result (IsOutcome pool.now task.now.customers task.now.fleet.trucks task.now.least_routes task.now.incumbent) }
{
    if task.incumbent == 0 {
        let routes = Vec::new(alloc);
        return Ok(NodeOutcome::Solved(Chosen { cost: 0, routes }));
    }
    match valid_prices(alloc, offer, task, pool)? {
        Some(priced) => bound_node(alloc, &priced, task, pool),
        None => Ok(NodeOutcome::Open(OpenRoutes {
            routes: Vec::from_slice(alloc, pool)?,
            lower_bound: 0,
        })),
    }
}

// Bounds a node by prices without negative reduced costs.
fn bound_node(
    alloc: Global,
    priced: &PricedPool,
    task: &Task<'_>,
    pool: &[Route],
) -> Result<NodeOutcome, AllocError>
    requires some { 1 ≤ task.now.incumbent }
    requires incumbent { task.now.incumbent ≤ 2 ^ 32 }
    requires priced { IsPriced pool.now task.now.customers task.now.least_routes priced.now }
    ensures { IfOk result (IsOutcome pool.now task.now.customers task.now.fleet.trucks task.now.least_routes task.now.incumbent) }
{
    let Task {
        fleet,
        customers,
        incumbent,
        ..
    } = *task;
    let prices = &priced.prices;
    let Some(gap) = gap_below(prices, customers, fleet.trucks, incumbent) else {
        let routes = Vec::new(alloc);
        return Ok(NodeOutcome::Solved(Chosen {
            cost: incumbent,
            routes,
        }));
    };
    let lower_bound = whole_lower_bound(prices, customers, fleet.trucks);
    let routes = within_gap(alloc, prices, pool, priced.costs.as_slice(), gap)?;
    if routes.len() > MOST_COLUMNS {
        return Ok(NodeOutcome::Open(OpenRoutes {
            routes,
            lower_bound,
        }));
    }
    match search_columns(alloc, prices, routes.as_slice(), task, gap)? {
        Some(chosen) => Ok(NodeOutcome::Solved(chosen)),
        None => Ok(NodeOutcome::Open(OpenRoutes {
            routes,
            lower_bound,
        })),
    }
}

// The lower bound, rounded up to whole units of cost; 0 if it is negative or doesn't fit.
pub(crate) fn whole_lower_bound(prices: &Prices, customers: CustomerSet, trucks: u8) -> u64
    ensures { 0 < result → gap_of prices.now SCALE customers trucks (result - 1) <ℤ pos 0 }
{
    let bound = prices.lower_bound(customers, trucks);
    if bound <= 0 {
        return 0;
    }
    let whole = (bound as u128 - 1) / u128::from(SCALE) + 1;
    u64::try_from(whole).unwrap_or(0)
}

// The gap between the lower bound and the costs below the incumbent's; `None` if it is negative.
pub(crate) fn gap_below(
    prices: &Prices,
    customers: CustomerSet,
    trucks: u8,
    incumbent: u64,
) -> Option<i64>
    requires some { 1 ≤ incumbent }
    requires incumbent { incumbent ≤ 2 ^ 32 }
    ensures none { IfNone result (gap_of prices.now SCALE customers trucks (incumbent - 1) <ℤ pos 0) }
    ensures value { IfSome result (λ gap. gap ≡ gap_of prices.now SCALE customers trucks (incumbent - 1)) }
    ensures some { IfSome result (λ gap. pos 0 ≤ℤ gap) }
{
    let gap = i128::from(SCALE * (incumbent - 1)) - prices.lower_bound(customers, trucks);
    if gap < 0 { None } else { Some(gap as i64) }
}

// The exact cover over the routes as columns; `None` if its budget is spent.
fn search_columns(
    alloc: Global,
    prices: &Prices,
    kept: &[Route],
    task: &Task<'_>,
    gap: i64,
) -> Result<Option<Chosen>, AllocError>
    ensures { IfOk result (λ answer. IfSome answer (IsLeastOf (map (column_of prices.now SCALE) kept.now)
        task.now.customers task.now.fleet.trucks task.now.incumbent (unsigned_abs gap))) }
{
    let columns = columns_of(alloc, prices, kept)?;
    let root = CoverNode {
        unserved: task.customers,
        trucks: task.fleet.trucks,
        incumbent: task.incumbent,
        gap: gap.unsigned_abs(),
    };
    let mut budget = MOST_COVER_NODES;
    let Some(best) = cheapest_cover(alloc, columns.as_slice(), root, &mut budget)? else {
        return Ok(None);
    };
    let routes = routes_of(alloc, best.parts.as_slice())?;
    Ok(Some(Chosen {
        cost: best.cost,
        routes,
    }))
}

// The routes of columns.
fn routes_of(alloc: Global, columns: &[Column]) -> Result<Vec<Route>, AllocError>
    ensures { IfOk result (λ routes. routes.items ≡ map route_of columns.now) }
{
    columns
        .iter()
        .map(|column| Route {
            set: column.set,
            cost: column.cost,
        })
        .collect(alloc)
}

// The routes as columns, with their reduced costs.
fn columns_of(alloc: Global, prices: &Prices, pool: &[Route]) -> Result<Vec<Column>, AllocError>
    ensures { IfOk result (λ columns. columns.items ≡ map (column_of prices.now SCALE) pool.now) }
{
    pool.iter()
        .map(|route| Column {
            set: route.set,
            reduced_cost: prices.reduced_cost(route.set, route.cost).unsigned_abs(),
            cost: route.cost,
        })
        .collect(alloc)
}
