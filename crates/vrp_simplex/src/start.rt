//! The first program over a pool: its cuts, and the routes that have columns from the start.
use crate::cut::{Cut, CutKind};
use crate::inherited::{Inherited, trucks_for};
use crate::program::RouteProgram;
use crate::row_prices::RowPrices;
use crate::scope::Scope;
use std::alloc::{AllocError, Global};
use vrp_model::{CustomerSet, FleetView};
use vrp_partition::Route;

// The number of routes with which a program begins.
const MOST_FIRST: usize = 4_000;

/// What a first program is made from.
#[derive(Clone, Copy)]
pub(crate) struct Start<'a> {
    pub(crate) scope: Scope,
    pub(crate) pool: &'a [Route],
    // The sets of routes that are likely in the basis, sorted.
    pub(crate) likely: &'a [CustomerSet],
    // The last offer.
    pub(crate) last: Option<&'a Inherited>,
    // The highest cost of a choice that is sought.
    pub(crate) limit: u64,
}

/// A program with the cuts of the last offer, over some routes of a pool that serve only these customers: those with the least reduced
/// costs by the last prices, or a sample, and the likely ones, with which the basis begins.
pub(crate) fn first_program(
    alloc: Global,
    fleet: &FleetView<'_>,
    start: &Start<'_>,
) -> Result<RouteProgram, AllocError> {
    let mut program = empty_program(alloc, fleet, start)?;
    let marks = first_marks(alloc, start.pool, start.last.map(|last| &last.prices))?;
    let mut basis = Vec::new(alloc);
    for (route, &is_first) in start.pool.iter().zip(&marks) {
        let fits = route.set.is_subset(start.scope.customers) && !route.set.is_empty();
        let is_likely = fits && start.likely.binary_search(&route.set).is_ok();
        if fits && is_first || is_likely {
            let name = program.name(route)?;
            program.add_column(name)?;
            if is_likely {
                basis.push(name)?;
            }
        }
    }
    program.linear.begin_with(basis.as_slice())?;
    Ok(program)
}

// A program with the cuts, and without routes. If more routes are asked for than the demand needs, a cut over all customers says so. An
// artificial column costs more than the choice that is sought.
fn empty_program(
    alloc: Global,
    fleet: &FleetView<'_>,
    start: &Start<'_>,
) -> Result<RouteProgram, AllocError> {
    let scope = start.scope;
    let customers = scope.customers;
    let dearest = dearest(start.pool);
    // Several times what a choice can cost, where the limit is no limit.
    let most = dearest.saturating_mul(i64::from(customers.len()).saturating_mul(4));
    let limit = i64::try_from(start.limit).unwrap_or(i64::MAX);
    let penalty = limit.min(most).saturating_add(1);
    let greatest = dearest.max(penalty);
    let mut program = RouteProgram::new(alloc, scope, penalty, greatest)?;
    let least = u32::from(scope.least_routes);
    if least > trucks_for(customers, fleet) {
        let kind = CutKind::Capacity(least);
        program.add_cut(Cut {
            set: customers,
            kind,
        })?;
    }
    if let Some(last) = start.last {
        for cut in &last.cuts(alloc, customers, fleet)? {
            program.add_cut(*cut)?;
        }
    }
    Ok(program)
}

// The highest cost of a route.
fn dearest(pool: &[Route]) -> i64 {
    let mut most = 1;
    for route in pool {
        most = most.max(i64::from(route.cost));
    }
    most
}

// Marks the routes that have columns from the start.
fn first_marks(
    alloc: Global,
    pool: &[Route],
    prices: Option<&RowPrices>,
) -> Result<Vec<bool>, AllocError> {
    let Some(prices) = prices else {
        return sample(alloc, pool.len());
    };
    let mut reduced = Vec::with_capacity(alloc, pool.len())?;
    for route in pool {
        reduced.push(prices.reduced_cost(route, i64::MAX).unwrap_or(i64::MAX))?;
    }
    let most = least_of(alloc, reduced.as_slice(), MOST_FIRST)?;
    let mut marks = Vec::with_capacity(alloc, pool.len())?;
    for &reduced in &reduced {
        marks.push(reduced <= most)?;
    }
    Ok(marks)
}

// Marks every so many places.
fn sample(alloc: Global, count: usize) -> Result<Vec<bool>, AllocError> {
    let every = count / MOST_FIRST + 1;
    let mut marks = Vec::with_capacity(alloc, count)?;
    for place in 0..count {
        marks.push(place % every == 0)?;
    }
    Ok(marks)
}

// The greatest of so many least numbers.
fn least_of(alloc: Global, numbers: &[i64], many: usize) -> Result<i64, AllocError> {
    let mut all = Vec::from_slice(alloc, numbers)?;
    if many < all.len() {
        let (_, mark, _) = all.as_mut_slice().select_nth_unstable(many);
        Ok(*mark)
    } else {
        Ok(i64::MAX)
    }
}
