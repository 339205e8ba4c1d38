//! A pool with prices that bound its choices: they are valid, and no reduced cost is negative.
ghost use Rattle.std.specs.Prelude.{◌≡◌, IfOk, IfSome, int_le, length, map};
ghost use Rattle.vrp_partition.specs.Pricing.{IsPriced, MarksWithin};
ghost use Rattle.vrp_partition.specs.Prices.{AllFit};

use crate::bounding::{gap_below, whole_lower_bound};
use crate::guide::Guide;
use crate::pool::{none_negative, reduced_costs};
use crate::prices::{PriceOffer, Prices};
use crate::route::Route;
use crate::task::{Query, Task};
use std::alloc::{AllocError, Global};
use vrp_model::PLACES;

// The number of offers that are tried: the guide's offer, the same with lower duals, and prices of 0.
const MOST_OFFERS: u32 = 3;

/// Prices that bound each choice of a pool, and the reduced costs of its routes, none of which is negative.
#[derive(Drop)]
pub(crate) struct PricedPool {
    pub prices: Prices,
    pub costs: Vec<i64>,
}

/// The marks of a pool by prices: a route that can't be in a choice of the query within the limit is `false`. With them a lower
/// bound on each choice, and the work of the guide.
#[derive(Drop)]
pub(crate) struct PricedMarks {
    pub marks: Vec<bool>,
    pub lower_bound: u64,
    pub work: u64,
}

/// The marks of a pool by the guide's prices. The contract leaves open how many are `false`, and the lower bound, which is only
/// reported.
pub(crate) fn marks_by_prices<P: Guide>(
    alloc: Global,
    guide: &mut P,
    query: &Query<'_>,
    pool: &[Route],
) -> Result<PricedMarks, AllocError>
    requires len { length query.now.fleet.demands.now ≡ PLACES }
    requires fit { AllFit query.now.fleet.demands.now query.now.fleet.capacity pool.now }
    ensures { IfOk result (λ priced. MarksWithin pool.now query.now.customers query.now.fleet.trucks query.now.least_routes query.now.limit priced.marks.items) }
{
    let Query {
        fleet,
        customers,
        least_routes,
        limit,
    } = *query;
    let task = Task {
        fleet,
        customers,
        least_routes,
        incumbent: u64::from(limit) + 1,
    };
    let offer = guide.offer(pool, &task)?;
    let work = offer.work;
    let Some(priced) = valid_prices(alloc, offer, &task, pool)? else {
        let marks = vec![in alloc; true; pool.len()]?;
        return Ok(PricedMarks {
            marks,
            lower_bound: 0,
            work,
        });
    };
    let lower_bound = whole_lower_bound(&priced.prices, customers, fleet.trucks);
    let marks = marks_below(alloc, &priced, query, pool)?;
    Ok(PricedMarks {
        marks,
        lower_bound,
        work,
    })
}

// The marks of a priced pool.
fn marks_below(
    alloc: Global,
    priced: &PricedPool,
    query: &Query<'_>,
    pool: &[Route],
) -> Result<Vec<bool>, AllocError>
    requires priced { IsPriced pool.now query.now.customers query.now.least_routes priced.now }
    ensures { IfOk result (λ marks. MarksWithin pool.now query.now.customers query.now.fleet.trucks query.now.least_routes query.now.limit marks.items) }
{
    let incumbent = u64::from(query.limit) + 1;
    let (customers, trucks) = (query.customers, query.fleet.trucks);
    match gap_below(&priced.prices, customers, trucks, incumbent) {
        Some(gap) => marks_within(alloc, priced.costs.as_slice(), gap),
        None => marks_within(alloc, priced.costs.as_slice(), -1),
    }
}

// Whether each reduced cost is within the gap.
fn marks_within(alloc: Global, costs: &[i64], gap: i64) -> Result<Vec<bool>, AllocError>
    ensures { IfOk result (λ marks. marks.items ≡ map (λ cost. int_le cost gap) costs.now) }
{
    costs.iter().map(|cost| *cost <= gap).collect(alloc)
}

/// The pool with the offered prices; with duals lowered by the least reduced cost if that is negative; with prices of 0 if prices are not
/// admitted. `None` if none of these work; no clause says that this never happens.
pub(crate) fn valid_prices(
    alloc: Global,
    offer: PriceOffer,
    task: &Task<'_>,
    pool: &[Route],
) -> Result<Option<PricedPool>, AllocError>
    requires len { length task.now.fleet.demands.now ≡ PLACES }
    requires fit { AllFit task.now.fleet.demands.now task.now.fleet.capacity pool.now }
    ensures { IfOk result (λ answer. IfSome answer (IsPriced pool.now task.now.customers task.now.least_routes)) }
{
    let Task {
        fleet,
        customers,
        least_routes,
        ..
    } = *task;
    let mut offer = offer;
    for _ in 0..MOST_OFFERS {
        let admitted = Prices::admit(
            offer,
            fleet.demands,
            fleet.capacity,
            customers,
            least_routes,
        );
        let Some(prices) = admitted else {
            offer = PriceOffer::zeros(alloc)?;
            continue;
        };
        let costs = reduced_costs(alloc, &prices, pool)?;
        if none_negative(costs.as_slice()) {
            return Ok(Some(PricedPool { prices, costs }));
        }
        let least = costs.iter().copied().min().unwrap_or(0);
        offer = prices.lowered(least);
    }
    Ok(None)
}
