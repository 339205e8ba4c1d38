//! Narrowing: the routes of a pool that may be in a choice within a limit. Rounds of prices drop more and more of the others.
ghost use Rattle.std.specs.Prelude.{◌≡◌, ◌<◌, ◌≤◌, ◌+◌, ℕ, List, false, true, IfOk, length, map, slice_index_or};
ghost use Rattle.std.specs.List.{Contains};
ghost use Rattle.vrp_partition.specs.Narrowing.{IsNarrowed, route_at};
ghost use Rattle.vrp_partition.specs.Pricing.{MarksWithin, StandsInNone};
ghost use Rattle.vrp_partition.specs.declared.route.Route.{Route};
ghost use Rattle.vrp_partition.specs.Prices.{AllFit};

use crate::guide::Guide;
use crate::priced::marks_by_prices;
use crate::route::Route;
use crate::task::Query;
use std::alloc::{AllocError, Global};
use vrp_model::{News, PLACES, Watch};

// The most rounds.
const MOST_ROUNDS: u32 = 32;

/// Some places of a pool, and the routes there.
#[derive(Drop)]
pub(crate) struct Kept {
    pub places: Vec<usize>,
    pub routes: Vec<Route>,
}

// The routes that a round of prices leaves, a lower bound on each choice, and the work of the guide.
#[derive(Drop)]
struct Round {
    kept: Kept,
    lower_bound: u64,
    work: u64,
}

/// Marks the routes of the pool that may be in a choice within the query's limit; a route that can't be in one is `false`. The guide
/// prices the routes, and then those that are left, as long as it names no customers to branch on and the budget lasts. Each round
/// takes one of the budget, and as much as the guide's own work; the watch hears of each round. The contract leaves open how many routes
/// are `false`, and what is spent. The demands are those of all places, and each route of the pool must fit one truck.
pub fn routes_within<P: Guide, W: Watch>(
    alloc: Global,
    guide: &mut P,
    watch: &W,
    query: &Query<'_>,
    pool: &[Route],
    budget: &mut u64,
) -> Result<Vec<bool>, AllocError>
    requires len { length query.now.fleet.demands.now ≡ PLACES }
    requires fit { AllFit query.now.fleet.demands.now query.now.fleet.capacity pool.now }
    ensures marks { IfOk result (λ marks. MarksWithin pool.now query.now.customers query.now.fleet.trucks query.now.least_routes query.now.limit marks.items) }
    ensures budget { budget.new ≤ budget.old }
{
    let mut kept = all_routes(alloc, pool)?;
    for _ in 0..MOST_ROUNDS {
        if *budget == 0 {
            break;
        }
        let round = narrowed(alloc, guide, query, pool, kept)?;
        *budget = (*budget - 1).saturating_sub(round.work);
        watch.on_news(news_of(&round, query.limit));
        kept = round.kept;
        if !guide.group(kept.routes.as_slice())?.is_empty() || !guide.should_continue() {
            break;
        }
    }
    marks_of(alloc, pool.len(), kept.places.as_slice())
}

// The progress after a round: the first node is still open. No clause pins it.
fn news_of(round: &Round, limit: u32) -> News {
    let incumbent = u64::from(limit) + 1;
    News::Nodes {
        done: 0,
        open: 1,
        incumbent,
        lower_bound: round.lower_bound.min(incumbent),
    }
}

// The routes that may be in such a choice, by prices for them.
fn narrowed<P: Guide>(
    alloc: Global,
    guide: &mut P,
    query: &Query<'_>,
    pool: &[Route],
    kept: Kept,
) -> Result<Round, AllocError>
    requires len { length query.now.fleet.demands.now ≡ PLACES }
    requires fit { AllFit query.now.fleet.demands.now query.now.fleet.capacity pool.now }
    requires narrowed { IsNarrowed pool.now query.now.customers query.now.fleet.trucks query.now.least_routes query.now.limit kept }
    ensures { IfOk result (λ round. IsNarrowed pool.now query.now.customers query.now.fleet.trucks query.now.least_routes query.now.limit round.kept) }
{
    let priced = marks_by_prices(alloc, guide, query, kept.routes.as_slice())?;
    let marks = priced.marks.as_slice();
    let kept = marked(alloc, pool, kept.places.as_slice(), marks)?;
    Ok(Round {
        kept,
        lower_bound: priced.lower_bound,
        work: priced.work,
    })
}

// All routes of the pool.
fn all_routes(alloc: Global, pool: &[Route]) -> Result<Kept, AllocError>
    ensures { IfOk result (λ kept. (customers trucks fewest limit : ℕ) → IsNarrowed pool.now customers trucks fewest limit kept) }
{
    let mut places = Vec::with_capacity(alloc, pool.len())?;
    let mut routes = Vec::with_capacity(alloc, pool.len())?;
    for place in 0..pool.len() {
        places.push(place)?;
        routes.push(pool[place])?;
    }
    Ok(Kept { places, routes })
}

// The marked places, and the routes there.
fn marked(
    alloc: Global,
    pool: &[Route],
    places: &[usize],
    marks: &[bool],
) -> Result<Kept, AllocError>
    requires inside { (at : ℕ) → at < length places.now → slice_index_or places.now at 0 < length pool.now }
    requires long { length marks.now ≡ length places.now }
    ensures { IfOk result (λ kept. (customers trucks fewest limit : ℕ) (routes : List Route)
        → routes ≡ map (route_at pool.now) places.now
        → ((k : ℕ) → k < length pool.now → (Contains places.now k → ⊥) → StandsInNone pool.now customers trucks fewest limit (route_at pool.now k))
        → MarksWithin routes customers trucks fewest limit marks.now
        → IsNarrowed pool.now customers trucks fewest limit kept) }
{
    let mut kept = Vec::new(alloc);
    let mut routes = Vec::new(alloc);
    for at in 0..places.len() {
        if marks[at] {
            kept.push(places[at])?;
            routes.push(pool[places[at]])?;
        }
    }
    Ok(Kept {
        places: kept,
        routes,
    })
}

// Marks these places among this many.
fn marks_of(alloc: Global, count: usize, places: &[usize]) -> Result<Vec<bool>, AllocError>
    requires inside { (at : ℕ) → at < length places.now → slice_index_or places.now at 0 < count }
    ensures { IfOk result (λ marks. (length marks.items ≡ count)
        × ((k : ℕ) → k < count → slice_index_or marks.items k false ≡ false → Contains places.now k → ⊥)) }
{
    let mut marks = vec![in alloc; false; count]?;
    for &place in places {
        marks[place] = true;
    }
    Ok(marks)
}
