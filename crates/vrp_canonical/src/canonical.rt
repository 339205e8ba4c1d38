//! The canonical plan from a complete pool of routes.
ghost use Rattle.std.specs.Prelude.{◌≡◌, ◌+◌, ◌^◌, ◌<◌, ◌≤◌, ℕ, IfOk, IfSome, length, map, min};
ghost use Rattle.vrp_canonical.specs.Ending.{IfBetter, IfBound, IfCanonical};
ghost use Rattle.vrp_canonical.specs.Ordering.{AreOrdered, chosen_of, route_of, stops_of};
ghost use Rattle.vrp_canonical.specs.Reaching.{IsTask};
ghost use Rattle.vrp_canonical.specs.Whole.{IsWhole};
ghost use Rattle.vrp_model.specs.CustomerSet.{set_of};
ghost use Rattle.vrp_model.specs.Fleet.{IsFleet};
ghost use Rattle.vrp_model.specs.declared.customers.customer_set.TheConstants.{PLACES};
ghost use Rattle.vrp_model.specs.Cheapest.{NoneCheaper};
ghost use Rattle.vrp_model.specs.Order.{IsCanonical};
ghost use Rattle.vrp_model.specs.Problem.{IsProblem, Problem, customers, place_count};
ghost use Rattle.vrp_model.specs.Route.{IsPlanOf};
ghost use Rattle.vrp_partition.specs.Branching.{IsFound};
ghost use Rattle.vrp_partition.specs.Choice.{IsCheapest};
ghost use Rattle.vrp_routes.specs.Pool.{IsPool};

use crate::narrowed::Narrowing;
use crate::ordered::{ListedRoute, by_stops, chosen_routes, routes_of, word_at, word_of_choice};
use crate::plan_places::canonical_places;
use crate::residual::Residual;
use crate::searches::{Searches, search_within};
use std::alloc::Global;
use std::thread::Threads;
use vrp_model::{Crew, Fleet, Instance, NoMemory, Plan, Quiet, Watch, all_customers};
use vrp_partition::{Chosen, Found, Guide, Route};
use vrp_routes::RoutePool;
use vrp_search_tree::lawful_plan;

/// The outcome of the search for the canonical plan among listed routes.
#[derive(Debug, Drop)]
pub enum RoutesOutcome {
    /// The canonical plan.
    Canonical(Plan),
    /// The search ended unfinished.
    Unfinished {
        /// The cheapest feasible plan that it found, if it found one within the limit.
        better: Option<Plan>,
        /// No feasible plan costs less; 0 if nothing is known. If the search finds that no plan costs as little as the limit, the
        /// lower bound is one more than the limit.
        lower_bound: u64,
    },
}

/// The canonical plan of an instance, the first one by cost and then symbol by symbol, from a pool that was listed for plans that cost no
/// more than a limit. The pool is narrowed to the routes that may be in a choice within that limit. Then the cheapest choice of these is
/// sought, whose progress the crew's watch hears, and then the routes of the canonical plan, one after another. All searches use forks of
/// the guide, which is not trusted. The search ends unfinished if the budget is spent, the watch stops it, a cost doesn't fit 32 bits, or
/// no plan costs as little as the limit. If it finds that no plan does, the lower bound is one more than the limit. The contract leaves
/// open when the search ends unfinished, how high the lower bound is then, and how much of the budget is spent.
pub fn canonical_plan<R: Threads + Sync, P: Guide + Send, W: Watch + Sync>(
    crew: &Crew<'_, R, W>,
    instance: &Instance,
    pool: &RoutePool,
    limit: u64,
    guide: &P,
    budget: &mut u64,
) -> Result<RoutesOutcome, NoMemory>
    requires few { place_count instance.now ≤ PLACES }
    requires pool { IsPool instance.now limit pool.now }
    ensures canonical { IfOk result (IfCanonical (IsCanonical instance.now)) }
    ensures better { IfOk result (IfBetter (IsPlanOf instance.now)) }
    ensures bound { IfOk result (IfBound (NoneCheaper instance.now)) }
    ensures budget { budget.new ≤ budget.old }
{
    let alloc = crew.alloc;
    let fleet = Fleet::of_instance(alloc, instance)?;
    let Some(routes) = chosen_routes(alloc, pool)? else {
        return unfinished();
    };
    let search = PoolSearch {
        crew,
        instance,
        pool,
        routes: routes.as_slice(),
        fleet: &fleet,
        whole: whole_problem(instance, fleet.trucks, limit),
    };
    // The guide keeps what it learns from the narrowed pool for the searches.
    let mut guide = guide.fork()?;
    let found = plan_of_pool(&search, &mut guide, budget);
    drop(guide);
    drop(routes);
    drop(fleet);
    found
}

/// A search among the routes of a pool: what each of its steps needs.
#[derive(Drop)]
pub(crate) struct PoolSearch<'a, 'b, R, W> {
    pub(crate) crew: &'a Crew<'b, R, W>,
    pub(crate) instance: &'a Instance,
    pub(crate) pool: &'a RoutePool,
    // The pool's routes as a choice sees them.
    pub(crate) routes: &'a [Route],
    pub(crate) fleet: &'a Fleet,
    // All customers, the whole fleet, and the limit for which the pool was listed.
    pub(crate) whole: Residual,
}

// The canonical plan by the cheapest choice among the routes that may be in one within the limit.
fn plan_of_pool<R: Threads + Sync, P: Guide + Send, W: Watch + Sync>(
    search: &PoolSearch<'_, '_, R, W>,
    guide: &mut P,
    budget: &mut u64,
) -> Result<RoutesOutcome, NoMemory>
    requires whole { IsWhole search.now.instance.now search.now.pool.now search.now.routes.now search.now.whole }
    ensures canonical { IfOk result (IfCanonical (IsCanonical search.now.instance.now)) }
    ensures better { IfOk result (IfBetter (IsPlanOf search.now.instance.now)) }
    ensures bound { IfOk result (IfBound (NoneCheaper search.now.instance.now)) }
    ensures budget { budget.new ≤ budget.old }
{
    let alloc = search.crew.alloc;
    let whole = &search.whole;
    let narrowing = narrowing_of(search);
    let most = whole.most;
    let narrowed = narrowing.narrowed_routes(guide, search.pool, search.routes, whole, budget)?;
    let Some(ordered) = narrowed else {
        return unfinished();
    };
    match choice_among(search, guide, ordered.as_slice(), budget)? {
        Some(Found::Cheapest(chosen)) if chosen.cost <= most => {
            plan_of_choice(search, guide, ordered, chosen, budget)
        }
        Some(Found::Unfinished { best, lower_bound }) => {
            drop(ordered);
            best_so_far(search, best, lower_bound)
        }
        Some(Found::Cheapest(_)) => none_within(most),
        None => unfinished(),
    }
}

/// What narrows the routes of a search.
pub(crate) fn narrowing_of<'a, R, W: Watch>(search: &PoolSearch<'a, '_, R, W>) -> Narrowing<'a, W> {
    Narrowing {
        alloc: search.crew.alloc,
        watch: search.crew.watch,
        fleet: search.fleet,
    }
}

// The cheapest choice among these routes within the limit, as far as the search for it comes.
fn choice_among<R: Threads + Sync, P: Guide + Send, W: Watch>(
    search: &PoolSearch<'_, '_, R, W>,
    guide: &P,
    ordered: &[ListedRoute],
    budget: &mut u64,
) -> Result<Option<Found>, NoMemory>
    ensures found { IfOk result (λ answer. IfSome answer (IsFound (map route_of ordered.now) search.now.whole.unserved search.now.whole.trucks 0
        (search.now.whole.most + 1))) }
    ensures budget { budget.new ≤ budget.old }
{
    let routes = routes_of(search.crew.alloc, ordered)?;
    let found = search_within(
        search.crew,
        guide,
        search.fleet,
        routes.as_slice(),
        &search.whole,
        budget,
    );
    drop(routes);
    Ok(found?)
}

// An unfinished outcome: the word of the best choice so far, and the lower bound, which holds up to the limit alone.
fn best_so_far<R, W>(
    search: &PoolSearch<'_, '_, R, W>,
    best: Chosen,
    lower_bound: u64,
) -> Result<RoutesOutcome, NoMemory>
    requires { length search.now.routes.now ≡ length search.now.pool.now }
    ensures canonical { IfOk result (IfCanonical (λ _. ⊥)) }
    ensures better { IfOk result (IfBetter (IsPlanOf search.now.instance.now)) }
    ensures bound { IfOk result (IfBound (λ bound. bound ≡ min lower_bound search.now.whole.most)) }
{
    let alloc = search.crew.alloc;
    // The search found the routes in another order.
    let sorted = by_stops(alloc, search.pool, search.routes, best.routes.as_slice());
    drop(best);
    let sorted = sorted?;
    let word = word_of_choice(alloc, search.pool, search.routes, sorted.as_slice());
    drop(sorted);
    let better = lawful_plan(alloc, search.instance, &word?)?;
    let lower_bound = lower_bound.min(search.whole.most);
    Ok(RoutesOutcome::Unfinished {
        better,
        lower_bound,
    })
}

// The canonical plan, which costs as much as the cheapest choice among these routes.
fn plan_of_choice<R: Threads + Sync, P: Guide + Send, W: Watch + Sync>(
    search: &PoolSearch<'_, '_, R, W>,
    guide: &mut P,
    ordered: Vec<ListedRoute>,
    chosen: Chosen,
    budget: &mut u64,
) -> Result<RoutesOutcome, NoMemory>
    requires whole { IsWhole search.now.instance.now search.now.pool.now search.now.routes.now search.now.whole }
    requires ordered { AreOrdered search.now.instance.now search.now.whole.most ordered.items }
    requires cheapest { IsCheapest (map route_of ordered.items) search.now.whole.unserved search.now.whole.trucks 0 (search.now.whole.most + 1)
        chosen.cost chosen.routes.items }
    requires within { chosen.cost ≤ search.now.whole.most }
    ensures canonical { IfOk result (IfCanonical (IsCanonical search.now.instance.now)) }
    ensures better { IfOk result (IfBetter (IsPlanOf search.now.instance.now)) }
    ensures bound { IfOk result (IfBound (NoneCheaper search.now.instance.now)) }
    ensures budget { budget.new ≤ budget.old }
{
    let most = chosen.cost;
    let whole = Residual {
        most,
        ..search.whole
    };
    let narrowing = narrowing_of(search);
    let left = narrowing.narrowed_again(guide, ordered, &search.whole, &whole, budget)?;
    let plan = match left {
        Some(left) => {
            let known = chosen.routes.as_slice();
            plan_by_pass(search, guide, left, known, &whole, budget)?
        }
        None => None,
    };
    match plan {
        Some(plan) => Ok(RoutesOutcome::Canonical(plan)),
        None => best_so_far(search, chosen, most),
    }
}

// A search that found no plan.
fn unfinished() -> Result<RoutesOutcome, NoMemory>
    ensures better { IfOk result (IfBetter (λ _. ⊥)) }
    ensures canonical { IfOk result (IfCanonical (λ _. ⊥)) }
    ensures bound { IfOk result (IfBound (λ bound. bound ≡ 0)) }
{
    Ok(RoutesOutcome::Unfinished {
        better: None,
        lower_bound: 0,
    })
}

// A search that found that no feasible plan costs as little as the limit.
fn none_within(limit: u64) -> Result<RoutesOutcome, NoMemory>
    requires { limit + 1 < 2 ^ 64 }
    ensures canonical { IfOk result (IfCanonical (λ _. ⊥)) }
    ensures better { IfOk result (IfBetter (λ _. ⊥)) }
    ensures bound { IfOk result (IfBound (λ bound. bound ≡ limit + 1)) }
{
    Ok(RoutesOutcome::Unfinished {
        better: None,
        lower_bound: limit + 1,
    })
}

/// The whole problem: all customers, the whole fleet, and the cost limit.
pub(crate) fn whole_problem(instance: &Instance, trucks: u8, most: u64) -> Residual
    requires few { place_count instance.now ≤ PLACES }
    requires fleet { IsFleet instance.now trucks }
    ensures customers { result.unserved ≡ set_of (customers instance.now) }
    ensures fleet { IsFleet instance.now result.trucks }
    ensures most { result.most ≡ most }
    // What is known of every instance.
    ensures problem { IsProblem instance.now }
{
    Residual {
        unserved: all_customers(instance),
        trucks,
        most,
    }
}

/// The canonical plan, whose routes are among these, by one pass over them. A known choice answers some questions by itself.
pub(crate) fn plan_by_pass<R: Threads + Sync, P: Guide + Send, W: Watch + Sync>(
    search: &PoolSearch<'_, '_, R, W>,
    guide: &P,
    ordered: Vec<ListedRoute>,
    known: &[Route],
    whole: &Residual,
    budget: &mut u64,
) -> Result<Option<Plan>, NoMemory>
    requires task { IsTask search.now.instance.now whole.now.most (map stops_of ordered.items) (map route_of ordered.items) whole.now }
    ensures canonical { IfOk result (λ found. IfSome found (IsCanonical search.now.instance.now)) }
    ensures budget { budget.new ≤ budget.old }
{
    let quiet = Quiet {
        watch: search.crew.watch,
    };
    let crew = search.crew.watched_by(&quiet);
    let known = Vec::from_slice(crew.alloc, known)?;
    let mut searches = Searches::new(&crew, guide, search.fleet, *budget, known);
    let found = plan_among(
        crew.alloc,
        search.instance,
        &mut searches,
        ordered.as_slice(),
        whole,
    );
    // No search gives any budget back; this states it, since the pass is proved for any source of answers.
    *budget = searches.budget.min(*budget);
    found
}

// The canonical plan, whose routes are among these.
fn plan_among<R: Threads + Sync, P: Guide + Send, W: Watch + Sync>(
    alloc: Global,
    instance: &Instance,
    searches: &mut Searches<'_, R, P, W>,
    ordered: &[ListedRoute],
    whole: &Residual,
) -> Result<Option<Plan>, NoMemory>
    requires { IsTask instance.now whole.now.most (map stops_of ordered.now) (map route_of ordered.now) whole.now }
    ensures { IfOk result (λ found. IfSome found (IsCanonical instance.now)) }
{
    let routes = routes_of(alloc, ordered)?;
    let Some(places) = canonical_places(alloc, searches, routes.as_slice(), whole)? else {
        return Ok(None);
    };
    let word = word_at(alloc, ordered, places.as_slice())?;
    let plan = Plan::of_word(alloc, instance, word.as_slice())?;
    Ok(Some(plan))
}
