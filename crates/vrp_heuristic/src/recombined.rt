//! Recombination: the cheapest plan over many routes.
ghost use Rattle.std.specs.Prelude.{◌≡◌, ◌<◌, ◌≤◌, IfOk, length};
ghost use Rattle.vrp_model.specs.Problem.{place_count};
ghost use Rattle.vrp_model.specs.Route.{IsPlanOf};

use std::alloc::Global;
use std::thread::Threads;
use vrp_model::{
    Crew, CustomerSet, Fleet, Instance, MOST_CUSTOMERS, NoMemory, PLACES, Plan, Quiet, Watch,
    all_customers, route_sets,
};
use vrp_partition::{Found, Route, Task, all_fit, cheapest_choice};
use vrp_search_tree::cheaper_plan;
use vrp_simplex::ProgramGuide;

/// The most reduced costs that a recombination looks at: mostly a second at most.
pub(crate) const BUDGET: u64 = 6_000_000;

// The most routes that are handed on.
const MOST_ROUTES: usize = 4_000;

/// A route of a word: its customers, its cost, its first stop, and the position of its stops. Routes are compared by
/// customers and then by cost.
#[derive(Clone, Copy, PartialEq, Eq, PartialOrd, Ord)]
pub(crate) struct GatheredRoute {
    set: CustomerSet,
    cost: u32,
    first: u16,
    start: usize,
    end: usize,
}

/// The plan, or a cheaper one over these routes, as far as a search finds it that looks at no more than so many reduced costs. The routes
/// are not trusted: one that visits a customer twice is left out. The contract leaves open which feasible plan is answered.
pub fn recombined_plan<R: Threads + Sync, W: Watch + Sync>(
    crew: &Crew<'_, R, W>,
    instance: &Instance,
    routes: &[Vec<u16>],
    plan: Plan,
    budget: u64,
) -> Result<Plan, NoMemory>
    requires { IsPlanOf instance.now plan }
    ensures lawful { IfOk result (IsPlanOf instance.now) }
    ensures no_costlier { IfOk result (λ found. found.cost ≤ plan.cost) }
{
    let mut word = Vec::new(crew.alloc);
    for route in routes {
        word.extend_from_slice(route)?;
        word.push(0)?;
    }
    let listed = distinct_routes(crew.alloc, instance, &word)?;
    recombined(crew, instance, &word, &listed, plan, budget)
}

/// The plan, or a cheaper one over listed routes of a word: the stops of each route, followed by 0. They are not trusted.
pub(crate) fn recombined<R: Threads + Sync, W: Watch + Sync>(
    crew: &Crew<'_, R, W>,
    instance: &Instance,
    gathered: &[u16],
    listed: &[GatheredRoute],
    plan: Plan,
    budget: u64,
) -> Result<Plan, NoMemory>
    requires { IsPlanOf instance.now plan }
    ensures lawful { IfOk result (IsPlanOf instance.now) }
    ensures no_costlier { IfOk result (λ found. found.cost ≤ plan.cost) }
{
    if listed.is_empty() || instance.customers() > MOST_CUSTOMERS {
        return Ok(plan);
    }
    let chosen = chosen_routes(crew, instance, listed, &plan, budget)?;
    let word = word_of(crew.alloc, gathered, listed, chosen.as_slice())?;
    cheaper_plan(crew.alloc, instance, &word, plan)
}

/// The stops of listed routes of a word: of all of them, or of every second one, or third, if there are many.
pub(crate) fn some_routes(
    alloc: Global,
    gathered: &[u16],
    listed: &[GatheredRoute],
) -> Result<Vec<Vec<u16>>, NoMemory> {
    let mut routes = Vec::new(alloc);
    let stride = listed.len() / MOST_ROUTES + 1;
    for (index, route) in listed.iter().enumerate() {
        if index % stride == 0 && route.start <= route.end && route.end <= gathered.len() {
            let stops = Vec::from_slice(alloc, &gathered[route.start..route.end])?;
            routes.push(stops)?;
        }
    }
    Ok(routes)
}

/// The routes of a word by their customers; among those with the same customers the cheapest.
pub(crate) fn distinct_routes(
    alloc: Global,
    instance: &Instance,
    word: &[u16],
) -> Result<Vec<GatheredRoute>, NoMemory> {
    let mut listed = listed_routes(alloc, instance, word)?;
    listed.sort_unstable();
    listed.dedup_by_key(|route| route.set);
    Ok(listed)
}

// The routes of a word that visit no customer twice, in its order.
fn listed_routes(
    alloc: Global,
    instance: &Instance,
    word: &[u16],
) -> Result<Vec<GatheredRoute>, NoMemory> {
    let mut listed = Vec::new(alloc);
    let mut start = 0;
    for end in 0..word.len() {
        if word[end] == 0 {
            let route = route_between(instance, word, start, end);
            if start < end && usize::from(route.set.len()) == end - start {
                listed.push(route)?;
            }
            start = end + 1;
        }
    }
    Ok(listed)
}

// The route whose stops are between two positions of a word.
fn route_between(instance: &Instance, word: &[u16], start: usize, end: usize) -> GatheredRoute
    requires start { start ≤ end }
    requires end { end ≤ length word.now }
{
    let customers = instance.customers();
    let mut set = CustomerSet::empty();
    let mut cost: u64 = 0;
    let mut last = 0;
    for index in start..end {
        let place = word[index].min(customers);
        if usize::from(place) < PLACES {
            set = set.with(place);
        }
        cost = cost.saturating_add(instance.weight(last, place));
        last = place;
    }
    cost = cost.saturating_add(instance.weight(last, 0));
    GatheredRoute {
        set,
        cost: u32::try_from(cost).unwrap_or(u32::MAX),
        first: word.get(start).copied().unwrap_or(0),
        start,
        end,
    }
}

// The cheapest choice of routes that costs less than a plan, as far as the search got. If none was found, the routes are no choice.
fn chosen_routes<R: Threads + Sync, W: Watch + Sync>(
    crew: &Crew<'_, R, W>,
    instance: &Instance,
    listed: &[GatheredRoute],
    plan: &Plan,
    budget: u64,
) -> Result<Vec<Route>, NoMemory>
    requires { place_count instance.now ≤ PLACES }
{
    let alloc = crew.alloc;
    let pool = pool_of(alloc, listed)?;
    let fleet = Fleet::of_instance(alloc, instance)?;
    let cost = u32::try_from(plan.cost()).unwrap_or(0);
    if cost == 0 || !all_fit(pool.as_slice(), &fleet.demands, fleet.capacity) {
        return Ok(Vec::new(alloc));
    }
    // The lower bounds of this choice hold among these routes alone, so nobody hears of them.
    let quiet = Quiet { watch: crew.watch };
    let guide = ProgramGuide::new(alloc, fleet.lent(), route_sets(alloc, plan)?, &quiet);
    let task = Task {
        fleet: fleet.lent(),
        customers: all_customers(instance),
        least_routes: 0,
        incumbent: u64::from(cost),
    };
    let mut budget = budget;
    match cheapest_choice(&crew.watched_by(&quiet), guide, &task, pool, &mut budget)? {
        Found::Cheapest(chosen) => Ok(chosen.routes),
        Found::Unfinished { best, .. } => Ok(best.routes),
    }
}

// The routes as a choice sees them.
fn pool_of(alloc: Global, listed: &[GatheredRoute]) -> Result<Vec<Route>, NoMemory> {
    let mut pool = Vec::with_capacity(alloc, listed.len())?;
    for route in listed {
        pool.push(Route {
            set: route.set,
            cost: route.cost,
        })?;
    }
    Ok(pool)
}

// The word of chosen routes by rising first stop, as far as they are listed.
fn word_of(
    alloc: Global,
    gathered: &[u16],
    listed: &[GatheredRoute],
    chosen: &[Route],
) -> Result<Vec<u16>, NoMemory> {
    let mut found = Vec::with_capacity(alloc, chosen.len())?;
    for route in chosen {
        if let Some(one) = listed.iter().find(|one| one.set == route.set) {
            found.push(*one)?;
        }
    }
    found.sort_unstable_by_key(|one| one.first);
    word_between(alloc, gathered, found.as_slice())
}

// The stops of routes of a word, each followed by 0.
fn word_between(
    alloc: Global,
    gathered: &[u16],
    routes: &[GatheredRoute],
) -> Result<Vec<u16>, NoMemory> {
    let mut word = Vec::new(alloc);
    for route in routes {
        if route.start <= route.end && route.end <= gathered.len() {
            word.extend_from_slice(&gathered[route.start..route.end])?;
            word.push(0)?;
        }
    }
    Ok(word)
}
