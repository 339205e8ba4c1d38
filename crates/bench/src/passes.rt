//! Passes by random dual prices over small random instances, compared with a plain slow program that tries every plan. The words are
//! SEED COUNT. Half of the instances are branched on the number of routes. Each pool must have every route of the canonical plan, if that is within the limit, and no lower bound may be above it.
mod random_instance;
mod random_prices;

use self::random_instance::{random_instance, random_sets};
use self::random_prices::random_prices;
use crate::passed::pass_over;
use anyhow::{Context, Result, bail, ensure};
use std::alloc::Global;
use std::thread::Threads;
use test_fixtures::{Canonical, Random, canonical_plan};
use vrp_model::{Crew, Instance, NO_COST, PLACES, Unhurried};
use vrp_priced_routes::{AliveArcs, Pass};
use vrp_routes::{Leaves, Listed, PlanRange, RoutePool};

// More labels than lists of small instances have.
const MOST_LISTED: u32 = 1_000_000;

// What was seen over all instances.
#[derive(Clone, Copy, Debug, Default)]
struct Seen {
    instances: u64,
    // Plans are within the limit.
    plans: u64,
    // The lower bound is above the limit.
    empty: u64,
    routes: u64,
}

/// Compares so many random instances, and prints how many there were. An error names the first one that is wrong.
pub(crate) fn run<R: Print + AllocGlobal + Threads + Sync>(rt: &R, words: &[&str]) -> Result<()> {
    let [seed, count] = words else {
        bail!("the words of passes are SEED COUNT");
    };
    let mut random = Random(seed.parse::<u64>()?);
    let mut seen = Seen::default();
    for number in 0..count.parse::<u64>()? {
        compare(rt, &mut random, &mut seen).with_context(|| number)?;
    }
    let Seen {
        instances,
        plans,
        empty,
        routes,
    } = seen;
    println!(rt;
        "{instances} instances, {plans} plans within the limit, {empty} empty pools, {routes} routes"
    )?;
    Ok(())
}

// Compares one random instance.
fn compare<R: AllocGlobal + Threads + Sync>(
    rt: &R,
    random: &mut Random,
    seen: &mut Seen,
) -> Result<()> {
    let alloc = rt.alloc();
    let instance = random_instance(alloc, random)?;
    let canonical = canonical_plan(alloc, &instance)?;
    let limit = limit_for(random, &canonical);
    let (pool, bound) = pool_of(rt, random, &instance, limit)?;
    seen.instances = seen.instances.saturating_add(1);
    seen.routes = seen.routes.saturating_add(pool.len() as u64);
    if bound > limit {
        seen.empty = seen.empty.saturating_add(1);
        ensure!(pool.is_empty(), "routes, though the bound is {bound}");
    }
    if let Some(plan) = canonical {
        if plan.cost <= limit {
            seen.plans = seen.plans.saturating_add(1);
            ensure!(bound <= plan.cost, "the bound {bound} is above {plan:?}");
            check_routes(alloc, &pool, &plan.word)?;
        }
    }
    Ok(())
}

// The cost of the canonical plan, somewhat more, or 1 less; anything if no plan is feasible.
fn limit_for(random: &mut Random, canonical: &Option<Canonical>) -> u64 {
    let cost = match canonical {
        Some(plan) => plan.cost,
        None => 100,
    };
    match random.next() % 4 {
        0 => cost.saturating_sub(1),
        1 => cost,
        _ => cost.saturating_add(cost.saturating_mul(u64::from(random.next() % 20)) / 100),
    }
}

// The pool after passes by random prices, and the lower bound: of all plans, or of two leaves, plans with few routes and plans with more.
fn pool_of<R: AllocGlobal + Threads + Sync>(
    rt: &R,
    random: &mut Random,
    instance: &Instance,
    limit: u64,
) -> Result<(RoutePool, u64)> {
    ensure!(
        usize::from(instance.customers()) < PLACES && limit <= NO_COST,
        "too large"
    );
    let alloc = rt.alloc();
    let crew = Crew {
        rt,
        alloc,
        workers: (random.next() % 2 + 1) as u16,
        watch: &Unhurried,
    };
    let all = AliveArcs::all(alloc, instance, limit)?;
    if random.next() % 2 == 0 {
        return pool_along(&crew, random, &all);
    }
    let Leaves { few, many } = PlanRange::within(limit).split((random.next() % 4) as u16);
    let (mut pool, bound) = pool_along(&crew, random, &all.part(alloc, few)?)?;
    let (other, other_bound) = pool_along(&crew, random, &all.part(alloc, many)?)?;
    ensure!(pool.add(alloc, &other)?, "there are too many routes");
    Ok((pool, bound.min(other_bound)))
}

// The pool after two passes along arcs by different prices, and the lower bound of the second.
fn pool_along<R: Threads + Sync>(
    crew: &Crew<'_, R, Unhurried>,
    random: &mut Random,
    all: &AliveArcs<'_>,
) -> Result<(RoutePool, u64)> {
    let (alloc, instance, range) = (crew.alloc, all.instance(), all.range());
    let first = random_prices(alloc, random, instance, range)?;
    let second = random_prices(alloc, random, instance, range)?;
    let near = random_sets(alloc, random, instance)?;
    let guess = u64::from(random.next() % 50);
    let Pass { arcs, labels: _ } = pass_over(crew, all, &first, &near, guess)?;
    let Pass { arcs: _, labels } = pass_over(crew, &arcs, &second, &near, 0)?;
    let bound = labels.lower_bound();
    match labels.list_routes(crew, MOST_LISTED)? {
        Listed::Pool(pool) => Ok((pool, bound)),
        Listed::Met(limit) => bail!("{limit:?}"),
    }
}

// Whether each route of a word, which ends with the depot's 0, is in the pool.
fn check_routes(alloc: Global, pool: &RoutePool, word: &[u16]) -> Result<()> {
    for route in word.split(|symbol| *symbol == 0) {
        if !route.is_empty() {
            ensure!(has_route(alloc, pool, route)?, "the pool lacks {route:?}");
        }
    }
    Ok(())
}

// Whether a pool has a route with these stops in this order.
fn has_route(alloc: Global, pool: &RoutePool, route: &[u16]) -> Result<bool> {
    for at in 0..pool.len() {
        if pool.stops(alloc, at)?.as_slice() == route {
            return Ok(true);
        }
    }
    Ok(false)
}
