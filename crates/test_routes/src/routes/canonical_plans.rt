//! The routes of a canonical plan are in each pool with a limit of at least its cost, and each route of a pool is feasible.

use crate::assertion::assert_same;
use crate::five_places::{DEMANDS, LEVEL, ONE_DIRECTION};
use crate::passes::{Setup, pool_by_pass};
use std::alloc::Global;
use std::process::Abort;
use std::thread::Threads;
use test_fixtures::{Canonical, FIVE, SQUARE, at_points, canonical_plan, with_arcs};
use vrp_model::{CustomerSet, Instance, MOST_CUSTOMERS};
use vrp_routes::RoutePool;

const SETUPS: &[Setup<'_>] = &[
    Setup {
        scale: 1,
        prices: &[0, 0, 0, 0, 0],
        near: 0,
        workers: 1,
    },
    Setup {
        scale: 10,
        prices: &[0, 12, -5, 3, 8],
        near: 2,
        workers: 2,
    },
    Setup {
        scale: 10,
        prices: &[0, 0, 0, 0, 0],
        near: 3,
        workers: 3,
    },
    Setup {
        scale: 100,
        prices: &[0, 900, 1_300, 2_000, 1_100],
        near: 1,
        workers: 1,
    },
    Setup {
        scale: 100,
        prices: &[0, 100, 200, 300, -50],
        near: 3,
        workers: 2,
    },
    Setup {
        scale: 1_000,
        prices: &[0, 900, 400, -100, 5],
        near: 2,
        workers: 4,
    },
];

#[test]
fn canonical_plans_are_in_pools(rt: HostRuntime) {
    let mut pools = 0u64;
    for (demands, capacity) in DEMANDS {
        let instance = at_points(rt.alloc(), FIVE, demands, *capacity).expect(&rt, "an instance");
        pools = pools.saturating_add(pools_of(&rt, rt.alloc(), &instance));
        let instance = at_points(rt.alloc(), SQUARE, demands, *capacity).expect(&rt, "an instance");
        pools = pools.saturating_add(pools_of(&rt, rt.alloc(), &instance));
        let instance = with_arcs(rt.alloc(), LEVEL, demands, *capacity).expect(&rt, "an instance");
        pools = pools.saturating_add(pools_of(&rt, rt.alloc(), &instance));
        let instance = with_arcs(rt.alloc(), ONE_DIRECTION, demands, *capacity).expect(
            &rt,
            "an instance",
        );
        pools = pools.saturating_add(pools_of(&rt, rt.alloc(), &instance));
        let few = instance.with_trucks(2);
        pools = pools.saturating_add(pools_of(&rt, rt.alloc(), &few));
    }
    // With any number of trucks each of 24 instances has a plan, which is within three of the limits, for each of six prices.
    assert!(rt; pools >= 24 * 3 * 6);
}

// The capacity is so large that labels count demands in units of 6, and no demand is a multiple of 6.
#[test]
fn demands_in_large_units(rt: HostRuntime) {
    let demands = [0, 7_001, 9_002, 1_003, 3_004];
    let instance = at_points(rt.alloc(), FIVE, &demands, 10_007).expect(&rt, "an instance");
    assert_same(&rt, pools_of(&rt, rt.alloc(), &instance), 3 * 6, "pools");
}

// Pools for all prices, with limits at the canonical plan's cost, above it and below it; the number of those that have to have its routes.
fn pools_of<R: Abort + Threads + Sync>(rt: &R, alloc: Global, instance: &Instance) -> u64 {
    let canonical = canonical_plan(alloc, instance).expect(rt, "memory");
    let cost = canonical
        .as_ref()
        .map_or(30, |plan| plan.cost.min(1_000_000));
    let mut pools = 0u64;
    for setup in SETUPS {
        for limit in [cost.saturating_sub(1), cost, cost + 1, cost + 20] {
            let pool = pool_by_pass(rt, alloc, instance, *setup, limit);
            assert_are_routes(rt, alloc, instance, &pool);
            if let Some(canonical) = canonical.as_ref().filter(|plan| plan.cost <= limit) {
                assert_canonical_is_there(rt, alloc, canonical, &pool);
                pools = pools.saturating_add(1);
            }
        }
    }
    pools
}

// Each route of a pool is feasible with its stated data; no two have the same customers.
fn assert_are_routes(rt: &impl Abort, alloc: Global, instance: &Instance, pool: &RoutePool) {
    for at in 0..pool.len() {
        let stops = pool.stops(alloc, at).expect(rt, "memory");
        assert_is_route(
            rt,
            instance,
            &stops,
            (pool.set(at), pool.load(at), pool.cost(at)),
        );
        for other in 0..at {
            assert!(rt; pool.set(other) != pool.set(at));
        }
    }
}

fn assert_is_route(
    rt: &impl Abort,
    instance: &Instance,
    stops: &[u16],
    told: (CustomerSet, u64, u64),
) {
    let last = instance.customers();
    let mut set = CustomerSet::empty();
    let (mut load, mut cost, mut at) = (0u64, 0u64, 0u16);
    for &stop in stops {
        assert!(rt; 1 <= stop && stop <= last && stop <= MOST_CUSTOMERS && !set.contains(stop));
        set = set.with(stop);
        load = load.saturating_add(instance.demand(stop));
        cost = cost.saturating_add(instance.weight(at.min(last), stop));
        at = stop;
    }
    cost = cost.saturating_add(instance.weight(at.min(last), 0));
    assert!(rt; !stops.is_empty() && load <= instance.capacity());
    assert_same(rt, told, (set, load, cost), "a route");
}

// Each route of the canonical plan is in the pool.
fn assert_canonical_is_there(
    rt: &impl Abort,
    alloc: Global,
    canonical: &Canonical,
    pool: &RoutePool,
) {
    for route in canonical.word.split(|symbol| *symbol == 0) {
        if !route.is_empty() {
            assert_same(rt, has_route(rt, alloc, pool, route), true, "a first plan");
        }
    }
}

fn has_route(rt: &impl Abort, alloc: Global, pool: &RoutePool, route: &[u16]) -> bool {
    for at in 0..pool.len() {
        let stops = pool.stops(alloc, at).expect(rt, "memory");
        if stops.as_slice() == route {
            return true;
        }
    }
    false
}
