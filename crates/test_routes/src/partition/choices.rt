//! The cheapest choice by hand, and compared with every choice of random pools, by guides that know nothing.

use crate::assertion::assert_same;
use crate::by_hand::{FOUR, Pair, THREE, pool_of};
use crate::guides::{Among, Answering, HABITS, Habit, Habitual};
use crate::random::{CUSTOMERS, pool, repeated};
use crate::sets::{every_place, set_of};
use crate::slow::{cost_of_choice, least_cost};
use std::alloc::{AllocError, Global};
use std::process::Abort;
use std::thread::Threads;
use test_fixtures::Random;
use vrp_model::{Crew, CustomerSet, FleetView, PLACES};
use vrp_partition::{Chosen, Found, Query, Route, Task, all_fit, cheapest_choice, routes_within};

const MUCH: u64 = 1 << 32;

// A pool, customers, trucks, the incumbent's cost and the least cost.
const BY_HAND: &[(&[Pair], &[u16], u8, u64, u64)] = &[
    (THREE, &[1, 2, 3], 128, MUCH, 22),
    (THREE, &[1, 2, 3], 128, 23, 22),
    (THREE, &[1, 2, 3], 128, 22, 22),
    (THREE, &[1, 2, 3], 128, 0, 0),
    (THREE, &[2, 3], 128, MUCH, 13),
    (THREE, &[], 128, MUCH, 0),
    (THREE, &[1, 2, 3, 4], 128, MUCH, MUCH),
    (FOUR, &[1, 2, 3, 4], 128, MUCH, 9),
    (FOUR, &[1, 2, 3], 128, MUCH, MUCH),
    (&[], &[1], 128, MUCH, MUCH),
    (&[(&[1, 2, 3], 9)], &[1, 2, 3], 1, MUCH, 9),
    (THREE, &[1, 2, 3], 2, MUCH, 22),
    (THREE, &[1, 2, 3], 1, MUCH, 25),
    (THREE, &[1, 2, 3], 0, MUCH, MUCH),
    (THREE, &[], 0, MUCH, 0),
    (FOUR, &[1, 2, 3, 4], 2, MUCH, 9),
    (FOUR, &[1, 2, 3, 4], 1, MUCH, MUCH),
    (&[(&[1], 1), (&[1], 1), (&[2], 1)], &[1, 2], 128, MUCH, 2),
];

#[test]
fn choices_by_hand(rt: HostRuntime) {
    let (rt, alloc) = (&rt, rt.alloc());
    for &(told, customers, trucks, incumbent, cost) in BY_HAND {
        for &habit in HABITS {
            let pool = pool_of(rt, alloc, told);
            let asked = Asked {
                habit,
                capacity: 128,
                trucks,
                customers,
                incumbent,
                budget: 100,
            };
            let found = choice(rt, alloc, asked, &pool);
            let found = found.expect(rt, "a budget that suffices");
            assert_same(rt, found.cost, cost, (customers, incumbent));
            assert_routes(rt, &found, asked);
        }
    }
}

// One route with every place, at the highest cost.
#[test]
fn a_route_with_every_place(rt: HostRuntime) {
    let (rt, alloc) = (&rt, rt.alloc());
    let customers = every_place();
    let mut pool = Vec::new(alloc);
    let route = Route {
        set: set_of(&customers),
        cost: u32::MAX,
    };
    pool.push(route).expect(rt, "memory");
    for &habit in HABITS {
        let asked = Asked {
            habit,
            capacity: 256,
            trucks: u8::MAX,
            customers: &customers,
            incumbent: MUCH,
            budget: 100,
        };
        let found = choice(rt, alloc, asked, &pool).expect(rt, "a budget that suffices");
        assert_same(rt, found.cost, u64::from(u32::MAX), habit);
        assert_routes(rt, &found, asked);
    }
}

// The parameters of a search. Each customer demands 1.
#[derive(Clone, Copy, Debug)]
struct Asked<'a> {
    habit: Habit,
    capacity: u32,
    trucks: u8,
    customers: &'a [u16],
    incumbent: u64,
    budget: u64,
}

// The cheapest choice, if the search ends, with any number of workers.
fn choice<R: Abort + Threads + Sync>(
    rt: &R,
    alloc: Global,
    asked: Asked<'_>,
    pool: &[Route],
) -> Option<Chosen> {
    let one = found_by(rt, alloc, 1, asked, pool);
    for workers in [2, 3, 8] {
        let other = found_by(rt, alloc, workers, asked, pool);
        assert_same(rt, told_of(&other), told_of(&one), workers);
    }
    cheapest(one)
}

// The choice, if the search ended.
fn cheapest(found: Found) -> Option<Chosen> {
    match found {
        Found::Cheapest(chosen) => Some(chosen),
        Found::Unfinished { .. } => None,
    }
}

// The result of this many workers.
fn found_by<R: Abort + Threads + Sync>(
    rt: &R,
    alloc: Global,
    workers: u16,
    asked: Asked<'_>,
    pool: &[Route],
) -> Found {
    let mut budget = asked.budget;
    let found = searched_by(rt, alloc, workers, asked, pool, &mut budget);
    let found = found.expect(rt, "memory");
    assert!(rt;
        told_of(&found).finished || budget == 0,
        "{budget} are left"
    );
    found
}

fn guide(alloc: Global, habit: Habit, seed: u64) -> Habitual {
    Habitual {
        alloc,
        habit,
        among: Among::Pools,
        random: Random(seed),
    }
}

// The outcome of a search by this many workers.
fn searched_by<R: Abort + Threads + Sync>(
    rt: &R,
    alloc: Global,
    workers: u16,
    asked: Asked<'_>,
    pool: &[Route],
    budget: &mut u64,
) -> Result<Found, AllocError> {
    let demands = [1u32; PLACES];
    assert!(rt; all_fit(pool, &demands, asked.capacity));
    assert!(rt; asked.incumbent <= MUCH && workers > 0);
    let guide = guide(alloc, asked.habit, asked.budget);
    let watch = Answering {
        should_continue: asked.habit != Habit::Stopping,
    };
    let crew = Crew {
        rt,
        alloc,
        workers,
        watch: &watch,
    };
    let fleet = FleetView {
        demands: &demands,
        capacity: asked.capacity,
        trucks: asked.trucks,
    };
    let task = Task {
        fleet,
        customers: set_of(asked.customers),
        least_routes: 0,
        incumbent: asked.incumbent,
    };
    let routes = Vec::from_slice(alloc, pool).expect(rt, "memory");
    cheapest_choice(&crew, guide, &task, routes, budget)
}

// The compared part of a result.
#[derive(Clone, Copy, Debug, PartialEq)]
struct Told {
    finished: bool,
    cost: u64,
    routes: usize,
    customers: CustomerSet,
    lower_bound: u64,
}

fn told_of(found: &Found) -> Told {
    let (finished, chosen, lower_bound) = match found {
        Found::Cheapest(chosen) => (true, chosen, chosen.cost),
        Found::Unfinished { best, lower_bound } => (false, best, *lower_bound),
    };
    let customers = chosen
        .routes
        .iter()
        .fold(CustomerSet::empty(), |set, route| set.union(route.set));
    Told {
        finished,
        cost: chosen.cost,
        routes: chosen.routes.len(),
        customers,
        lower_bound,
    }
}

// Below the incumbent the routes are a choice of that cost.
fn assert_routes(rt: &impl Abort, found: &Chosen, asked: Asked<'_>) {
    if found.cost < asked.incumbent {
        let cost = cost_of_choice(&found.routes, set_of(asked.customers), asked.trucks);
        assert_same(rt, cost, Some(found.cost), asked.customers);
    } else {
        assert_same(rt, found.cost, asked.incumbent, asked.customers);
    }
}

// The limits on trucks, in turn.
const TRUCKS: &[u8] = &[128, 3, 2];

// Many ties, since costs are below 4; often no choice at all.
#[test]
fn choices_beside_every_choice(rt: HostRuntime) {
    let (rt, alloc) = (&rt, rt.alloc());
    let mut random = Random(2);
    for round in 0..24u32 {
        let capacity = 3 + round % 2 * 3;
        let (count, costs) = (4 + round % 9, 4 + round % 3 * 50);
        let pool = fitting(rt, alloc, &mut random, count, costs, capacity);
        let trucks = TRUCKS[round as usize % TRUCKS.len()];
        let least = least_cost(rt, &pool, set_of(CUSTOMERS), trucks);
        for &habit in HABITS {
            for incumbent in [MUCH, 40, 3] {
                let asked = Asked {
                    habit,
                    capacity,
                    trucks,
                    customers: CUSTOMERS,
                    incumbent,
                    budget: 1_000,
                };
                let found = choice(rt, alloc, asked, &pool);
                let found = found.expect(rt, "a budget that suffices");
                let wanted = least.unwrap_or(incumbent).min(incumbent);
                assert_same(rt, found.cost, wanted, (round, habit, incumbent));
                assert_routes(rt, &found, asked);
            }
        }
    }
}

// Random routes that a truck can carry.
fn fitting(
    rt: &impl Abort,
    alloc: Global,
    random: &mut Random,
    count: u32,
    costs: u32,
    capacity: u32,
) -> Vec<Route> {
    let mut routes = pool(rt, alloc, random, (count, u32::MAX), costs);
    for route in &mut routes {
        if u32::from(route.set.len()) > capacity {
            let _ = route.set.take_first();
        }
        if u32::from(route.set.len()) > capacity {
            route.set = CustomerSet::only(0);
        }
    }
    routes
}

// More than the cost of any choice of cheap routes.
const DEAR: u64 = 600;

// All customers of random pools, at most three to a truck, if that costs less than costly routes do.
const CHEAP: Asked<'static> = Asked {
    habit: Habit::Zeros,
    capacity: 3,
    trucks: 128,
    customers: CUSTOMERS,
    incumbent: DEAR,
    budget: 1_000,
};

// Each route has so many costlier copies that a node must branch before it is searched.
#[test]
fn pools_that_are_branched_on(rt: HostRuntime) {
    let (rt, alloc) = (&rt, rt.alloc());
    let mut random = Random(3);
    for round in 0..8u32 {
        let base = fitting(rt, alloc, &mut random, 8, 10, 3);
        let least = least_cost(rt, &base, set_of(CUSTOMERS), 128).unwrap_or(DEAR);
        let pool = repeated(rt, alloc, &base, 400, 1);
        for &habit in HABITS {
            let asked = Asked { habit, ..CHEAP };
            let found = choice(rt, alloc, asked, &pool);
            let found = found.expect(rt, "a budget that suffices");
            assert_same(rt, found.cost, least, (round, habit));
            assert_routes(rt, &found, asked);
        }
        for budget in [0, 1, 9] {
            let found = choice(rt, alloc, unfinished(Habit::Idle, budget), &pool);
            assert_same(rt, found.is_some(), false, budget);
        }
        let found = choice(rt, alloc, unfinished(Habit::Stopping, 9), &base);
        assert_same(rt, found.is_some(), false, "it would not go on");
    }
}

// A search that doesn't end, without a known cost.
fn unfinished(habit: Habit, budget: u64) -> Asked<'static> {
    Asked {
        habit,
        incumbent: MUCH,
        budget,
        ..CHEAP
    }
}

// A guide that gets no memory ends a search with that error, with any number of workers.
#[test]
fn memory_refused_to_a_guide(rt: HostRuntime) {
    let (rt, alloc) = (&rt, rt.alloc());
    let pool = pool_of(rt, alloc, FOUR);
    for workers in [1, 2] {
        let asked = Asked {
            habit: Habit::NoMemory,
            capacity: 3,
            trucks: 128,
            customers: &[1, 2, 3, 4],
            incumbent: MUCH,
            budget: 9,
        };
        let mut budget = asked.budget;
        let found = searched_by(rt, alloc, workers, asked, &pool, &mut budget);
        assert_same(rt, found.is_err(), true, workers);
    }
}

// The parameters of marking: the routes that are in a choice within the limit. Each customer demands 1, and the capacity is
// 3.
#[derive(Clone, Copy)]
struct Within {
    habit: Habit,
    trucks: u8,
    limit: u32,
}

// A route is marked if it is in a choice within the limit: a slow program finds the least cost with it.
#[test]
fn routes_within_limits(rt: HostRuntime) {
    let (rt, alloc) = (&rt, rt.alloc());
    let mut random = Random(5);
    for round in 0..24u32 {
        let pool = fitting(rt, alloc, &mut random, 4 + round % 7, 4 + round % 3 * 50, 3);
        let trucks = TRUCKS[round as usize % TRUCKS.len()];
        for &habit in HABITS {
            for limit in [0, 5, 60, u32::MAX] {
                let within = Within {
                    habit,
                    trucks,
                    limit,
                };
                assert_marks(rt, alloc, within, &pool, round);
            }
        }
    }
}

fn assert_marks(rt: &impl Abort, alloc: Global, within: Within, pool: &[Route], round: u32) {
    let mut budget = MUCH;
    let marks = marks(rt, alloc, within, pool, &mut budget);
    assert!(rt; budget < MUCH, "nothing is spent, round {round}");
    assert_same(rt, marks.len(), pool.len(), round);
    let limit = within.limit;
    for (at, route) in pool.iter().enumerate() {
        let least = least_with(rt, alloc, pool, at, within.trucks);
        let marked = marks.get(at).copied().unwrap_or(false);
        let stands = least.is_some_and(|cost| cost <= u64::from(limit));
        assert!(rt;
            marked || !stands,
            "{route:?} within {limit}, round {round}"
        );
    }
}

// Without a budget there are no rounds, and each route is marked.
#[test]
fn no_budget_marks_all(rt: HostRuntime) {
    let (rt, alloc) = (&rt, rt.alloc());
    let pool = fitting(rt, alloc, &mut Random(7), 5, 60, 3);
    let within = Within {
        habit: Habit::Zeros,
        trucks: 128,
        limit: 0,
    };
    let mut budget = 0;
    let marks = marks(rt, alloc, within, &pool, &mut budget);
    assert_same(rt, marks.len(), pool.len(), 0u32);
    assert!(rt; marks.iter().all(|mark| *mark), "a route is not marked");
}

fn marks(
    rt: &impl Abort,
    alloc: Global,
    within: Within,
    pool: &[Route],
    budget: &mut u64,
) -> Vec<bool> {
    let demands = [1u32; PLACES];
    assert!(rt; all_fit(pool, &demands, 3));
    let mut guide = guide(alloc, within.habit, u64::from(within.limit));
    let fleet = FleetView {
        demands: &demands,
        capacity: 3,
        trucks: within.trucks,
    };
    let watch = Answering {
        should_continue: true,
    };
    let query = Query {
        fleet,
        customers: set_of(CUSTOMERS),
        least_routes: 0,
        limit: within.limit,
    };
    let marks = routes_within(alloc, &mut guide, &watch, &query, pool, budget);
    marks.expect(rt, "memory")
}

// The least cost of a choice with the route at this position, if there is one.
fn least_with(
    rt: &impl Abort,
    alloc: Global,
    pool: &[Route],
    at: usize,
    trucks: u8,
) -> Option<u64> {
    let mut others = Vec::from_slice(alloc, pool).expect(rt, "memory");
    assert!(rt; at < others.len(), "no route {at}");
    let route = others.remove(at);
    let left = set_of(CUSTOMERS).difference(route.set);
    let least = least_cost(rt, &others, left, trucks.saturating_sub(1))?;
    Some(least.saturating_add(u64::from(route.cost)))
}
