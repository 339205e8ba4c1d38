//! Pools of small instances by hand, and limits that are met.

use crate::assertion::assert_same;
use crate::passes::{Setup, pool_by_pass};
use crate::routes::listed::{all_routes, listed};
use crate::sets::set_of;
use std::alloc::Global;
use std::process::Abort;
use std::thread::Threads;
use test_fixtures::{FOUR, LINE, at_points, with_arcs};
use vrp_model::{CustomerSet, Instance};
use vrp_routes::{Limit, Listed, RoutePool, can_list};

// A route: its customers, its load and its cost.
type Told<'a> = (&'a [u16], u64, u64);

// A price of 10 for each of two customers.
const TENS: Setup<'_> = Setup {
    scale: 10,
    prices: &[0, 100, 100],
    near: 2,
    workers: 1,
};

// The plan of one route costs 20, and so much are both prices together. Of the labels 1, 2, 12 and 21 the last can't be closed, since it
// runs backward. At 19 no label is left; at 20 a tour to customer 2 and another to customer 1 is too costly.
const ON_A_LINE: &[(u64, usize, &[Told<'_>])] = &[
    (19, 0, &[]),
    (20, 4, &[(&[1], 1, 10), (&[1, 2], 2, 20)]),
    (1_000, 4, &[(&[1], 1, 10), (&[2], 1, 20), (&[1, 2], 2, 20)]),
];

#[test]
fn three_nodes(rt: HostRuntime) {
    let instance = at_points(rt.alloc(), LINE, &[0, 1, 1], 2).expect(&rt, "an instance");
    for &(limit, labels, routes) in ON_A_LINE {
        let pool = pool_by_pass(&rt, rt.alloc(), &instance, TENS, limit);
        assert_pool(&rt, rt.alloc(), &pool, labels, routes);
    }
}

// Three labels of one customer, six of two; all three don't fit on a truck.
const IN_A_PLANE: &[Told<'_>] = &[
    (&[1], 1, 10),
    (&[2], 2, 20),
    (&[3], 1, 26),
    (&[1, 2], 3, 20),
    (&[1, 3], 2, 34),
    (&[2, 3], 3, 43),
];

#[test]
fn four_nodes(rt: HostRuntime) {
    let instance = at_points(rt.alloc(), FOUR, &[0, 1, 2, 1], 3).expect(&rt, "an instance");
    let pool = all_routes(&rt, rt.alloc(), &instance, 1);
    assert_pool(&rt, rt.alloc(), &pool, 9, IN_A_PLANE);
}

const LEVEL: &[u64] = &[0, 1, 1, 1, 1, 0, 1, 1, 1, 1, 0, 1, 1, 1, 1, 0];

const ONE_DIRECTION: &[u64] = &[0, 3, 9, 4, 8, 0, 2, 7, 5, 6, 0, 1, 9, 3, 8, 0];

// Three labels of one customer, six of two, and of three customers one for each last customer: of two the earlier. With
// asymmetric arcs the cheapest round is by 3, 1 and then 2, at 14.
const ROUNDS: &[(&[u64], &[Told<'_>])] = &[
    (
        LEVEL,
        &[
            (&[1], 1, 2),
            (&[2], 1, 2),
            (&[3], 1, 2),
            (&[1, 2], 2, 3),
            (&[1, 3], 2, 3),
            (&[2, 3], 2, 3),
            (&[1, 2, 3], 3, 4),
        ],
    ),
    (
        ONE_DIRECTION,
        &[
            (&[1], 1, 11),
            (&[2], 1, 14),
            (&[3], 1, 13),
            (&[1, 2], 2, 10),
            (&[3, 1], 2, 15),
            (&[3, 2], 2, 17),
            (&[3, 1, 2], 3, 14),
        ],
    ),
];

#[test]
fn rounds_of_three(rt: HostRuntime) {
    for &(arcs, routes) in ROUNDS {
        let instance = with_arcs(rt.alloc(), arcs, &[0, 1, 1, 1], 3).expect(&rt, "an instance");
        let pool = all_routes(&rt, rt.alloc(), &instance, 1);
        assert_pool(&rt, rt.alloc(), &pool, 12, routes);
    }
}

fn assert_pool(
    rt: &impl Abort,
    alloc: Global,
    pool: &RoutePool,
    labels: usize,
    routes: &[Told<'_>],
) {
    assert_same(rt, pool.labels(), labels, "labels");
    assert_same(rt, pool.len(), routes.len(), "routes");
    assert_same(rt, pool.is_empty(), routes.is_empty(), "no routes");
    for &(stops, load, cost) in routes {
        let set = set_of(stops);
        let at = place_of(pool, set);
        assert!(rt; at < pool.len(), "no route of {stops:?}");
        let found = pool.stops(alloc, at).expect(rt, "memory");
        assert!(rt; found.as_slice() == stops, "{found:?} at {at}");
        let told = (pool.set(at), pool.load(at), pool.cost(at));
        assert_same(rt, told, (set, load, cost), at);
    }
}

// The position of the first route with this set; the end if there is none.
fn place_of(pool: &RoutePool, set: CustomerSet) -> usize {
    for at in 0..pool.len() {
        if pool.set(at) == set {
            return at;
        }
    }
    pool.len()
}

// The greatest number of labels, including the empty one, the number of labels that stops the list, and the limit that is
// met. There are five labels, three of them with fewer than two customers.
const LIMITS: &[(u32, u64, Option<Limit>)] = &[
    (5, u64::MAX, None),
    (4, u64::MAX, Some(Limit::Labels)),
    (2, u64::MAX, Some(Limit::Labels)),
    (0, u64::MAX, Some(Limit::Labels)),
    (5, 6, None),
    (5, 5, Some(Limit::Stopped)),
    (5, 3, Some(Limit::Stopped)),
    (5, 0, Some(Limit::Stopped)),
    (0, 0, Some(Limit::Stopped)),
];

#[test]
fn limits_that_are_met(rt: HostRuntime) {
    let (rt, alloc) = (&rt, rt.alloc());
    let instance = at_points(alloc, LINE, &[0, 1, 1], 2).expect(rt, "an instance");
    for &(most, enough, wanted) in LIMITS {
        let met = match listed(rt, alloc, &instance, 2, most, enough) {
            Listed::Pool(_) => None,
            Listed::Met(limit) => Some(limit),
        };
        assert_same(rt, met, wanted, (most, enough));
    }
}

// Points of eleven customers; some arcs have the same length.
const ELEVEN: &[(i64, i64)] = &[
    (0, 0),
    (3, 4),
    (-3, 4),
    (6, 8),
    (-6, 8),
    (5, -12),
    (-5, -12),
    (9, 0),
    (-9, 0),
    (0, 7),
    (0, -7),
    (12, 5),
];

// With any number of workers the pool is the same: as many labels, and the same routes at the same positions. So it is if all routes are
// listed, and if those are that prices leave: each customer's own is one.
#[test]
fn pools_of_several_workers(rt: HostRuntime) {
    let (rt, alloc) = (&rt, rt.alloc());
    let demands = [0, 2, 1, 3, 2, 1, 1, 2, 3, 1, 2, 1];
    let instance = at_points(alloc, ELEVEN, &demands, 7).expect(rt, "an instance");
    let alone = Setup {
        scale: 10,
        prices: &[0, 30, 20, 50, 10, 70, 60, 40, 45, 25, 35, 55],
        near: 2,
        workers: 1,
    };
    let all = all_routes(rt, alloc, &instance, 1);
    assert!(rt; all.labels() > 500);
    let priced = pool_by_pass(rt, alloc, &instance, alone, 120);
    assert!(rt; priced.len() >= 11);
    for workers in [2, 3, 8, 11, 40] {
        let together = Setup { workers, ..alone };
        assert_same_pools(rt, alloc, &all_routes(rt, alloc, &instance, workers), &all);
        let by_all = pool_by_pass(rt, alloc, &instance, together, 120);
        assert_same_pools(rt, alloc, &by_all, &priced);
    }
}

fn assert_same_pools(rt: &impl Abort, alloc: Global, pool: &RoutePool, other: &RoutePool) {
    assert!(rt; pool.labels() == other.labels() && pool.len() == other.len());
    for at in 0..pool.len() {
        assert_same(rt, pool.set(at), other.set(at), at);
        assert_same(rt, pool.load(at), other.load(at), at);
        assert_same(rt, pool.cost(at), other.cost(at), at);
        let stops = pool.stops(alloc, at).expect(rt, "memory");
        let others = other.stops(alloc, at).expect(rt, "memory");
        assert!(rt; stops.as_slice() == others.as_slice(), "at {at}");
    }
}

// A set can have 255 customers, and no more. The capacity is one customer.
#[test]
fn customers_at_the_limit(rt: HostRuntime) {
    let (rt, alloc) = (&rt, rt.alloc());
    let last = in_a_row(rt, alloc, 256);
    assert_same(rt, can_list(&last), true, "255 customers");
    let more = in_a_row(rt, alloc, 257);
    assert_same(rt, can_list(&more), false, "256 customers");
    let pool = all_routes(rt, alloc, &last, 1);
    assert!(rt; pool.len() == 255);
    let at = place_of(&pool, set_of(&[255]));
    assert!(rt; at < 255, "no route of the last customer");
    assert_same(rt, pool.cost(at), 510, "the last customer's cost");
    let stops = pool.stops(alloc, at).expect(rt, "memory");
    assert!(rt; stops.as_slice() == [255].as_slice());
}

// This many places on a line, 1 apart, each customer with a demand of 1.
fn in_a_row(rt: &impl Abort, alloc: Global, places: u16) -> Instance {
    let mut points = Vec::new(alloc);
    let mut demands = Vec::new(alloc);
    for place in 0..places {
        points.push((i64::from(place), 0)).expect(rt, "memory");
        demands.push(u64::from(place.min(1))).expect(rt, "memory");
    }
    at_points(alloc, &points, &demands, 1).expect(rt, "an instance")
}
