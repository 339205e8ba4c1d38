//! The least route through each customer, and its arcs.
use crate::assertion::assert_same;
use std::alloc::Global;
use std::process::Abort;
use test_fixtures::with_arcs;
use vrp_bound_prices::{LeastRoutes, NearLooks, Size, UsedArc, WHOLE_TOUR, Walks};
use vrp_model::{Instance, NgSets};

// Three customers who demand 1 each; the capacity is 2.
const ARCS: [u64; 16] = [0, 3, 4, 9, 3, 0, 2, 8, 4, 2, 0, 7, 9, 8, 7, 0];

const DEMANDS: &[u64] = &[0, 1, 1, 1];

// The customer, the prices of all places, and the cost and the load of the route. Alone customers cost 6, 8 and 18; two of
// them together 9, 20 and 20, so two cost less for each unit. By the prices of the third row customer 2 costs 2 alone, and 1
// and 2 cost 5.
type Least = (usize, [i64; 4], i64, usize);

const LEAST: &[Least] = &[
    (1, [0, 0, 0, 0], 9, 2),
    (2, [0, 0, 0, 0], 9, 2),
    (3, [0, 0, 0, 0], 20, 2),
    (2, [0, 1, -3, 0], 2, 1),
    (1, [0, 1, -3, 0], 5, 2),
];

#[test]
fn least_routes(rt: HostRuntime) {
    let instance = with_arcs(rt.alloc(), &ARCS, DEMANDS, 2).expect(&rt, "an instance");
    for &least in LEAST {
        for near in 0..3 {
            assert_least(&rt, rt.alloc(), &instance, least, near);
        }
    }
}

fn assert_least(
    rt: &impl Abort,
    alloc: Global,
    instance: &Instance,
    (customer, prices, cost, load): Least,
    near: usize,
) {
    let walks = filled(rt, alloc, instance, &prices, near);
    let mut routes = LeastRoutes::new(alloc, &walks).expect(rt, "memory");
    let route = routes.through(&walks, customer).expect(rt, "a route");
    assert_same(rt, (route.cost, route.load), (cost, load), (customer, near));
    let mut used = Vec::new(alloc);
    walks.list_route(&route, &mut used).expect(rt, "memory");
    assert_used(rt, &used, load);
    assert_same(rt, cost_of(&used, &prices), cost, (customer, near));
}

// A route with this many customers has one arc more, and visits each place once; each arc is used with the part that falls to
// a customer.
fn assert_used(rt: &impl Abort, used: &[UsedArc], load: usize) {
    assert_same(rt, used.len(), load.wrapping_add(1), "ways");
    let part = if load == 1 {
        WHOLE_TOUR
    } else {
        WHOLE_TOUR / 2
    };
    for arc in used {
        assert_same(rt, arc.part, part, arc.to);
        let entries = used.iter().filter(|other| other.to == arc.to).count();
        assert_same(rt, entries, 1, arc.to);
    }
}

// The cost of the arcs with these prices.
fn cost_of(used: &[UsedArc], prices: &[i64]) -> i64 {
    let mut cost = 0i64;
    for arc in used {
        let cell = arc.from.wrapping_mul(4).wrapping_add(arc.to);
        let weight = ARCS.get(cell).copied().unwrap_or(0);
        let weight = i64::try_from(weight).unwrap_or(0);
        let from = prices.get(arc.from).copied().unwrap_or(0);
        let to = prices.get(arc.to).copied().unwrap_or(0);
        cost = cost
            .wrapping_add(weight)
            .wrapping_add(from)
            .wrapping_add(to);
    }
    cost
}

// The tables by these prices, with this many near customers for each place.
fn filled(
    rt: &impl Abort,
    alloc: Global,
    instance: &Instance,
    prices: &[i64],
    near: usize,
) -> Walks {
    assert!(rt; near <= 4);
    let ng_sets = NgSets::nearest(alloc, instance, near).expect(rt, "memory");
    let looks = NearLooks::new(alloc, instance, &ng_sets).expect(rt, "memory");
    let size = Size::in_units(instance, 1);
    let mut walks = Walks::new(alloc, instance, 1, 1, size, looks).expect(rt, "memory");
    walks.enter(prices);
    walks.fill_walks();
    walks
}
