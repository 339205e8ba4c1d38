//! Prices that bound the plans of many customers.
ghost use Rattle.std.specs.Prelude.{◌≡◌};
ghost use Rattle.vrp_model.specs.Problem.{place_count};

use crate::assertion::assert_same;
use std::alloc::Global;
use std::process::Abort;
use test_fixtures::{at_points, with_arcs};
use vrp_bound_prices::{FoundPrices, find_prices};
use vrp_model::{Instance, Unhurried};

// Customers around the depot, four to a truck. `radial` is half the cost of driving to each of them and back: each plan costs
// at least as much, since a route that serves a customer costs no less than there and back. `savings` is the cost of a plan
// by savings. Both are from a program outside.
#[derive(Clone, Copy)]
struct Many {
    customers: usize,
    steps: u64,
    radial: u64,
    savings: u64,
}

const THREE_HUNDRED_NODES: Many = Many {
    customers: 299,
    steps: 20_000_000,
    radial: 11_433,
    savings: 13_362,
};

const THOUSAND_NODES: Many = Many {
    customers: 999,
    steps: 110_000_000,
    radial: 38_197,
    savings: 41_761,
};

#[test]
fn three_hundred_nodes(rt: HostRuntime) {
    assert_many(&rt, rt.alloc(), THREE_HUNDRED_NODES);
}

#[test]
fn thousand_nodes(rt: HostRuntime) {
    assert_many(&rt, rt.alloc(), THOUSAND_NODES);
}

fn assert_many(rt: &impl Abort, alloc: Global, many: Many) {
    let instance = scattered(rt, alloc, many.customers);
    let found = prices_of(rt, alloc, &instance, many.savings, many.steps);
    assert_bounds(rt, alloc, found, many.radial, many.savings);
}

// Customers who demand 1 each.
fn scattered(rt: &impl Abort, alloc: Global, customers: usize) -> Instance {
    let mut points = vec![in alloc; (0, 0); 1].expect(rt, "memory");
    let mut demands = vec![in alloc; 0; 1].expect(rt, "memory");
    let mut place = 0i64;
    for _ in 0..customers {
        place = place.wrapping_add(1);
        let east = (place.wrapping_mul(37) % 201).wrapping_sub(100);
        let north = (place.wrapping_mul(91) % 199).wrapping_sub(100);
        points.push((east, north)).expect(rt, "memory");
        demands.push(1).expect(rt, "memory");
    }
    at_points(alloc, &points, &demands, 4).expect(rt, "an instance")
}

// The prices found for a plan of this cost.
fn prices_of<'a>(
    rt: &impl Abort,
    alloc: Global,
    instance: &'a Instance,
    cost: u64,
    steps: u64,
) -> FoundPrices<'a>
    ensures relaxation { result.relaxation.problem ≡ instance.now }
    ensures ng_sets { result.ng_sets.places ≡ place_count instance.now }
{
    let found = find_prices(alloc, instance, cost, 4, steps, &Unhurried);
    found.expect(rt, "memory").expect(rt, "prices")
}

// By the prices no plan costs as little as `low`, and one may cost `high`.
fn assert_bounds(rt: &impl Abort, alloc: Global, found: FoundPrices<'_>, low: u64, high: u64)
    requires { found.ng_sets.places ≡ place_count found.relaxation.problem }
{
    let FoundPrices {
        relaxation,
        ng_sets,
    } = found;
    let bound = relaxation.lower_bound(alloc, &ng_sets, 200_000_000);
    let bound = bound.expect(rt, "memory").expect(rt, "tours").rounded_up();
    assert!(rt; low < bound && bound <= high, "{bound}");
}

// With asymmetric arcs, and demands whose only common divisor is 1.
#[test]
fn many_customers_with_one_way_streets(rt: HostRuntime) {
    let instance = one_direction(&rt, rt.alloc());
    assert!(rt; !instance.symmetric());
    let alone = cost_alone(&instance);
    assert_same(&rt, alone, 13_160, "a truck for each");
    let found = prices_of(&rt, rt.alloc(), &instance, alone, 40_000_000);
    assert_bounds(&rt, rt.alloc(), found, 143, alone);
}

fn one_direction(rt: &impl Abort, alloc: Global) -> Instance {
    let mut arcs = Vec::new(alloc);
    for from in 0..131u64 {
        push_arcs(rt, &mut arcs, from);
    }
    let mut demands = vec![in alloc; 0; 1].expect(rt, "memory");
    for customer in 0..130u64 {
        demands.push(10_000_000 + customer).expect(rt, "memory");
    }
    with_arcs(alloc, &arcs, &demands, 100_000_000).expect(rt, "an instance")
}

fn push_arcs(rt: &impl Abort, arcs: &mut Vec<u64>, from: u64) {
    for to in 0..131u64 {
        let arc = from.wrapping_mul(7).wrapping_add(to.wrapping_mul(13)) % 100;
        arcs.push(if from == to { 0 } else { arc + 1 })
            .expect(rt, "memory");
    }
}

// The cost of the plan with a truck for each customer.
fn cost_alone(instance: &Instance) -> u64 {
    let mut cost = 0u64;
    for index in 0..instance.customers() {
        let there = instance.weight(0, index + 1);
        let back = instance.weight(index + 1, 0);
        cost = cost.saturating_add(there + back);
    }
    cost
}
