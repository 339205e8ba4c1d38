//! The least ng-tours that carry all demands: by hand, compared with a slow program that tries every walk, and at the limits of an
//! instance.
ghost use Rattle.std.specs.Prelude.{◌≡◌};
ghost use Rattle.vrp_model.specs.Problem.{place_count};

use crate::assertion::assert_same;
use crate::bound::slow_walks::{Stand, Walkers, every_walk};
use std::alloc::Global;
use std::process::Abort;
use test_fixtures::{at_points, one_each, with_arcs};
use vrp_bound::least_ng_tours;
use vrp_model::{Instance, MAX_NODES, NgSets};

// The ng-sets of walks through this many places, with `size` near customers for each place, listed one place after another.
fn ng_sets_of(rt: &impl Abort, alloc: Global, places: usize, size: usize, near: &[u16]) -> NgSets
    ensures { result.places ≡ places }
{
    assert!(rt; places <= 5 && size <= 4);
    let near = Vec::from_slice(alloc, near).expect(rt, "memory");
    assert!(rt; near.len() == places * size);
    NgSets::new(alloc, places, size, near).expect(rt, "memory")
}

// The cost of the least tours if the first customer is not near the second.
const TO_AND_FRO: u64 = 40;

const NEAR_THE_SECOND: u64 = 60;

// The loads from 0 to 3, and the arcs between three customers.
const THREE_STEPS: u64 = 4 * 9;

const MANY_STEPS: u64 = 200_000_000;

// The number of near customers of each place, these customers, one place after another, and the cost of the least tours.
type Three<'a> = (usize, &'a [u16], u64);

const THREE: &[Three<'_>] = &[
    (0, &[], TO_AND_FRO),
    (1, &[0, 2, 3, 2], TO_AND_FRO),
    (1, &[0, 2, 1, 2], NEAR_THE_SECOND),
    (2, &[0, 0, 2, 3, 1, 3, 2, 1], NEAR_THE_SECOND),
];

// Three customers on a line, 10 apart, the first of them 10 from the depot; each has a demand of 1, and the capacity is 3. A
// walk that remembers only its next stop goes to and fro: from the depot to the first, the second and the first again for 40.
// If the first is near the second, that is not allowed, and a tour of three continues to the third.
#[test]
fn three_on_a_line(rt: HostRuntime) {
    let points = [(0, 0), (10, 0), (20, 0), (30, 0)];
    let instance = at_points(rt.alloc(), &points, &[0, 1, 1, 1], 3).expect(&rt, "an instance");
    for &three in THREE {
        assert_three(&rt, rt.alloc(), &instance, three);
    }
}

fn assert_three(rt: &impl Abort, alloc: Global, instance: &Instance, three: Three<'_>) {
    let (size, near, cost) = three;
    assert!(rt; instance.customers() == 3);
    let ng_sets = ng_sets_of(rt, alloc, 4, size, near);
    assert_tours(rt, alloc, instance, &ng_sets, (THREE_STEPS, Some(cost)));
    assert_tours(rt, alloc, instance, &ng_sets, (THREE_STEPS - 1, None));
}

// The least tours of all demands by tables that may take so many steps.
fn assert_tours(
    rt: &impl Abort,
    alloc: Global,
    instance: &Instance,
    ng_sets: &NgSets,
    tours: (u64, Option<u64>),
)
    requires { ng_sets.now.places ≡ place_count instance.now }
{
    let (most_steps, cost) = tours;
    let least = least_ng_tours(alloc, instance, ng_sets, most_steps).expect(rt, "memory");
    assert_same(rt, least, cost, most_steps);
}

// No tables are made over a customer without demand.
#[test]
fn tours_with_a_customer_without_demand(rt: HostRuntime) {
    let points = [(0, 0), (10, 0), (20, 0), (30, 0)];
    let instance = at_points(rt.alloc(), &points, &[0, 1, 0, 1], 3).expect(&rt, "an instance");
    let ng_sets = NgSets::nearest(rt.alloc(), &instance, 2).expect(&rt, "memory");
    assert_tours(&rt, rt.alloc(), &instance, &ng_sets, (MANY_STEPS, None));
}

// The demands of the places, and the capacity.
type Loaded = ([u64; 5], u64);

const EVERY_WALK: &[Loaded] = &[
    ([0, 1, 1, 1, 1], 1),
    ([0, 1, 1, 1, 1], 2),
    ([0, 1, 1, 1, 1], 3),
    ([0, 1, 1, 1, 1], 4),
    ([0, 3, 1, 2, 2], 3),
    ([0, 1, 3, 1, 2], 4),
    ([0, 2, 1, 3, 1], 5),
    ([0, 1, 2, 1, 3], 6),
    // counted in units of 2
    ([0, 2, 4, 2, 2], 7),
];

// The number of near customers of each place, these customers, one place after another, and a bit for each of them by place.
// The next customers in cyclic order are near a customer, and the customer itself if there are too few others.
type Near<'a> = (usize, &'a [u16], &'a [u32]);

const NEXT_CUSTOMERS: &[Near<'_>] = &[
    (0, &[], &[0b00000, 0b00000, 0b00000, 0b00000, 0b00000]),
    (
        1,
        &[1, 2, 3, 4, 1],
        &[0b00010, 0b00100, 0b01000, 0b10000, 0b00010],
    ),
    (
        2,
        &[1, 2, 2, 3, 3, 4, 4, 1, 1, 2],
        &[0b00110, 0b01100, 0b11000, 0b10010, 0b00110],
    ),
    (
        3,
        &[1, 2, 3, 2, 3, 4, 3, 4, 1, 4, 1, 2, 1, 2, 3],
        &[0b01110, 0b11100, 0b11010, 0b10110, 0b01110],
    ),
    (
        4,
        &[1, 2, 3, 4, 2, 3, 4, 1, 3, 4, 1, 2, 4, 1, 2, 3, 1, 2, 3, 4],
        &[0b11110, 0b11110, 0b11110, 0b11110, 0b11110],
    ),
];

#[test]
fn the_same_as_every_walk(rt: HostRuntime) {
    for &loaded in EVERY_WALK {
        assert_there_and_back(&rt, rt.alloc(), loaded);
        assert_one_direction(&rt, rt.alloc(), loaded);
    }
}

fn assert_there_and_back(rt: &impl Abort, alloc: Global, (demands, capacity): Loaded) {
    let points = [(0, 0), (3, 4), (6, 8), (5, -12), (-4, 3)];
    let instance = at_points(alloc, &points, &demands, capacity).expect(rt, "an instance");
    assert_sizes(rt, alloc, &instance);
}

fn assert_one_direction(rt: &impl Abort, alloc: Global, (demands, capacity): Loaded) {
    let arcs = one_direction(rt, alloc);
    let instance = with_arcs(alloc, &arcs, &demands, capacity).expect(rt, "an instance");
    assert_sizes(rt, alloc, &instance);
}

// Weights between five places, with a different weight for each reverse arc.
fn one_direction(rt: &impl Abort, alloc: Global) -> Vec<u64> {
    let mut arcs = Vec::new(alloc);
    for from in 0..5 {
        for to in 0..5 {
            arcs.push((5 * from + 3 * to * to) % 13 + 1)
                .expect(rt, "memory");
        }
    }
    arcs
}

fn assert_sizes(rt: &impl Abort, alloc: Global, instance: &Instance) {
    for &near in NEXT_CUSTOMERS {
        assert_size(rt, alloc, instance, near);
    }
}

fn assert_size(rt: &impl Abort, alloc: Global, instance: &Instance, near: Near<'_>) {
    let (size, listed, bits) = near;
    assert!(rt; instance.customers() == 4);
    let ng_sets = ng_sets_of(rt, alloc, 5, size, listed);
    let walkers = Walkers {
        instance,
        customers: &[1, 2, 3, 4],
        near: bits,
    };
    let slow = every_walk(walkers, Stand::begun(0, 0, instance.whole_demand()), 20);
    assert_tours(rt, alloc, instance, &ng_sets, (MANY_STEPS, slow));
}

// Customers at one point, 10 from the depot: three fit on each truck.
#[test]
fn as_many_customers_as_there_may_be(rt: HostRuntime) {
    let instance = crowded(&rt, rt.alloc());
    assert_crowded(&rt, rt.alloc(), &instance, 0);
    assert_crowded(&rt, rt.alloc(), &instance, 4);
}

fn assert_crowded(rt: &impl Abort, alloc: Global, instance: &Instance, size: usize) {
    assert!(rt; size <= 4);
    let ng_sets = NgSets::nearest(alloc, instance, size).expect(rt, "memory");
    assert_tours(rt, alloc, instance, &ng_sets, (MANY_STEPS, Some(8_000)));
}

fn crowded(rt: &impl Abort, alloc: Global) -> Instance {
    let places = usize::from(MAX_NODES);
    let mut points = vec![in alloc; (10, 0); places].expect(rt, "memory");
    points[0] = (0, 0);
    let demands = one_each(alloc, places).expect(rt, "demands");
    at_points(alloc, &points, &demands, 3).expect(rt, "an instance")
}
