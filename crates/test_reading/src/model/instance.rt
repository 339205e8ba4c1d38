//! Instances of small requests, and the refusals of others.
use crate::assertion::assert_same;
use crate::model::fixture::{Case, Square, full_matrix, instance_of, three_nodes};
use std::alloc::Global;
use std::process::Abort;
use vrp_model::InstanceError::{DemandOverCapacity, DepotDemand, NotADepot, OutOfMemory};
use vrp_model::{Instance, InstanceError, MAX_CAPACITY, MAX_NODES};

// A case, the node and the demand of each place, and the total demand.
type Made<'a> = (Case<'a>, &'a [u16], &'a [u64], u64);

const MADE: &[Made<'_>] = &[
    (([0, 1, 2], &[1], None), &[1, 2, 3], &[0, 1, 2], 3),
    (([1, 0, 1], &[2], None), &[2, 1, 3], &[0, 1, 1], 2),
    (([0, 0, 1], &[1, 2], Some(2)), &[2, 3], &[0, 1], 1),
    (([0, 0, 1], &[1, 2], None), &[1, 3], &[0, 1], 1),
    (([0, 0, 1], &[1, 1, 2, 2, 1], None), &[1, 3], &[0, 1], 1),
    (([0, 0, 1], &[2, 1], None), &[2, 3], &[0, 1], 1),
];

#[test]
fn places_of_cases(rt: HostRuntime) {
    for &(case, nodes, demands, whole_demand) in MADE {
        let instance = three_nodes(&rt, rt.alloc(), case);
        assert_places(&rt, &instance, nodes, demands);
        let found = (instance.whole_demand(), instance.capacity());
        assert_same(&rt, found, (whole_demand, 2), case);
    }
}

fn assert_places(rt: &impl Abort, instance: &Instance, nodes: &[u16], demands: &[u64]) {
    let places = instance.customers() + 1;
    assert!(rt; usize::from(places) == nodes.len() && nodes.len() == demands.len());
    for place in 0..places {
        let index = usize::from(place);
        assert_same(rt, instance.node(place), nodes[index], place);
        assert_same(rt, instance.demand(place), demands[index], place);
    }
}

// Two places, and the weight from the first to the second.
const WEIGHTS: &[(u16, u16, u64)] = &[(0, 1, 5), (0, 2, 10), (1, 2, 5), (2, 1, 5), (2, 2, 0)];

#[test]
fn weights_between_places(rt: HostRuntime) {
    let instance = three_nodes(&rt, rt.alloc(), ([0, 1, 1], &[1], None));
    assert!(rt; instance.customers() == 2);
    for &(from, to, weight) in WEIGHTS {
        assert!(rt; from <= 2 && to <= 2);
        assert_same(&rt, instance.weight(from, to), weight, (from, to));
    }
}

// Two nodes without demands.
const PAIR: Square<'_> = (&[0, 1, 2, 0], &[0, 0], 2, &[1]);

// A limit on trucks changes nothing else of an instance.
#[test]
fn so_many_trucks(rt: HostRuntime) {
    for trucks in [1, 2, 1_200] {
        let case: Case<'_> = ([1, 0, 2], &[2], None);
        let free = three_nodes(&rt, rt.alloc(), case);
        assert_limited(&rt, &free, three_nodes(&rt, rt.alloc(), case), trucks);
        let free = full_matrix(&rt, rt.alloc(), PAIR);
        assert_limited(&rt, &free, full_matrix(&rt, rt.alloc(), PAIR), trucks);
    }
}

// The same instance twice: one of them gets this limit on trucks.
fn assert_limited(rt: &impl Abort, free: &Instance, same: Instance, trucks: u16) {
    assert!(rt; 1 <= trucks && trucks <= 1_200);
    let limited = same.with_trucks(trucks);
    assert_same(rt, free.trucks(), None, trucks);
    assert_same(rt, limited.trucks(), Some(trucks), trucks);
    assert_same(rt, limited.capacity(), free.capacity(), trucks);
    assert_same(rt, limited.symmetric(), free.symmetric(), trucks);
    assert_same(rt, limited.least_home(), free.least_home(), trucks);
    assert_same(rt, limited.customers(), free.customers(), trucks);
    for place in 0..free.customers() + 1 {
        assert_same_place(rt, free, &limited, place);
    }
}

// Asserts that two instances have the same node, demand, arcs and least arc at a place.
fn assert_same_place(rt: &impl Abort, one: &Instance, other: &Instance, place: u16) {
    let customers = one.customers();
    assert!(rt; place <= customers && customers == other.customers());
    assert_same(rt, one.node(place), other.node(place), place);
    assert_same(rt, one.demand(place), other.demand(place), place);
    if 0 < place {
        assert_same(rt, one.least_in(place), other.least_in(place), place);
    }
    for to in 0..customers + 1 {
        let weights = (one.weight(place, to), other.weight(place, to));
        assert_same(rt, weights.0, weights.1, (place, to));
    }
}

#[test]
fn least_arcs(rt: HostRuntime) {
    let instance = three_nodes(&rt, rt.alloc(), ([0, 1, 1], &[1], None));
    assert!(rt; instance.customers() == 2);
    let least = [
        instance.least_in(1),
        instance.least_in(2),
        instance.least_home(),
    ];
    assert_same(&rt, least, [5, 5, 5], "two customers");
    let alone = three_nodes(&rt, rt.alloc(), ([0, 0, 0], &[3, 1, 2], None));
    assert_same(&rt, alone.least_home(), 0, "no customer");
}

// A number of nodes that demand nothing, the weights between them, the listed depots, and whether the instance is symmetric.
type Mirrored<'a> = (usize, &'a [u64], &'a [u16], bool);

const MIRRORED: &[Mirrored<'_>] = &[
    // the depot alone
    (1, &[7], &[1], true),
    (2, &[0, 1, 1, 0], &[1], true),
    (2, &[0, 1, 2, 0], &[1], false),
    (3, &[0, 1, 1, 1, 0, 9, 1, 9, 0], &[1], true),
    // the diagonal is ignored
    (3, &[3, 1, 1, 1, 4, 9, 1, 9, 5], &[1], true),
    // asymmetric: between the depot and the first customer, the depot and the last one, both customers
    (3, &[0, 1, 1, 2, 0, 9, 1, 9, 0], &[1], false),
    (3, &[0, 1, 1, 1, 0, 9, 2, 9, 0], &[1], false),
    (3, &[0, 1, 1, 1, 0, 9, 1, 8, 0], &[1], false),
    // each row and each column has the same sum, but the weights are asymmetric
    (3, &[0, 1, 2, 2, 0, 1, 1, 2, 0], &[1], false),
    // a depot that is listed second is not a place
    (3, &[0, 1, 1, 1, 0, 9, 2, 8, 0], &[1, 3], true),
    (3, &[0, 1, 1, 1, 0, 9, 2, 9, 0], &[3, 1], true),
    (3, &[0, 1, 1, 1, 0, 9, 1, 8, 0], &[3, 1], false),
    // a second depot, whose node is between the depot's and the customers'
    (
        4,
        &[0, 1, 2, 3, 7, 0, 7, 7, 2, 8, 0, 4, 3, 9, 4, 0],
        &[1, 2],
        true,
    ),
    (
        4,
        &[0, 1, 2, 3, 7, 0, 7, 7, 2, 8, 0, 4, 3, 9, 5, 0],
        &[1, 2],
        false,
    ),
];

#[test]
fn symmetric_squares(rt: HostRuntime) {
    for &(nodes, weights, depots, symmetric) in MIRRORED {
        assert!(rt; nodes <= 4);
        let square = (weights, &[0; 4][..nodes], 2, depots);
        let instance = full_matrix(&rt, rt.alloc(), square);
        assert_same(&rt, instance.symmetric(), symmetric, square);
    }
    let points = three_nodes(&rt, rt.alloc(), ([0, 1, 1], &[1], None));
    assert!(rt; points.symmetric());
}

const REFUSED: &[(Case<'_>, InstanceError)] = &[
    (([0, 0, 1], &[1, 2], Some(3)), NotADepot(3)),
    (([0, 0, 1], &[1, 2], Some(65_535)), NotADepot(65_535)),
    (([0, 3, 1], &[1], None), DemandOverCapacity(2)),
    (([0, 3, 3], &[1], None), DemandOverCapacity(2)),
    // two faults: the first is reported
    (([5, 3, 1], &[1], None), DepotDemand(1)),
    (([5, 0, 1], &[1], Some(2)), DepotDemand(1)),
    (([0, 3, 1], &[1], Some(3)), NotADepot(3)),
    // the lowest node is reported, though another is listed first
    (([1, 4, 0], &[2, 1], None), DepotDemand(1)),
];

#[test]
fn refused_cases(rt: HostRuntime) {
    for &(case, error) in REFUSED {
        let found = instance_of(&rt, rt.alloc(), case).err();
        assert_same(&rt, found, Some(error), case);
    }
}

const TEXTS: &[(InstanceError, &str)] = &[
    (DepotDemand(7), "node 7: a depot has a demand"),
    (NotADepot(7), "node 7: not a depot"),
    (DemandOverCapacity(7), "node 7: demand above capacity"),
    (OutOfMemory, "out of memory"),
];

#[test]
fn texts_of_errors(rt: HostRuntime) {
    for &(error, wanted) in TEXTS {
        let text = error.to_string(rt.alloc()).expect(&rt, "memory");
        assert_same(&rt, text.as_str(), wanted, error);
    }
}
