//! The nearest customers, worked out by hand, and the memory of walks, followed stop by stop.
ghost use Rattle.std.specs.Prelude.{◌≡◌, ◌≤◌, ◌<◌};

use crate::assertion::assert_same;
use std::alloc::Global;
use std::process::Abort;
use test_fixtures::with_arcs;
use vrp_model::{Instance, MAX_NODES, NgSets};

// The near customers of each place; an ng-set uses the first few. Some lists have the depot, one has a customer twice, and
// one place is near itself.
const NEAR: [[u16; 4]; 5] = [
    [2, 4, 1, 3],
    [3, 2, 0, 0],
    [4, 4, 1, 3],
    [1, 3, 2, 4],
    [2, 0, 3, 1],
];

// Each row has the arcs from a place. By the arcs to a place, all lists would be different.
const ONE_DIRECTION: [u64; 16] = [0, 5, 3, 9, 1, 0, 7, 7, 2, 4, 0, 8, 6, 3, 2, 0];

// Arcs, how many customers are near each place, and these customers.
type Nearest<'a> = (&'a [u64], usize, &'a [u16]);

const NEAREST: &[Nearest<'_>] = &[
    (&ONE_DIRECTION, 0, &[]),
    (&ONE_DIRECTION, 1, &[2, 2, 1, 2]),
    (&ONE_DIRECTION, 2, &[2, 1, 2, 3, 1, 3, 2, 1]),
    (
        &ONE_DIRECTION,
        4,
        &[2, 1, 3, 0, 2, 3, 0, 0, 1, 3, 0, 0, 2, 1, 0, 0],
    ),
    (&[7; 25], 3, &[1, 2, 3, 2, 3, 4, 1, 3, 4, 1, 2, 4, 1, 2, 3]),
    (&[0; 9], 1, &[1, 2, 1]),
    (&[0, 5, 5, 0], 2, &[1, 0, 0, 0]),
    (&[0], 4, &[0, 0, 0, 0]),
];

#[test]
fn nearest_by_hand(rt: HostRuntime) {
    for &nearest in NEAREST {
        assert_nearest(&rt, rt.alloc(), nearest);
    }
}

fn assert_nearest(rt: &impl Abort, alloc: Global, (arcs, size, near): Nearest<'_>) {
    assert!(rt; size <= 4);
    let instance = by_matrix(rt, alloc, arcs);
    let ng_sets = NgSets::nearest(alloc, &instance, size).expect(rt, "memory");
    assert_same(rt, ng_sets.near(), near, size);
}

#[test]
fn told_stop_by_stop(rt: HostRuntime) {
    for size in 0..5 {
        let ng_sets = first_near(&rt, rt.alloc(), size);
        assert_all_told(&rt, rt.alloc(), &ng_sets);
    }
}

fn assert_all_told(rt: &impl Abort, alloc: Global, ng_sets: &NgSets)
    requires places { ng_sets.now.places ≡ 5 }
    requires few { ng_sets.now.size ≤ 4 }
{
    for stop in 0..5 {
        assert_told(rt, alloc, ng_sets, stop, &[], 3);
    }
}

// A place, a stop, the ng-set there, and the ng-set before it.
const ON_A_LINE: &[(u16, u16, usize, u8)] = &[
    (1_199, 1_198, 0, 1),
    (1_199, 1_198, 5, 7),
    (1_199, 1_198, 13, 15),
    (1_199, 1_198, 15, 16),
    (1_199, 1_199, 0, 16),
    (600, 601, 14, 11),
    (600, 601, 1, 16),
    (2, 1, 12, 13),
    (1, 2, 10, 11),
    (0, 1_199, 15, 0),
    (0, 1, 15, 15),
    (1_199, 0, 0, 0),
];

// It takes a second when compiled, as by `rt test`; `rt try` stops it at its limit of time.
#[test]
fn most_nodes(rt: HostRuntime) {
    let ng_sets = on_a_line(&rt, rt.alloc(), 4);
    for &row in ON_A_LINE {
        assert_on_a_line(&rt, &ng_sets, row);
    }
}

fn assert_on_a_line(rt: &impl Abort, ng_sets: &NgSets, row: (u16, u16, usize, u8))
    requires { ng_sets.now.places ≡ 1_200 }
{
    let (at, stop, after, before) = row;
    assert!(rt; at.max(stop) < 1_200);
    let found = ng_sets.before(at, stop).get(after).copied();
    assert_same(rt, found, Some(before), (at, stop, after));
}

#[test]
fn none_near(rt: HostRuntime) {
    let none = on_a_line(&rt, rt.alloc(), 0);
    assert_same(&rt, none.masks(), 1, "masks");
    for stop in 0..1_200 {
        assert_none_near(&rt, &none, stop);
    }
}

fn assert_none_near(rt: &impl Abort, none: &NgSets, stop: u16)
    requires places { none.now.places ≡ 1_200 }
    requires stop { stop < 1_200 }
{
    let before = [u8::from(stop == 1_199)];
    assert_same(rt, none.before(1_199, stop), before.as_slice(), stop);
}

// Compares the ng-sets before a stop, when the walk behind it remembers these customers, and then those before longer walks.
fn assert_told(
    rt: &impl Abort,
    alloc: Global,
    ng_sets: &NgSets,
    stop: u16,
    behind: &[u16],
    more: u16,
)
    requires places { ng_sets.now.places ≡ 5 }
    requires few { ng_sets.now.size ≤ 4 }
    requires stop { stop < 5 }
{
    let near = near_to(stop, ng_sets.size());
    let after = as_bits(near, behind);
    let remembered = remembered(rt, alloc, near, stop, behind);
    for at in 0..5 {
        assert_before(rt, ng_sets, at, stop, after, &remembered);
        if more > 0 {
            assert_told(rt, alloc, ng_sets, at, &remembered, more - 1);
        }
    }
}

// Compares the ng-set at a place before a stop, when the ng-set there is `after`, and these are remembered from the stop on.
fn assert_before(
    rt: &impl Abort,
    ng_sets: &NgSets,
    at: u16,
    stop: u16,
    after: usize,
    remembered: &[u16],
)
    requires places { ng_sets.now.places ≡ 5 }
    requires few { ng_sets.now.size ≤ 4 }
    requires at { at < 5 }
    requires stop { stop < 5 }
{
    let wanted = if remembered.contains(&at) {
        ng_sets.masks()
    } else {
        as_bits(near_to(at, ng_sets.size()), remembered)
    };
    let found = ng_sets
        .before(at, stop)
        .get(after)
        .copied()
        .map(usize::from);
    assert_same(rt, found, Some(wanted), (at, stop, after));
}

// The memory of a walk with this first stop: the stop, and the customers remembered behind it that are near it.
fn remembered(rt: &impl Abort, alloc: Global, near: &[u16], stop: u16, behind: &[u16]) -> Vec<u16> {
    let mut remembered = vec![in alloc; stop; 1].expect(rt, "memory");
    for customer in behind {
        if near.contains(customer) {
            remembered.push(*customer).expect(rt, "memory");
        }
    }
    remembered
}

// A bit for each near customer of a place, set if it is remembered; the first one's is the lowest.
fn as_bits(near: &[u16], remembered: &[u16]) -> usize {
    let mut bits = 0;
    for (customer, bit) in near.iter().zip([1, 2, 4, 8]) {
        if remembered.contains(customer) {
            bits |= bit;
        }
    }
    bits
}

// The ng-sets with the first few near customers of each place.
fn first_near(rt: &impl Abort, alloc: Global, size: usize) -> NgSets
    requires few { size ≤ 4 }
    ensures places { result.places ≡ 5 }
    ensures size { result.size ≡ size }
{
    let mut near = Vec::new(alloc);
    for listed in NEAR {
        near.extend_from_slice(&listed[..size]).expect(rt, "memory");
    }
    assert!(rt; near.len() == 5 * size);
    NgSets::new(alloc, 5, size, near).expect(rt, "memory")
}

// The first few of a place's near customers.
fn near_to(place: u16, size: usize) -> &'static [u16]
    requires place { place < 5 }
    requires few { size ≤ 4 }
{
    &NEAR[usize::from(place)][..size]
}

// An instance by the full matrix of its weights, without demands.
fn by_matrix(rt: &impl Abort, alloc: Global, arcs: &[u64]) -> Instance {
    let demands = vec![in alloc; 0u64; arcs.len().isqrt()].expect(rt, "memory");
    with_arcs(alloc, arcs, &demands, 1).expect(rt, "an instance")
}

// The ng-sets with this many nearest customers, for the greatest number of nodes on a line, a step apart, the depot first.
fn on_a_line(rt: &impl Abort, alloc: Global, size: usize) -> NgSets
    requires few { size ≤ 4 }
    ensures places { result.places ≡ 1_200 }
{
    let instance = line_of_nodes(rt, alloc);
    assert!(rt; instance.customers() == 1_199);
    NgSets::nearest(alloc, &instance, size).expect(rt, "memory")
}

fn line_of_nodes(rt: &impl Abort, alloc: Global) -> Instance {
    let mut arcs = Vec::new(alloc);
    for from in 0..MAX_NODES {
        for to in 0..MAX_NODES {
            arcs.push(u64::from(from.abs_diff(to))).expect(rt, "memory");
        }
    }
    by_matrix(rt, alloc, &arcs)
}
