//! Removing the least of some arcs.

use crate::assertion::assert_same;
use std::alloc::Global;
use std::process::Abort;
use vrp_bound::{Arc, take_least};

// A place, and the weight of the arc to it.
type Weighed = (u16, u64);

const ARCS: &[Weighed] = &[(1, 7), (2, 3), (3, 9), (4, 3), (5, 0)];

const BY_RISING_WEIGHT: &[Weighed] = &[(5, 0), (2, 3), (4, 3), (1, 7), (3, 9)];

#[test]
fn taken_by_rising_weight(rt: HostRuntime) {
    let mut arcs = some_arcs(&rt, rt.alloc());
    for &wanted in BY_RISING_WEIGHT {
        assert_taken(&rt, &mut arcs, wanted);
    }
    assert!(rt; arcs.is_empty());
}

fn some_arcs(rt: &impl Abort, alloc: Global) -> Vec<Arc> {
    let mut arcs = Vec::new(alloc);
    for &(place, weight) in ARCS {
        arcs.push(Arc { place, weight }).expect(rt, "memory");
    }
    arcs
}

fn assert_taken(rt: &impl Abort, arcs: &mut Vec<Arc>, wanted: Weighed) {
    assert!(rt; !arcs.is_empty());
    let arc = take_least(arcs);
    assert_same(rt, (arc.place, arc.weight), wanted, "the least");
}
