//! Plans of one instance compared with another.
use crate::assertion::assert_same;
use crate::model::fixture::{Square, full_matrix};
use crate::model::plan::singles;
use std::alloc::Global;
use std::process::Abort;
use test_fixtures::joined;
use vrp_model::Plan;

// Two customers: separately they cost 1 + 2 and 2 + 4, and on one route 1 + 1 + 4.
const ARCS: &[u64] = &[0, 1, 2, 2, 0, 1, 4, 2, 0];

const DEMANDS: &[u64] = &[0, 1, 1];

const OWN: Square<'_> = (ARCS, DEMANDS, 2, &[1]);

const DEPOT_ALONE: Square<'_> = (&[0], &[0], 2, &[1]);

// An instance, its number of trucks, whether the plan of two routes is a plan of it, and whether that of one route is.
type Other<'a> = (Square<'a>, Option<u16>, bool, bool);

const OTHERS: &[Other<'_>] = &[
    // its own instance, and others with more capacity, or with less than both customers demand
    (OWN, None, true, true),
    ((ARCS, DEMANDS, 9, &[1]), None, true, true),
    ((ARCS, DEMANDS, 1, &[1]), None, true, false),
    ((ARCS, &[0, 2, 1], 2, &[1]), None, true, false),
    // one truck, two, and more
    (OWN, Some(1), false, true),
    (OWN, Some(2), true, true),
    (OWN, Some(9), true, true),
    // another weight: of an arc that both plans use, of one that only either plan uses, and of arcs that neither uses
    (
        (&[0, 1, 2, 2, 0, 1, 3, 2, 0], DEMANDS, 2, &[1]),
        None,
        false,
        false,
    ),
    (
        (&[0, 1, 2, 3, 0, 1, 4, 2, 0], DEMANDS, 2, &[1]),
        None,
        false,
        true,
    ),
    (
        (&[0, 1, 2, 2, 0, 0, 4, 2, 0], DEMANDS, 2, &[1]),
        None,
        true,
        false,
    ),
    (
        (&[5, 1, 2, 2, 5, 1, 4, 9, 5], DEMANDS, 2, &[1]),
        None,
        true,
        true,
    ),
    // no customer, one, and three, of whom the third is at the first one's place and demands nothing
    (DEPOT_ALONE, None, false, false),
    ((&[0, 1, 2, 0], &[0, 1], 2, &[1]), None, false, false),
    (
        (
            &[0, 1, 2, 1, 2, 0, 1, 0, 4, 2, 0, 2, 2, 0, 1, 0],
            &[0, 1, 1, 0],
            2,
            &[1],
        ),
        None,
        false,
        false,
    ),
];

#[test]
fn beside_another_instance(rt: HostRuntime) {
    let own = full_matrix(&rt, rt.alloc(), OWN);
    let apart = singles(&rt, rt.alloc(), &own);
    let together = joined(rt.alloc(), &own, 1).expect(&rt, "a plan");
    for other in OTHERS {
        assert_fits(&rt, rt.alloc(), &apart, &together, other);
    }
}

fn assert_fits(rt: &impl Abort, alloc: Global, apart: &Plan, together: &Plan, other: &Other<'_>) {
    let (square, trucks, two, one) = *other;
    let free = full_matrix(rt, alloc, square);
    let instance = match trucks {
        Some(trucks) => {
            assert!(rt; 1 <= trucks && trucks <= 9);
            free.with_trucks(trucks)
        }
        None => free,
    };
    let found = (apart.fits(&instance), together.fits(&instance));
    assert_same(rt, found, (two, one), square);
}

// A route that runs backward is feasible, even if the weights are symmetric.
#[test]
fn a_route_may_run_backward(rt: HostRuntime) {
    let own = full_matrix(&rt, rt.alloc(), OWN);
    let backward = joined(rt.alloc(), &own, 2).expect(&rt, "a plan");
    let square: Square<'_> = (&[0, 2, 2, 2, 0, 2, 2, 2, 0], DEMANDS, 2, &[1]);
    let other = full_matrix(&rt, rt.alloc(), square);
    assert!(rt; other.symmetric());
    assert!(rt; backward.fits(&other));
}

// The plan without customers is feasible for the depot alone.
#[test]
fn depot_alone(rt: HostRuntime) {
    let depot = full_matrix(&rt, rt.alloc(), DEPOT_ALONE);
    let own = full_matrix(&rt, rt.alloc(), OWN);
    let none = singles(&rt, rt.alloc(), &depot);
    assert!(rt; none.fits(&depot));
    assert!(rt; !none.fits(&own));
}
