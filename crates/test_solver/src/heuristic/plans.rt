//! Heuristic plans worked out by hand, and plans for many customers.
use crate::assertion::assert_same;
use crate::heuristic::fixture::{Told, by_matrix, scattered};
use std::alloc::Global;
use std::process::Abort;
use std::thread::Threads;
use vrp_heuristic::{heuristic_plan, savings_plan};
use vrp_model::{Crew, Instance, Plan, Unhurried, Watch};

const LINE: &[u64] = &[0, 1, 2, 1, 0, 1, 2, 1, 0];

const SIDES: &[u64] = &[0, 1, 1, 1, 0, 9, 1, 9, 0];

const RING: &[u64] = &[0, 1, 9, 9, 9, 0, 1, 9, 9, 9, 0, 1, 1, 9, 9, 0];

const POINT: &[u64] = &[0, 0, 0, 0, 0, 0, 0, 0, 0];

// The weights, the demands, the number of trucks, and the cost of the plan.
type Small<'a> = (&'a [u64], &'a [u64], u16, Option<u64>);

// The capacity is two. Customers on a line, and on either side of the depot, both with a truck too few and with one each; on
// a ring with costly reverse arcs; customers without demand; all at one point; one customer, and none.
const BY_HAND: &[Small<'_>] = &[
    (LINE, &[0, 1, 1], 0, Some(4)),
    (SIDES, &[0, 1, 1], 0, Some(4)),
    (SIDES, &[0, 1, 1], 1, Some(11)),
    (LINE, &[0, 2, 2], 0, Some(6)),
    (LINE, &[0, 2, 2], 1, None),
    (RING, &[0, 0, 0, 0], 0, Some(4)),
    (RING, &[0, 1, 1, 1], 2, Some(21)),
    (RING, &[0, 1, 1, 1], 1, None),
    (POINT, &[0, 1, 1], 0, Some(0)),
    (POINT, &[0, 0, 0], 1, Some(0)),
    (&[0, 3, 4, 0], &[0, 2], 1, Some(7)),
    (&[0], &[0], 0, Some(0)),
];

#[test]
fn worked_by_hand(rt: HostRuntime) {
    for &small in BY_HAND {
        for workers in [1, 3] {
            assert_small(&rt, rt.alloc(), small, workers);
        }
    }
}

// The heuristic plan by this many workers and moves, with this watch.
fn planned<R: Threads + Abort + Sync, W: Watch + Sync>(
    rt: &R,
    alloc: Global,
    instance: &Instance,
    (workers, moves): (u16, u32),
    watch: &W,
) -> Option<Plan> {
    assert!(rt; 1 <= workers);
    let crew = Crew {
        rt,
        alloc,
        workers,
        watch,
    };
    heuristic_plan(&crew, instance, moves)
        .expect(rt, "memory")
        .plan
}

fn assert_small<R: Threads + Abort + Sync>(rt: &R, alloc: Global, small: Small<'_>, workers: u16) {
    let (arcs, demands, trucks, cost) = small;
    let told = Told {
        demands,
        capacity: 2,
        trucks,
    };
    let instance = by_matrix(rt, alloc, arcs, told);
    let plan = planned(rt, alloc, &instance, (workers, 100), &Unhurried);
    assert_same(rt, plan.as_ref().map(Plan::cost), cost, (arcs, demands));
}

// With some moves the plan costs less than that by savings, whose cost `compare/savings.py` computed.
#[test]
fn many_customers(rt: HostRuntime) {
    let instance = scattered(&rt, rt.alloc(), 1_200, 1, 0);
    let plan = planned(&rt, rt.alloc(), &instance, (1, 200), &Unhurried);
    let plan = plan.expect(&rt, "a plan");
    assert!(rt; plan.cost() < 124_175);
}

// Any number of workers gives the same answer, with few customers and with many.
#[test]
fn the_same_by_any_number(rt: HostRuntime) {
    for nodes in [60, 200] {
        assert!(rt; nodes <= 200);
        let instance = scattered(&rt, rt.alloc(), nodes, 1, 0);
        for workers in [1, 2, 5] {
            let once = planned(&rt, rt.alloc(), &instance, (1, 400), &Unhurried);
            let again = planned(&rt, rt.alloc(), &instance, (workers, 400), &Unhurried);
            assert_one_plan(&rt, once, again);
        }
    }
}

// When stopped before the first move, the plan is that by savings.
#[test]
fn stopped_at_once(rt: HostRuntime) {
    let instance = scattered(&rt, rt.alloc(), 60, 1, 0);
    let by_savings = savings_plan(rt.alloc(), &instance).expect(&rt, "memory");
    let stopped = planned(&rt, rt.alloc(), &instance, (2, 1_000), &Stopped);
    assert_one_plan(&rt, stopped, by_savings);
}

// There is a plan, and both are the same.
fn assert_one_plan(rt: &impl Abort, one: Option<Plan>, other: Option<Plan>) {
    let (one, other) = (one.expect(rt, "a plan"), other.expect(rt, "a plan"));
    assert_same(rt, one.word(), other.word(), "the word");
}

// A watch that stops at once.
struct Stopped;

impl Watch for Stopped {
    fn should_continue(&self) -> bool {
        false
    }
}
