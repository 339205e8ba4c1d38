//! Plans from the pools of two leaves are the canonical ones, compared with a slow program.

use crate::assertion::assert_same;
use crate::canonical::found::found_by_leaf;
use crate::guides::{Among, Habit, Habitual};
use std::alloc::Global;
use std::process::Abort;
use std::thread::Threads;
use test_fixtures::{FIVE, Random, SQUARE, at_points, canonical_plan};
use vrp_canonical::RoutesOutcome;
use vrp_model::Instance;

// Places and the capacity. Each customer's demand is 1. By hand, the cheapest plans cost 57, 60 and 48.
const INSTANCES: &[(&[(i64, i64)], u64, u64)] = &[(FIVE, 4, 57), (FIVE, 2, 60), (SQUARE, 2, 48)];

// How far the limit is above the cost of the canonical plan.
const ABOVE: &[u64] = &[0, 1, 5, 12];

// Leaves of at most none to five routes: the canonical plan is in either.
#[test]
fn plans_of_leaves(rt: HostRuntime) {
    let (rt, alloc) = (&rt, rt.alloc());
    for &(points, capacity, cost) in INSTANCES {
        let instance = at_points(alloc, points, &[0, 1, 1, 1, 1], capacity);
        let instance = instance.expect(rt, "an instance");
        let canonical = canonical_plan(alloc, &instance).expect(rt, "memory");
        let canonical = canonical.expect(rt, "a plan");
        assert_same(rt, canonical.cost, cost, "cost");
        for fewer in 0..=5u16 {
            for &above in ABOVE {
                let found = found(rt, alloc, &instance, cost.saturating_add(above), fewer);
                let RoutesOutcome::Canonical(plan) = found else {
                    panic!(rt; "no plan, at {fewer} and {above}")
                };
                assert!(rt;
                    plan.word() == canonical.word.as_slice(),
                    "{:?}",
                    plan.word()
                );
            }
        }
    }
}

// One below the cost of the canonical plan, that cost is the lower bound.
#[test]
fn no_plan_of_leaves(rt: HostRuntime) {
    let (rt, alloc) = (&rt, rt.alloc());
    for &(points, capacity, cost) in INSTANCES {
        let instance = at_points(alloc, points, &[0, 1, 1, 1, 1], capacity);
        let instance = instance.expect(rt, "an instance");
        for fewer in 0..=5u16 {
            let found = found(rt, alloc, &instance, cost.saturating_sub(1), fewer);
            let RoutesOutcome::Unfinished {
                better,
                lower_bound,
            } = found
            else {
                panic!(rt; "a plan, at {fewer}")
            };
            assert_same(rt, better.is_none(), true, fewer);
            assert_same(rt, lower_bound, cost, fewer);
        }
    }
}

fn found<R: Abort + Threads + Sync>(
    rt: &R,
    alloc: Global,
    instance: &Instance,
    limit: u64,
    fewer: u16,
) -> RoutesOutcome {
    let guide = Habitual {
        alloc,
        habit: Habit::Zeros,
        among: Among::FirstEight,
        random: Random(1),
    };
    let found = found_by_leaf(rt, alloc, instance, limit, fewer, &guide);
    found.expect(rt, "memory")
}
