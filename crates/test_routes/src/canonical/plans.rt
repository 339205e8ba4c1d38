//! The plans found are the canonical ones, compared with a slow program.

use crate::assertion::assert_same;
use crate::canonical::found::{Effort, UNHURRIED, found_plan};
use crate::five_places::{DEMANDS, LEVEL, ONE_DIRECTION};
use crate::guides::{Among, Answering, Habit, Habitual};
use std::alloc::Global;
use std::process::Abort;
use std::thread::Threads;
use test_fixtures::{Canonical, FIVE, Random, SQUARE, at_points, canonical_plan, with_arcs};
use vrp_canonical::RoutesOutcome;
use vrp_model::{Instance, Plan};
use vrp_search_tree::lawful_plan;

#[test]
fn plans_by_hand(rt: HostRuntime) {
    let (rt, alloc) = (&rt, rt.alloc());
    let mut plans = 0u64;
    for (demands, capacity) in DEMANDS {
        let instance = at_points(alloc, FIVE, demands, *capacity).expect(rt, "an instance");
        plans = plans.saturating_add(plans_of(rt, alloc, &instance));
        let instance = at_points(alloc, SQUARE, demands, *capacity).expect(rt, "an instance");
        plans = plans.saturating_add(plans_of(rt, alloc, &instance));
        let instance = with_arcs(alloc, LEVEL, demands, *capacity).expect(rt, "an instance");
        plans = plans.saturating_add(plans_of(rt, alloc, &instance));
        let few = instance.with_trucks(2);
        plans = plans.saturating_add(plans_of(rt, alloc, &few));
        let instance = with_arcs(alloc, ONE_DIRECTION, demands, *capacity).expect(
            rt,
            "an instance",
        );
        plans = plans.saturating_add(plans_of(rt, alloc, &instance));
        let few = instance.with_trucks(1);
        plans = plans.saturating_add(plans_of(rt, alloc, &few));
    }
    assert!(rt; plans >= 150);
}

// Six customers, with arcs of 1 to 3: many plans cost the same.
#[test]
fn plans_by_chance(rt: HostRuntime) {
    let (rt, alloc) = (&rt, rt.alloc());
    let mut random = Random(7);
    let mut plans = 0u64;
    for round in 0..12u16 {
        let instance = by_chance(rt, alloc, &mut random);
        plans = plans.saturating_add(plans_of(rt, alloc, &instance));
        let few = instance.with_trucks(1 + round % 3);
        plans = plans.saturating_add(plans_of(rt, alloc, &few));
    }
    assert!(rt; plans >= 60);
}

fn by_chance(rt: &impl Abort, alloc: Global, random: &mut Random) -> Instance {
    let mut arcs = Vec::new(alloc);
    for _ in 0..49 {
        arcs.push(u64::from(1 + random.next() % 3))
            .expect(rt, "memory");
    }
    let mut demands = Vec::new(alloc);
    demands.push(0u64).expect(rt, "memory");
    for _ in 0..6 {
        demands
            .push(u64::from(random.next() % 3))
            .expect(rt, "memory");
    }
    with_arcs(alloc, arcs.as_slice(), demands.as_slice(), 4).expect(rt, "an instance")
}

// How many of the plans found are the canonical one: for its cost, and for that of one truck for each customer, by several guides.
fn plans_of<R: Abort + Threads + Sync>(rt: &R, alloc: Global, instance: &Instance) -> u64 {
    let canonical = canonical_plan(alloc, instance).expect(rt, "memory");
    let Some(canonical) = canonical else {
        return 0;
    };
    let known = lawful_plan(alloc, instance, canonical.word.as_slice()).expect(rt, "memory");
    let least = known.expect(rt, "the first plan has a lawful word");
    let mut plans = by_guides(rt, alloc, instance, least.cost(), &canonical);
    let singles = Plan::singles(alloc, instance).expect(rt, "memory");
    if let Some(costly) = singles {
        plans = plans.saturating_add(by_guides(rt, alloc, instance, costly.cost(), &canonical));
    }
    plans
}

// The canonical plan, if it was found.
fn canonical_of(found: RoutesOutcome) -> Option<Plan> {
    match found {
        RoutesOutcome::Canonical(plan) => Some(plan),
        _ => None,
    }
}

// The cost of the plan that an unfinished search reports, if it reports one.
fn cost_told(found: &RoutesOutcome) -> Option<u64> {
    match found {
        RoutesOutcome::Unfinished { better, .. } => better.as_ref().map(|plan| plan.cost()),
        _ => None,
    }
}

// The lower bound of a search that ended unfinished.
fn bound_told(found: &RoutesOutcome) -> Option<u64> {
    match found {
        RoutesOutcome::Unfinished { lower_bound, .. } => Some(*lower_bound),
        _ => None,
    }
}

fn guide(alloc: Global, habit: Habit, seed: u64) -> Habitual {
    Habitual {
        alloc,
        habit,
        among: Among::FirstEight,
        random: Random(seed),
    }
}

const GUIDES: &[(Habit, u64)] = &[(Habit::Zeros, 1), (Habit::Random, 2), (Habit::Random, 3)];

fn by_guides<R: Abort + Threads + Sync>(
    rt: &R,
    alloc: Global,
    instance: &Instance,
    limit: u64,
    canonical: &Canonical,
) -> u64 {
    let mut plans = 0u64;
    for &(habit, seed) in GUIDES {
        let guide = guide(alloc, habit, seed);
        let found = found_plan(rt, alloc, instance, limit, &guide, UNHURRIED);
        let plan = canonical_of(found.expect(rt, "memory")).expect(rt, "a plan");
        assert_same(rt, plan.cost(), canonical.cost, "cost");
        assert!(rt;
            plan.word() == canonical.word.as_slice(),
            "{:?}",
            plan.word()
        );
        plans = plans.saturating_add(1);
    }
    plans
}

// A guide, a budget, whether the canonical plan is found, and whether otherwise a cheapest one is reported: then the lower
// bound is its cost.
const LIMITS: &[(Habit, u64, bool, bool)] = &[
    (Habit::Zeros, 1_000, true, false),
    (Habit::Zeros, 4, true, false),
    (Habit::Zeros, 3, false, true),
    (Habit::Zeros, 2, false, true),
    (Habit::Zeros, 1, false, false),
    (Habit::Zeros, 0, false, false),
    (Habit::Stopping, 1_000, false, false),
];

// One truck carries all, and one round is the cheapest: the pool is narrowed, one search finds that round, the pool is
// narrowed again, and one more search finds that no earlier route is possible. Each takes one of the budget.
#[test]
fn budgets_and_guides_that_stop(rt: HostRuntime) {
    let (rt, alloc) = (&rt, rt.alloc());
    let instance = at_points(alloc, FIVE, &[0, 1, 1, 1, 1], 4).expect(rt, "an instance");
    let singles = Plan::singles(alloc, &instance).expect(rt, "memory");
    let known = singles.expect(rt, "a truck for each");
    let canonical = canonical_plan(alloc, &instance).expect(rt, "memory");
    let canonical = canonical.expect(rt, "a plan");
    for &(habit, budget, wanted, told) in LIMITS {
        let guide = guide(alloc, habit, 5);
        let effort = Effort {
            watch: Answering {
                should_continue: habit != Habit::Stopping,
            },
            budget,
        };
        let found = found_plan(rt, alloc, &instance, known.cost(), &guide, effort);
        let found = found.expect(rt, "memory");
        let cost = cost_told(&found);
        assert_same(rt, cost, told.then_some(canonical.cost), (habit, budget));
        let bound = bound_told(&found);
        let least = if told { canonical.cost } else { 0 };
        assert_same(rt, bound, (!wanted).then_some(least), (habit, budget));
        let plan = canonical_of(found);
        assert_same(rt, plan.is_some(), wanted, (habit, budget));
    }
}

// Places, the capacity, a limit, and the lower bound if no plan costs as little. Each customer's demand is 1. By hand, the cheapest plans
// cost 57, 60 and 48, and one truck for each customer costs 72, 72 and 56.
const GUESSES: &[(&[(i64, i64)], u64, u64, Option<u64>)] = &[
    (FIVE, 4, 0, Some(1)),
    (FIVE, 4, 40, Some(41)),
    (FIVE, 4, 56, Some(57)),
    (FIVE, 4, 57, None),
    (FIVE, 4, 65, None),
    (FIVE, 2, 59, Some(60)),
    (FIVE, 2, 66, None),
    (SQUARE, 2, 47, Some(48)),
    (SQUARE, 2, 52, None),
];

#[test]
fn limits_guessed_from_below(rt: HostRuntime) {
    let (rt, alloc) = (&rt, rt.alloc());
    for &(points, capacity, limit, bound) in GUESSES {
        let instance = at_points(alloc, points, &[0, 1, 1, 1, 1], capacity);
        let instance = instance.expect(rt, "an instance");
        match bound {
            Some(bound) => none_by_guides(rt, alloc, &instance, limit, bound),
            None => {
                let canonical = canonical_plan(alloc, &instance).expect(rt, "memory");
                let canonical = canonical.expect(rt, "a plan");
                by_guides(rt, alloc, &instance, limit, &canonical);
            }
        }
    }
}

// By each guide no plan is found within the limit, and the search ends with this lower bound.
fn none_by_guides<R: Abort + Threads + Sync>(
    rt: &R,
    alloc: Global,
    instance: &Instance,
    limit: u64,
    bound: u64,
) {
    for &(habit, seed) in GUIDES {
        let guide = guide(alloc, habit, seed);
        let found = found_plan(rt, alloc, instance, limit, &guide, UNHURRIED);
        let found = found.expect(rt, "memory");
        assert_same(rt, cost_told(&found), None, (habit, limit));
        assert_same(rt, bound_told(&found), Some(bound), (habit, limit));
    }
}
