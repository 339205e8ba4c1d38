//! Choices among useful routes with many plans of equal cost: any number of workers finds the first of them.

use super::by_routes::assert_canonical_by_all;
use super::*;
use crate::pool::fixture::grid;
use test_fixtures::{Random, canonical_plan, in_layout, one_each};
use vrp_model::{Layout, MAX_NODES};

// The customers, who demand 1 each, and the arcs between them.
#[derive(Clone, Copy)]
enum Arcs {
    // A grid with this many columns and rows.
    Grid(u16, u16),
    // This many customers, with random arcs from 1 to this number; the two directions differ.
    OneDirection(u16, u32, u64),
    // This many customers, with random symmetric arcs from 1 to this number.
    BothDirections(u16, u32, u64),
}

// The arcs, the capacity, and the limit on trucks, if any.
type Given = (Arcs, u64, Option<u16>);

// Eight customers. With four trucks the canonical plan of the last one costs more than without a limit.
const SMALL: &[Given] = &[
    (Arcs::Grid(3, 3), 3, None),
    (Arcs::OneDirection(8, 2, 1), 2, None),
    (Arcs::OneDirection(8, 3, 2), 3, Some(3)),
    (Arcs::BothDirections(8, 2, 1), 3, Some(4)),
    (Arcs::BothDirections(8, 5, 2), 2, None),
    (Arcs::BothDirections(8, 5, 2), 2, Some(4)),
];

// The slow program tries all plans.
#[test]
fn as_by_trying_all_plans(rt: HostRuntime) {
    for given in SMALL {
        let instance = instance_of(&rt, rt.alloc(), *given);
        let canonical = canonical_plan(rt.alloc(), &instance).expect(&rt, "memory");
        let canonical = canonical.expect(&rt, "a plan");
        let (cost, word) = (canonical.cost, canonical.word.as_slice());
        assert_canonical_by_all(&rt, rt.alloc(), &instance, ALL_MOVES, cost, word);
    }
}

// Eleven to fourteen customers, and the cost and the word of the canonical plan, which a slow program outside found: it tries
// every route for each set of customers.
const LARGER: &[(Given, u64, &[u16])] = &[
    (
        (Arcs::Grid(4, 3), 3, Some(4)),
        176,
        &[2, 1, 5, 0, 3, 4, 0, 6, 8, 9, 0, 7, 11, 10, 0],
    ),
    (
        (Arcs::Grid(4, 3), 4, Some(3)),
        160,
        &[1, 2, 3, 0, 4, 7, 11, 10, 0, 6, 5, 8, 9, 0],
    ),
    (
        (Arcs::Grid(5, 3), 3, Some(5)),
        240,
        &[1, 2, 3, 0, 4, 5, 8, 0, 7, 6, 10, 0, 9, 14, 13, 0, 11, 12, 0],
    ),
    (
        (Arcs::OneDirection(11, 3, 1), 4, Some(3)),
        15,
        &[1, 6, 9, 0, 4, 2, 11, 5, 0, 10, 7, 8, 3, 0],
    ),
    (
        (Arcs::OneDirection(12, 4, 2), 3, None),
        25,
        &[2, 5, 10, 0, 3, 7, 8, 0, 6, 1, 9, 0, 11, 4, 12, 0],
    ),
    (
        (Arcs::OneDirection(14, 3, 3), 2, Some(7)),
        30,
        &[
            1, 8, 0, 3, 2, 0, 4, 5, 0, 6, 7, 0, 11, 9, 0, 13, 10, 0, 14, 12, 0,
        ],
    ),
    (
        (Arcs::BothDirections(11, 3, 1), 3, Some(4)),
        18,
        &[2, 6, 3, 0, 4, 1, 10, 0, 5, 7, 0, 9, 8, 11, 0],
    ),
    (
        (Arcs::BothDirections(12, 4, 2), 4, None),
        21,
        &[1, 10, 5, 9, 0, 2, 11, 6, 3, 0, 4, 8, 12, 7, 0],
    ),
    (
        (Arcs::BothDirections(14, 5, 3), 2, Some(7)),
        57,
        &[
            1, 8, 0, 2, 10, 0, 3, 11, 0, 4, 14, 0, 5, 7, 0, 6, 13, 0, 9, 12, 0,
        ],
    ),
];

#[test]
fn larger_ones(rt: HostRuntime) {
    for &(given, cost, word) in LARGER {
        let instance = instance_of(&rt, rt.alloc(), given);
        assert_canonical_by_all(&rt, rt.alloc(), &instance, STOPPED_MOVES, cost, word);
    }
}

fn instance_of(rt: &impl Abort, alloc: Global, (arcs, capacity, trucks): Given) -> Instance {
    let free = match arcs {
        Arcs::Grid(columns, rows) => grid(rt, alloc, (columns, rows), capacity),
        Arcs::OneDirection(customers, most, seed) => {
            let chance = (customers, most, seed);
            by_chance(rt, alloc, Layout::FullMatrix, chance, capacity)
        }
        Arcs::BothDirections(customers, most, seed) => {
            let chance = (customers, most, seed);
            by_chance(rt, alloc, Layout::UpperRow, chance, capacity)
        }
    };
    match trucks {
        Some(trucks) => limited(rt, free, trucks),
        None => free,
    }
}

fn limited(rt: &impl Abort, instance: Instance, trucks: u16) -> Instance {
    assert!(rt; 1 <= trucks && trucks <= MAX_NODES);
    instance.with_trucks(trucks)
}

// This many customers, with arcs from 1 to this number.
fn by_chance(
    rt: &impl Abort,
    alloc: Global,
    layout: Layout,
    (customers, most, seed): (u16, u32, u64),
    capacity: u64,
) -> Instance {
    assert!(rt; customers <= 20 && 1 <= most && most <= 10);
    let nodes = customers + 1;
    let mut random = Random(seed);
    let mut entries = Vec::new(alloc);
    for _ in 0..layout.entries(nodes) {
        let entry = u64::from(1 + random.next() % most);
        entries.push(entry).expect(rt, "memory");
    }
    let demands = one_each(alloc, usize::from(nodes)).expect(rt, "demands");
    in_layout(alloc, layout, &entries, &demands, capacity).expect(rt, "an instance")
}

// The budget of a piece. The first look has as many partial plans of the whole tree, which are not enough.
const BUDGET: u64 = 1_000;

// The least number of pieces, the budget of each, and the question from which on the gate continues. Here nothing is stopped.
const ALL_MOVES: ((u32, u64), u64) = ((64, BUDGET), 0);

// Four questions come from the four runs of ruin and recreate. These are stopped, so the heuristic plan comes from savings
// alone.
const STOPPED_MOVES: ((u32, u64), u64) = ((2_000, BUDGET), 4);
