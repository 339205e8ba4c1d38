//! Answers by one worker and by several.
ghost use Rattle.std.specs.Prelude.{◌*◌, ◌≤◌, length};
ghost use Rattle.vrp_search_tree.specs.Cutting.{IsCutting};
ghost use Rattle.vrp_search_tree.specs.declared.cutting.TheConstants.{MAX_REFINED};

use crate::pool::fixture::{cut_into, depot_alone, line, ring, ten_nodes, three_nodes};
use std::alloc::Global;
use std::process::Abort;
use std::sync::Wait;
use std::thread::Threads;
use vrp_heuristic::heuristic_plan;
use vrp_model::{Crew, Instance, Plan, Unhurried};
use vrp_search_tree::{Cutting, MAX_PIECES};
use vrp_solver::{Answer, Gate, MAX_WORKERS, NoGate, solve};

mod by_routes;
mod choices_with_ties;
mod columns;
mod gated;
mod stopped;
mod timed;

use stopped::Continues;

const AMPLE: u64 = 1_000_000;

// The largest budget without a look before the pieces; it is enough for each piece of a small tree.
const ENOUGH: u64 = 999;

// Workers, pieces, and the budget of each piece.
type Asked = (u32, u32, u64);

// The workers' answer behind a gate, for a cutting into at least this many pieces.
fn answer_behind<R: Abort + Threads + Wait + Sync, G: Gate + Sync>(
    rt: &R,
    alloc: Global,
    instance: &Instance,
    (workers, pieces, budget): Asked,
    gate: &G,
) -> Answer {
    let cutting = cut_into(rt, alloc, instance, pieces);
    answer_of_pieces(rt, alloc, instance, cutting, (workers, budget), gate)
}

// The answer of this many workers for a cutting, with this budget for each piece.
fn answer_of_pieces<R: Abort + Threads + Wait + Sync, G: Gate + Sync>(
    rt: &R,
    alloc: Global,
    instance: &Instance,
    cutting: Cutting,
    crew: (u32, u64),
    gate: &G,
) -> Answer
    requires cutting { IsCutting instance.now cutting }
    requires few { length cutting ≤ 2 * MAX_REFINED }
{
    let (workers, budget) = crew;
    assert!(rt; 1 <= workers && workers <= MAX_WORKERS && 1 <= budget);
    let answer = solve(rt, alloc, instance, cutting, workers, budget, gate);
    answer.expect(rt, "memory")
}

// The content of an answer: a verdict, and the cost of its plan, if there is one.
#[derive(Clone, Copy, Debug, PartialEq, Eq)]
enum Told {
    Proven(u64),
    Open(Option<u64>),
    NoPlan,
}

impl Told {
    fn by(answer: &Answer) -> Told {
        match answer {
            Answer::Proven(plan) => Told::Proven(plan.cost()),
            Answer::Open { plan, .. } => Told::Open(plan.as_ref().map(Plan::cost)),
            Answer::NoPlan => Told::NoPlan,
        }
    }
}

// Asserts the answer for an instance without a gate.
fn assert_told<R: Abort + Threads + Wait + Sync>(
    rt: &R,
    alloc: Global,
    instance: &Instance,
    asked: Asked,
    wanted: Told,
) {
    let told = Told::by(&answer_behind(rt, alloc, instance, asked, &NoGate));
    assert!(rt; told == wanted, "{told:?} is not {wanted:?}, at {asked:?}");
}

// Asserts that a search by this many workers of this many pieces proves a plan, its cost and its word: by the pieces, and by
// a look before them.
fn assert_proven<R: Abort + Threads + Wait + Sync>(
    rt: &R,
    alloc: Global,
    instance: &Instance,
    (workers, pieces): (u32, u32),
    cost: u64,
    word: &[u16],
) {
    for budget in [ENOUGH, AMPLE] {
        let asked = (workers, pieces, budget);
        let answer = answer_behind(rt, alloc, instance, asked, &NoGate);
        let is_proven = Told::by(&answer) == Told::Proven(cost);
        assert!(rt; is_proven, "{asked:?}");
        let is_word = answer.plan().is_some_and(|plan| plan.word() == word);
        assert!(rt; is_word, "another plan at {asked:?}");
    }
}

#[test]
fn small(rt: HostRuntime) {
    let instance = three_nodes(&rt, rt.alloc(), 2);
    for workers in [1, 2, 8] {
        for pieces in [1, 2, 4] {
            let crew = (workers, pieces);
            assert_proven(&rt, rt.alloc(), &instance, crew, 20, &[1, 2, 0]);
        }
    }
    assert_proven(&rt, rt.alloc(), &instance, (64, 1), 20, &[1, 2, 0]);
}

#[test]
fn no_customers(rt: HostRuntime) {
    let instance = depot_alone(&rt, rt.alloc());
    for crew in [(1, 1), (2, 2)] {
        assert_proven(&rt, rt.alloc(), &instance, crew, 0, &[]);
    }
}

#[test]
fn left_open(rt: HostRuntime) {
    let instance = three_nodes(&rt, rt.alloc(), 2);
    for workers in [1, 2, 8] {
        let answer = answer_behind(&rt, rt.alloc(), &instance, (workers, 1, 1), &NoGate);
        let is_left = match &answer {
            Answer::Open {
                plan: Some(plan),
                low: 20,
                piece: 0,
            } => plan.cost() == 30 && plan.word() == [1, 0, 2, 0].as_slice(),
            _ => false,
        };
        assert!(rt; is_left, "{workers}");
    }
}

// The gate stops the runs of ruin and recreate, the prices and the pieces, so the plan by savings is all that there is: as one piece
// and as several, with any number of trucks.
#[test]
fn start_plan_by_savings(rt: HostRuntime) {
    let free = line(&rt, rt.alloc());
    let crew = Crew {
        rt: &rt,
        alloc: rt.alloc(),
        workers: 1,
        watch: &Unhurried,
    };
    let savings = heuristic_plan(&crew, &free, 0).expect(&rt, "memory");
    assert!(rt; savings.plan.is_some_and(|plan| plan.cost() == 400));
    let limited = line(&rt, rt.alloc()).with_trucks(2);
    for instance in [&free, &limited] {
        for (workers, pieces) in [(1, 1), (2, 1), (1, 20), (2, 20)] {
            let with = (workers, pieces, 1_000);
            let gate = Continues::between(0, 0);
            let answer = answer_behind(&rt, rt.alloc(), instance, with, &gate);
            let told = Told::by(&answer);
            assert!(rt; told == Told::Open(Some(400)), "{told:?}, at {with:?}");
            assert_costlier_without(&rt, rt.alloc(), instance, (workers, pieces));
        }
    }
}

// Asserts that no plan as cheap is found with a budget that is too small for a heuristic plan.
fn assert_costlier_without<R: Abort + Threads + Wait + Sync>(
    rt: &R,
    alloc: Global,
    instance: &Instance,
    (workers, pieces): (u32, u32),
) {
    let answer = answer_behind(rt, alloc, instance, (workers, pieces, 999), &NoGate);
    let is_as_cheap = answer.plan().is_some_and(|plan| plan.cost() <= 400);
    assert!(rt; !is_as_cheap, "{workers} {pieces}");
}

// Starting from the plan by savings, which is the cheapest, one worker looks at 9,927 partial plans, and from one truck for each
// customer at 42,968, by the plain kernel of bench/.
#[test]
fn start_plan_comes_before_the_search(rt: HostRuntime) {
    let instance = ten_nodes(&rt, rt.alloc());
    let without = answer_behind(&rt, rt.alloc(), &instance, (1, 1, 999), &NoGate);
    assert!(rt; matches!(without, Answer::Open { .. }));
    // From the sixth question on: before it are those of four runs of ruin and recreate, and that of column generation.
    let gate = Continues::between(5, u64::MAX);
    let answer = answer_behind(&rt, rt.alloc(), &instance, (1, 1, 10_000), &gate);
    assert!(rt; Told::by(&answer) == Told::Proven(322));
}

// A piece uses its whole budget and no more: in the tree of the ring one worker looks at 834 partial plans, by the plain kernel of bench/,
// and the tree of the line has more than 999.
#[test]
fn budget_of_a_piece(rt: HostRuntime) {
    let (ring, line) = (ring(&rt, rt.alloc()), line(&rt, rt.alloc()));
    for (instance, budget, ends) in [(&ring, 833, false), (&ring, 834, true), (&line, 999, false)] {
        let answer = answer_behind(&rt, rt.alloc(), instance, (1, 1, budget), &NoGate);
        assert!(rt; matches!(answer, Answer::Proven(_)) == ends, "{budget}");
    }
}

#[test]
fn too_few_trucks(rt: HostRuntime) {
    let instance = three_nodes(&rt, rt.alloc(), 1).with_trucks(1);
    for (workers, pieces) in [(1, 1), (2, 2), (8, 4)] {
        for budget in [ENOUGH, AMPLE] {
            let asked = (workers, pieces, budget);
            assert_told(&rt, rt.alloc(), &instance, asked, Told::NoPlan);
        }
    }
}

#[test]
fn many_pieces(rt: HostRuntime) {
    let instance = ring(&rt, rt.alloc());
    let cutting = cut_into(&rt, rt.alloc(), &instance, MAX_PIECES);
    assert!(rt; 65_536 <= cutting.pieces().len());
    let round = [1, 2, 3, 4, 5, 6, 7, 8, 9, 0];
    for crew in [(1, 1), (8, MAX_PIECES)] {
        assert_proven(&rt, rt.alloc(), &instance, crew, 100, &round);
    }
}
