//! Answers by column generation: which stages such a run has, with any number of workers.
use super::*;
use crate::pool::fixture::{four_trucks, grid, varied};
use std::sync::atomic::{AtomicU64, Ordering};
use vrp_solver::{Event, Stage};

// Notes the stages: a bit for each.
#[derive(Drop)]
struct Stages {
    seen: AtomicU64,
    // The greatest lower bound on all plans.
    bound: AtomicU64,
}

// The bit of a stage.
fn bit(stage: Stage) -> u64 {
    match stage {
        Stage::StartPlan => 1,
        Stage::Columns => 2,
        Stage::Choice => 4,
        _ => 8,
    }
}

// A start plan, column generation, the choice, and nothing else.
const BY_COLUMNS: u64 = 7;

impl Gate for Stages {
    fn begins(&self, _worker: u32, _piece: u32) {}

    fn on_event(&self, news: Event) {
        match news {
            Event::Begins(stage) => {
                self.seen.fetch_or(bit(stage), Ordering::SeqCst);
            }
            Event::Bound(bound) => {
                self.bound.fetch_max(bound.rounded_up(), Ordering::SeqCst);
            }
            _ => {}
        }
    }

    fn should_continue(&self) -> bool {
        true
    }
}

// Asserts that a run by this many workers proves a plan of this cost by column generation alone.
fn assert_by_columns<R: Abort + Threads + Wait + Sync>(
    rt: &R,
    alloc: Global,
    instance: &Instance,
    workers: u32,
    cost: u64,
) {
    let stages = Stages {
        seen: AtomicU64::new(0),
        bound: AtomicU64::new(0),
    };
    let asked = (workers, 64, 10_000_000);
    let told = Told::by(&answer_behind(rt, alloc, instance, asked, &stages));
    assert!(rt; told == Told::Proven(cost), "{told:?}");
    let seen = stages.seen.load(Ordering::SeqCst);
    assert!(rt; seen == BY_COLUMNS, "stages {seen}");
    let bound = stages.bound.load(Ordering::SeqCst);
    assert!(rt; 0 < bound && bound <= cost, "{bound}");
}

// The costs are those of programs outside: the best known one, a slow program's, and a plain column generation's.
#[test]
fn proven_by_columns(rt: HostRuntime) {
    let four = four_trucks(&rt, rt.alloc());
    let ties = grid(&rt, rt.alloc(), (5, 3), 4);
    let many = varied(&rt, rt.alloc(), 1, 60, 1_500);
    for workers in [1, 3] {
        assert_by_columns(&rt, rt.alloc(), &four, workers, 375);
        assert_by_columns(&rt, rt.alloc(), &ties, workers, 212);
        assert_by_columns(&rt, rt.alloc(), &many, workers, 881);
    }
}

// Of these, column generation branches on the number of routes: what is told of one leaf isn't told of all plans.
#[test]
fn proven_by_leaves(rt: HostRuntime) {
    for (seed, cost) in [(1, 940), (2, 952), (8, 993)] {
        let branched = varied(&rt, rt.alloc(), seed, 40, 900);
        assert_by_columns(&rt, rt.alloc(), &branched, 2, cost);
    }
}
