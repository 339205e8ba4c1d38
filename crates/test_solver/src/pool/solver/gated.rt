//! Answers when a gate holds pieces until others have begun.
ghost use Rattle.std.specs.Prelude.{◌*◌, ◌≤◌, length};
ghost use Rattle.vrp_search_tree.specs.Cutting.{IsCutting};
ghost use Rattle.vrp_search_tree.specs.declared.cutting.TheConstants.{MAX_REFINED};

use super::*;
use crate::pool::fixture::seven_nodes;
use std::sync::atomic::{AtomicU64, Ordering};
use std::thread::yield_now;

// How often a held piece checks whether others have begun.
const TURNS: u64 = 10_000_000;

// What a gate holds.
#[derive(Clone, Copy)]
enum Held {
    // Piece 0.
    First,
    // Worker 0, for any piece.
    Lead,
    All,
}

// Holds pieces until this many have begun, or one has checked too often.
#[derive(Drop)]
struct Holds {
    held: Held,
    wanted: u64,
    begun: AtomicU64,
    // How many pieces were released only because they had checked too often.
    let_go: AtomicU64,
}

impl Holds {
    fn until(held: Held, wanted: u64) -> Holds {
        Holds {
            held,
            wanted,
            begun: AtomicU64::new(0),
            let_go: AtomicU64::new(0),
        }
    }
}

impl Gate for Holds {
    fn begins(&self, worker: u32, piece: u32) {
        self.begun.fetch_add(1, Ordering::SeqCst);
        let passes = match self.held {
            Held::First => piece > 0,
            Held::Lead => worker > 0,
            Held::All => false,
        };
        if passes {
            return;
        }
        for _ in 0..TURNS {
            if self.wanted <= self.begun.load(Ordering::SeqCst) {
                return;
            }
            yield_now();
        }
        self.let_go.fetch_add(1, Ordering::SeqCst);
    }
}

// A cutting that was refined at these pieces in turn.
fn refined(rt: &impl Abort, alloc: Global, instance: &Instance, numbers: &[u32]) -> Cutting
    ensures cutting { IsCutting instance.now result }
    ensures few { length result ≤ 2 * MAX_REFINED }
{
    let mut cutting = Cutting::whole(alloc, instance).expect(rt, "memory");
    for number in numbers {
        assert!(rt; (*number as usize) < cutting.pieces().len());
        assert!(rt; cutting.pieces().len() <= 100);
        let is_refined = cutting.refine(alloc, instance, *number);
        is_refined.expect(rt, "memory");
    }
    cutting
}

// This many workers, with this budget for each piece, behind a gate.
#[derive(Clone, Copy)]
struct Team<'a> {
    workers: u32,
    budget: u64,
    gate: &'a Holds,
}

// Asserts that a team proves a plan of this cost, and that no hold ended by the limit of checks.
fn assert_proven_behind<R: Abort + Threads + Wait + Sync>(
    rt: &R,
    alloc: Global,
    instance: &Instance,
    cutting: Cutting,
    team: Team<'_>,
    cost: u64,
)
    requires cutting { IsCutting instance.now cutting }
    requires few { length cutting ≤ 2 * MAX_REFINED }
{
    let crew = (team.workers, team.budget);
    let answer = answer_of_pieces(rt, alloc, instance, cutting, crew, team.gate);
    let let_go = team.gate.let_go.load(Ordering::SeqCst);
    assert!(rt; let_go == 0, "{let_go} were let go, at {crew:?}");
    let told = Told::by(&answer);
    assert!(rt; told == Told::Proven(cost), "{told:?}, at {crew:?}");
}

// Piece 0 is 1 0, and piece 1 is 1 2 0, the plan of least cost: given that plan, no plan under piece 0 is of use, so a budget
// of 1 is enough for each. If one worker draws all pieces, or each draws as many, the hold on piece 0 ends only by the limit
// of checks.
#[test]
fn others_begin_while_one_is_held(rt: HostRuntime) {
    let instance = three_nodes(&rt, rt.alloc(), 2);
    for (workers, budget) in [(2, 1), (2, 11), (8, 1), (8, 11)] {
        let cutting = refined(&rt, rt.alloc(), &instance, &[0, 0, 1, 2, 3]);
        assert_words(&rt, &cutting, &[&[1, 0], &[1, 2, 0], &[2, 0], &[2, 1]]);
        let gate = Holds::until(Held::First, 4);
        let team = Team {
            workers,
            budget,
            gate: &gate,
        };
        assert_proven_behind(&rt, rt.alloc(), &instance, cutting, team, 20);
    }
}

// Asserts the words of a cutting's pieces.
fn assert_words(rt: &impl Abort, cutting: &Cutting, words: &[&[u16]]) {
    assert!(rt; cutting.pieces().len() == words.len());
    for (piece, word) in cutting.pieces().iter().zip(words) {
        assert!(rt; piece.word() == *word);
    }
}

// The plans under piece 0 are costly, and a search of it with its own plans alone takes 298 partial plans. If its worker
// learns of the plan that the other found, 150 are enough.
#[test]
fn plan_of_one_worker_serves_another(rt: HostRuntime) {
    let instance = seven_nodes(&rt, rt.alloc());
    let cutting = refined(&rt, rt.alloc(), &instance, &[0, 0]);
    let gate = Holds::until(Held::First, cutting.pieces().len() as u64);
    let team = Team {
        workers: 2,
        budget: 200,
        gate: &gate,
    };
    assert_proven_behind(&rt, rt.alloc(), &instance, cutting, team, 312);
}

// A helper draws and searches as long as there are pieces.
#[test]
fn one_helper_searches_all_others(rt: HostRuntime) {
    let instance = ring(&rt, rt.alloc());
    let cutting = cut_into(&rt, rt.alloc(), &instance, 10_000);
    let gate = Holds::until(Held::Lead, cutting.pieces().len() as u64);
    let team = Team {
        workers: 2,
        budget: ENOUGH,
        gate: &gate,
    };
    assert_proven_behind(&rt, rt.alloc(), &instance, cutting, team, 100);
}

// As many workers are at work at once as requested: each holds its first piece until all have begun.
#[test]
fn all_work_at_once(rt: HostRuntime) {
    let instance = ring(&rt, rt.alloc());
    for workers in [2, 3, 9, 64] {
        let cutting = cut_into(&rt, rt.alloc(), &instance, 1_000);
        let gate = Holds::until(Held::All, u64::from(workers));
        let team = Team {
            workers,
            budget: ENOUGH,
            gate: &gate,
        };
        assert_proven_behind(&rt, rt.alloc(), &instance, cutting, team, 100);
    }
}
