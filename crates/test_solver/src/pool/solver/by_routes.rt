//! Answers by useful routes: of many plans of equal cost, any number of workers finds the first.
ghost use Rattle.std.specs.Prelude.{true};

use super::*;
use crate::pool::fixture::{four_trucks, grid, ten_nodes};
use std::sync::atomic::{AtomicU64, Ordering};
use vrp_solver::Event;

// The stage up to which a gate continues.
#[derive(Clone, Copy, PartialEq)]
enum Until {
    TheEnd,
    // Until the choice among routes begins.
    Choice,
    // Until the choice finds a plan cheaper than any before.
    CheaperChoice,
}

// Continues once it was asked this often.
#[derive(Drop)]
struct ContinuesLater {
    from: u64,
    until: Until,
    asked: AtomicU64,
    // The least cost of a plan so far.
    least: AtomicU64,
    // The cost of the cheaper plan that the choice found, 0 before.
    cheaper: AtomicU64,
    // The number of useful routes in the choice.
    routes: AtomicU64,
    // The number of finished pieces.
    done: AtomicU64,
}

impl ContinuesLater {
    fn from(from: u64, until: Until) -> ContinuesLater {
        ContinuesLater {
            from,
            until,
            asked: AtomicU64::new(0),
            least: AtomicU64::new(u64::MAX),
            cheaper: AtomicU64::new(0),
            routes: AtomicU64::new(0),
            done: AtomicU64::new(0),
        }
    }
}

impl Gate for ContinuesLater {
    ghost may_stop = { λ _. true };

    fn begins(&self, _worker: u32, _piece: u32) {}

    fn on_event(&self, news: Event) {
        match news {
            Event::UsefulRoutes(routes) => {
                self.routes.fetch_max(routes, Ordering::SeqCst);
            }
            Event::Done | Event::LeftOpen => {
                self.done.fetch_add(1, Ordering::SeqCst);
            }
            Event::Plan(cost) => {
                let is_cheaper = cost < self.least.fetch_min(cost, Ordering::SeqCst);
                let is_choice = 0 < self.routes.load(Ordering::SeqCst);
                if is_cheaper && is_choice && self.cheaper.load(Ordering::SeqCst) == 0 {
                    self.cheaper.store(cost, Ordering::SeqCst);
                }
            }
            _ => {}
        }
    }

    fn should_continue(&self) -> bool {
        let asked = self.asked.fetch_add(1, Ordering::SeqCst);
        let has_come = match self.until {
            Until::TheEnd => false,
            Until::Choice => 0 < self.routes.load(Ordering::SeqCst),
            Until::CheaperChoice => 0 < self.cheaper.load(Ordering::SeqCst),
        };
        self.from <= asked && !has_come
    }
}

// The columns and rows of a grid, the capacity, the number of pieces, the budget of each, and the cost and the word of the
// first plan, which a slow program outside found. The trees have more partial plans than the first look allows, which is
// 20,000 and at most the budget.
const GRIDS: &[((u16, u16), u64, (u32, u64), u64, &[u16])] = &[
    (
        (3, 3),
        3,
        (2_000, 1_000),
        122,
        &[1, 2, 0, 3, 5, 8, 0, 4, 6, 7, 0],
    ),
    (
        (4, 3),
        3,
        (2_000, 1_000),
        176,
        &[2, 1, 5, 0, 3, 4, 0, 6, 8, 9, 0, 7, 11, 10, 0],
    ),
    (
        (4, 3),
        4,
        (2_000, 1_000),
        160,
        &[1, 2, 3, 0, 4, 7, 11, 10, 0, 6, 5, 8, 9, 0],
    ),
    (
        (5, 3),
        4,
        (64, 10_000_000),
        212,
        &[1, 2, 3, 0, 4, 5, 9, 8, 0, 7, 6, 10, 11, 0, 12, 13, 14, 0],
    ),
];

// The gate stops the four runs of ruin and recreate at once, so the heuristic plan comes from savings alone.
#[test]
fn ties_by_any_number_of_workers(rt: HostRuntime) {
    for &(size, capacity, given, cost, word) in GRIDS {
        let instance = grid(&rt, rt.alloc(), size, capacity);
        assert_canonical_by_all(&rt, rt.alloc(), &instance, (given, 4), cost, word);
    }
}

// The first plan is from a slow program, and the second one as a search by pieces proves it.
#[test]
fn scattered_by_any_number_of_workers(rt: HostRuntime) {
    let alone = ten_nodes(&rt, rt.alloc());
    let round = [6, 2, 7, 1, 5, 9, 3, 4, 8, 0];
    let given = ((2_000, 1_000), 4);
    assert_canonical_by_all(&rt, rt.alloc(), &alone, given, 322, &round);
    let four = four_trucks(&rt, rt.alloc());
    let word = [
        6, 1, 2, 5, 7, 9, 0, 10, 8, 3, 4, 11, 13, 0, 12, 15, 18, 20, 17, 0, 14, 21, 19, 16, 0,
    ];
    let given = ((64, 10_000_000), 4);
    assert_canonical_by_all(&rt, rt.alloc(), &four, given, 375, &word);
}

// A stopped choice leaves everything to the pieces. They find no plan below the least cost, and prove none.
#[test]
fn stopped_choice(rt: HostRuntime) {
    let instance = grid(&rt, rt.alloc(), (5, 3), 4);
    for workers in [1, 2, 8] {
        let gate = ContinuesLater::from(4, Until::Choice);
        let asked = (workers, 64, 10_000_000);
        let answer = answer_behind(&rt, rt.alloc(), &instance, asked, &gate);
        let is_left =
            matches!(&answer, Answer::Open { plan: Some(plan), .. } if plan.cost() >= 212);
        assert!(rt; is_left, "{workers}");
        let done = gate.done.load(Ordering::SeqCst);
        assert!(rt; 64 <= done, "{done}, by {workers}");
    }
}

// If the choice found a cheaper plan than that by savings, and is stopped then, the pieces begin with that plan. They are
// stopped too, so none of them has a better one; the cheapest costs 212. A choice has its routes in any order, and a word by first stops.
#[test]
fn cheaper_choice(rt: HostRuntime) {
    let instance = grid(&rt, rt.alloc(), (5, 3), 4);
    for workers in [1, 2, 8] {
        let gate = ContinuesLater::from(4, Until::CheaperChoice);
        let asked = (workers, 64, 10_000_000);
        let answer = answer_behind(&rt, rt.alloc(), &instance, asked, &gate);
        let cheaper = gate.cheaper.load(Ordering::SeqCst);
        let is_told =
            matches!(&answer, Answer::Open { plan: Some(plan), .. } if plan.cost() == cheaper);
        assert!(rt; is_told && 212 <= cheaper, "{cheaper}, by {workers}");
    }
}

/// Asserts that one worker, two and eight find this plan by routes, with this many pieces and this budget, when a gate
/// continues from this question on.
pub(super) fn assert_canonical_by_all<R: Abort + Threads + Wait + Sync>(
    rt: &R,
    alloc: Global,
    instance: &Instance,
    ((pieces, budget), from): ((u32, u64), u64),
    cost: u64,
    word: &[u16],
) {
    for workers in [1, 2, 8] {
        let gate = ContinuesLater::from(from, Until::TheEnd);
        let asked = (workers, pieces, budget);
        let answer = answer_behind(rt, alloc, instance, asked, &gate);
        assert_chosen(rt, &gate, &answer, (asked, from));
        assert_canonical(rt, &answer, cost, word);
    }
}

// Asserts that an answer came from routes: there were some, and no piece was searched.
fn assert_chosen(rt: &impl Abort, gate: &ContinuesLater, answer: &Answer, asked: (Asked, u64)) {
    assert!(rt; matches!(answer, Answer::Proven(_)), "{asked:?}");
    let routes = gate.routes.load(Ordering::SeqCst);
    let done = gate.done.load(Ordering::SeqCst);
    assert!(rt; 1 <= routes && done == 0, "{routes} {done}, at {asked:?}");
}

// Asserts the cost and the word of an answer's plan.
fn assert_canonical(rt: &impl Abort, answer: &Answer, cost: u64, word: &[u16]) {
    let found = answer.plan().map(Plan::cost);
    assert!(rt; found == Some(cost), "{found:?} is not {cost}");
    let is_word = answer.plan().is_some_and(|plan| plan.word() == word);
    assert!(rt; is_word, "another plan of cost {cost}");
}
