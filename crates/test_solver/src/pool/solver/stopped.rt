//! Answers of searches that a gate stops, and the events that it hears.
ghost use Rattle.std.specs.Prelude.{true};

use super::*;
use crate::pool::fixture::four_trucks;
use std::sync::atomic::{AtomicU64, Ordering};
use vrp_solver::Event;

// Continues while the number of questions asked before is at least the first number and below the second.
#[derive(Drop)]
pub(super) struct Continues {
    from: u64,
    below: u64,
    asked: AtomicU64,
    // The number of partial plans looked at.
    looked: AtomicU64,
    // The number of finished pieces.
    done: AtomicU64,
    // The least cost of a plan.
    least: AtomicU64,
    // The bound by prices.
    bound: AtomicU64,
    // The number of useful routes in the choice.
    routes: AtomicU64,
}

impl Continues {
    pub(super) fn between(from: u64, below: u64) -> Continues {
        Continues {
            from,
            below,
            asked: AtomicU64::new(0),
            looked: AtomicU64::new(0),
            done: AtomicU64::new(0),
            least: AtomicU64::new(u64::MAX),
            bound: AtomicU64::new(0),
            routes: AtomicU64::new(0),
        }
    }
}

impl Gate for Continues {
    ghost may_stop = { λ _. true };

    fn begins(&self, _worker: u32, _piece: u32) {}

    fn on_event(&self, news: Event) {
        match news {
            Event::Looked(more) => {
                self.looked.fetch_add(more, Ordering::SeqCst);
            }
            Event::Done | Event::LeftOpen => {
                self.done.fetch_add(1, Ordering::SeqCst);
            }
            Event::Plan(cost) => {
                self.least.fetch_min(cost, Ordering::SeqCst);
            }
            Event::Bound(bound) => {
                self.bound.fetch_max(bound.rounded_up(), Ordering::SeqCst);
            }
            Event::UsefulRoutes(routes) => {
                self.routes.fetch_max(routes, Ordering::SeqCst);
            }
            Event::Begins(_) | Event::PieceCount(_) | Event::Labels(_) => {}
            Event::Nodes { .. } | Event::Cheaper(_) => {}
        }
    }

    fn should_continue(&self) -> bool {
        let asked = self.asked.fetch_add(1, Ordering::SeqCst);
        self.from <= asked && asked < self.below
    }
}

// The numbers between which the gate continues, and how many partial plans are looked at in all. With a budget of 999 nothing
// precedes the pieces, and each takes more. With a larger one the gate is asked once in each of four runs of ruin and
// recreate, which it stops, once before columns are generated, and once before the rounds for prices. Column generation that is begun and
// stopped leaves everything to the pieces.
const STOPPED: &[(Asked, (u64, u64), u64)] = &[
    ((1, 21, 999), (0, 0), 21),
    ((2, 21, 999), (0, 0), 21),
    ((8, 21, 999), (0, 0), 21),
    ((1, 21, 999), (0, 1), 1_019),
    ((2, 21, 999), (0, 1), 1_019),
    ((8, 21, 999), (0, 1), 1_019),
    ((1, 21, AMPLE), (0, 0), 21),
    ((1, 1, 100_000_000), (4, 5), 1),
    ((1, 1, 100_000_000), (5, 6), 1),
    ((1, 1, 100_000_000), (6, 6), 1),
    ((1, 1, 100_000_000), (6, 7), 65_536),
    ((1, 1, 100_000_000), (6, 8), 131_072),
    ((1, 1, 120_000), (6, 8), 120_000),
];

#[test]
fn stopped_searches(rt: HostRuntime) {
    let instance = four_trucks(&rt, rt.alloc());
    for &(asked, (from, below), looked) in STOPPED {
        let gate = Continues::between(from, below);
        let answer = answer_behind(&rt, rt.alloc(), &instance, asked, &gate);
        let is_open = matches!(answer, Answer::Open { .. });
        assert!(rt; is_open, "{asked:?} {below}");
        assert_heard(&rt, &gate, asked, looked);
    }
}

// Asserts how many partial plans a gate has heard of, and that all pieces are done.
fn assert_heard(rt: &impl Abort, gate: &Continues, asked: Asked, looked: u64) {
    let heard = gate.looked.load(Ordering::SeqCst);
    assert!(rt; heard == looked, "{heard} is not {looked}, at {asked:?}");
    let done = gate.done.load(Ordering::SeqCst);
    assert!(rt; done == u64::from(asked.1), "{done}, at {asked:?}");
}

// A gate that stops nothing hears of the plan that is proved, of a bound below it, and of the routes of the choice, of which
// that plan has four.
#[test]
fn events_of_a_gate(rt: HostRuntime) {
    let instance = four_trucks(&rt, rt.alloc());
    for workers in [1, 2] {
        let gate = Continues::between(0, u64::MAX);
        let answer = answer_behind(&rt, rt.alloc(), &instance, (workers, 21, AMPLE), &gate);
        assert!(rt; matches!(answer, Answer::Proven(_)), "not proven");
        let least = gate.least.load(Ordering::SeqCst);
        assert!(rt; least == 375, "{least}");
        let bound = gate.bound.load(Ordering::SeqCst);
        assert!(rt; 365 < bound && bound <= 375, "{bound}");
        let routes = gate.routes.load(Ordering::SeqCst);
        assert!(rt; 4 <= routes, "{routes}");
    }
}
