//! A search with a time that gives no answer by routes: which stages follow one another, and how long each may take.
ghost use Rattle.std.specs.Prelude.{true};

use super::*;
use crate::pool::fixture::varied;
use std::sync::atomic::{AtomicU64, Ordering};
use vrp_solver::{Event, Stage};

// In each stage the time jumps at this question.
const QUESTIONS: u64 = 6;

// One part in this many is left then: less than any stage keeps for the later ones.
const PARTS: u64 = 8;

// The milliseconds at the start.
const TIME: u64 = 8_000_000;

// The stages, each a digit, and what follows the last one.
const START_PLAN: u64 = 1;

const PRICES: u64 = 2;

const BETTER_PLANS: u64 = 4;

const PIECES: u64 = 5;

const COLUMNS: u64 = 6;

const END: u64 = 0;

// A gate whose clock goes by its questions. It stops the start plan and the pieces by its answers; any other stage sees from the
// clock that its part of the time is over.
#[derive(Drop)]
struct Clock {
    // The stages so far, a digit each.
    stages: AtomicU64,
    // The questions in the present stage, and those in each stage before it, a digit each.
    asked: AtomicU64,
    questions: AtomicU64,
    // The milliseconds left when the present stage began.
    left: AtomicU64,
    // The greatest bound on all plans, and the least cost of a plan.
    bound: AtomicU64,
    least: AtomicU64,
}

impl Clock {
    fn new() -> Clock {
        Clock {
            stages: AtomicU64::new(0),
            asked: AtomicU64::new(0),
            questions: AtomicU64::new(0),
            left: AtomicU64::new(TIME),
            bound: AtomicU64::new(0),
            least: AtomicU64::new(u64::MAX),
        }
    }

    // A stage begins.
    fn begin(&self, stage: u64) {
        let left = self.now();
        self.left.store(left, Ordering::SeqCst);
        push_digit(&self.questions, self.asked.swap(0, Ordering::SeqCst));
        push_digit(&self.stages, stage);
    }

    // The milliseconds left.
    fn now(&self) -> u64 {
        let left = self.left.load(Ordering::SeqCst);
        if self.asked.load(Ordering::SeqCst) < QUESTIONS {
            left
        } else {
            left / PARTS
        }
    }
}

// The digit of a stage.
fn digit_of(stage: Stage) -> u64 {
    match stage {
        Stage::StartPlan => START_PLAN,
        Stage::Columns => COLUMNS,
        Stage::Prices => PRICES,
        Stage::BetterPlans => BETTER_PLANS,
        Stage::Pieces => PIECES,
        Stage::FirstLook | Stage::Choice => END,
    }
}

// Adds a decimal digit; a larger number counts as 9.
fn push_digit(digits: &AtomicU64, digit: u64) {
    let before = digits.load(Ordering::SeqCst);
    let longer = before.wrapping_mul(10).wrapping_add(digit.min(9));
    digits.store(longer, Ordering::SeqCst);
}

impl Gate for Clock {
    ghost may_stop = { λ _. true };

    fn begins(&self, _worker: u32, _piece: u32) {}

    fn on_event(&self, news: Event) {
        match news {
            Event::Begins(stage) => self.begin(digit_of(stage)),
            Event::Bound(bound) => {
                self.bound.fetch_max(bound.rounded_up(), Ordering::SeqCst);
            }
            Event::Plan(cost) => {
                self.least.fetch_min(cost, Ordering::SeqCst);
            }
            _ => {}
        }
    }

    fn should_continue(&self) -> bool {
        let asked = self.asked.fetch_add(1, Ordering::SeqCst);
        let stage = self.stages.load(Ordering::SeqCst) % 10;
        (stage != START_PLAN && stage != PIECES) || asked < QUESTIONS
    }

    fn milliseconds_left(&self) -> Option<u64> {
        Some(self.now())
    }
}

// Column generation and the search for prices stop when their part of the time is over, and not before: at the question at which it
// jumps. The search for better plans stops there too, and asks once more. By savings a program outside finds plans that cost 918 to 946.
#[test]
fn stages_within_a_time(rt: HostRuntime) {
    let instance = varied(&rt, rt.alloc(), 1, 60, 1_500);
    let clock = Clock::new();
    let answer = answer_behind(&rt, rt.alloc(), &instance, (1, 64, 20_000_000), &clock);
    clock.begin(END);
    let stages = clock.stages.load(Ordering::SeqCst);
    assert!(rt; stages == 162_450, "{stages}");
    let questions = clock.questions.load(Ordering::SeqCst);
    assert!(rt; questions == 96_679, "{questions}");
    let bound = clock.bound.load(Ordering::SeqCst);
    let least = clock.least.load(Ordering::SeqCst);
    let is_between = 0 < bound && bound <= least && least <= 946;
    assert!(rt; is_between, "{bound} {least}");
    assert!(rt; Told::by(&answer) == Told::Open(Some(least)), "{least}");
}
