//! A gate that reports the progress of a run on standard error.
ghost use Rattle.std.specs.Prelude.{◌≡◌};

use crate::progress_line::{Line, LongRun, RunState};
use std::io::{Eprint, Write};
use std::sync::atomic::{AtomicU64, Ordering};
use std::time::{Clock, Instant};
use vrp_answer::{Event, Gate, Stage, Status};
use vrp_bound::LowerBound;

// The mark for no cost.
const NO_PLAN: u64 = u64::MAX;

// After this many seconds a run without `--progress` prints one line.
const LONG_RUN: u64 = 10;

/// A gate that reports the progress of a run on standard error, and passes all events on to another gate. With `--progress` it prints a
/// line when something is new, and about every second; otherwise, if no time is set, one line after ten seconds. If a line can't be
/// written, the run goes on. No clause says what the lines say.
#[derive(Drop)]
pub struct Progress<'a, T, G: Gate> {
    rt: &'a T,
    tells: bool,
    // `None` if the clock failed.
    start: Option<Instant>,
    gate: &'a G,
    // The number of the stage.
    stage: AtomicU64,
    cost: AtomicU64,
    // The cost of the cheapest plan that a line reported.
    told: AtomicU64,
    // In hundredths.
    bound: AtomicU64,
    labels: AtomicU64,
    routes: AtomicU64,
    nodes_done: AtomicU64,
    nodes_open: AtomicU64,
    pieces: AtomicU64,
    done: AtomicU64,
    left_open: AtomicU64,
    looked: AtomicU64,
    // The second in which the next line is due.
    due: AtomicU64,
    // 1 once the line of a long run is printed.
    said: AtomicU64,
}

impl<'a, T: Clock + Eprint, G: Gate> Progress<'a, T, G> {
    /// Nothing is known yet.
    pub fn new(rt: &'a T, tells: bool, gate: &'a G) -> Progress<'a, T, G>
        ensures gate { result.gate.now ≡ gate.entry.now }
    {
        Progress {
            rt,
            tells,
            start: Instant::now(rt).ok(),
            gate,
            stage: AtomicU64::new(Stage::FirstLook as u64),
            cost: AtomicU64::new(NO_PLAN),
            told: AtomicU64::new(NO_PLAN),
            bound: AtomicU64::new(0),
            labels: AtomicU64::new(0),
            routes: AtomicU64::new(0),
            nodes_done: AtomicU64::new(0),
            nodes_open: AtomicU64::new(0),
            pieces: AtomicU64::new(0),
            done: AtomicU64::new(0),
            left_open: AtomicU64::new(0),
            looked: AtomicU64::new(0),
            due: AtomicU64::new(1),
            said: AtomicU64::new(0),
        }
    }

    /// Prints the last line to `errors`, if the search has a verdict and lines are printed. A proven plan is its own lower bound. No clause
    /// says what the line says.
    pub fn tell_end<E: Write>(&self, verdict: Option<Status>, errors: &mut E) {
        let Some(status) = verdict else {
            return;
        };
        if !self.tells || status == Status::Lawful {
            return;
        }
        if status == Status::Proven {
            let bound = LowerBound::of_cost(self.cost.load(Ordering::Relaxed));
            self.bound.store(bound.hundredths, Ordering::Relaxed);
        }
        // If it can't be written, nobody is told.
        let _ = writeln!(errors, "{}", self.line(RunState::Ended(status)));
    }

    // The seconds since the start, if the clock works.
    fn seconds(&self) -> Option<u64> {
        Some(self.start?.elapsed(self.rt).ok()?.as_secs())
    }

    // Prints a line.
    fn tell(&self) {
        if self.tells {
            // If it can't be written, nobody is told.
            let _ = self.rt.eprintln(self.line(RunState::At(self.stage())));
        }
    }

    // The line of a state.
    fn line(&self, state: RunState) -> Line {
        let cost = self.cost.load(Ordering::Relaxed);
        let bound = LowerBound {
            hundredths: self.bound.load(Ordering::Relaxed),
        };
        Line {
            state,
            seconds: self.seconds(),
            cost: if cost == NO_PLAN { None } else { Some(cost) },
            bound: if bound.hundredths == 0 {
                None
            } else {
                Some(bound)
            },
            labels: self.labels.load(Ordering::Relaxed),
            routes: self.routes.load(Ordering::Relaxed),
            nodes_done: self.nodes_done.load(Ordering::Relaxed),
            nodes_open: self.nodes_open.load(Ordering::Relaxed),
            done: self.done.load(Ordering::Relaxed),
            left_open: self.left_open.load(Ordering::Relaxed),
            pieces: self.pieces.load(Ordering::Relaxed),
            looked: self.looked.load(Ordering::Relaxed),
        }
    }

    // Prints a line if none was printed in this second.
    fn tell_when_due(&self) {
        if !self.tells {
            self.say_once();
            return;
        }
        let Some(seconds) = self.seconds() else {
            return;
        };
        let due = self.due.load(Ordering::Relaxed);
        if seconds >= due
            && self
                .due
                .compare_exchange(
                    due,
                    seconds.saturating_add(1),
                    Ordering::Relaxed,
                    Ordering::Relaxed,
                )
                .is_ok()
        {
            self.tell();
        }
    }

    // Prints the line of a long run once, unless a time is set.
    fn say_once(&self) {
        if self.said.load(Ordering::Relaxed) != 0 || self.gate.milliseconds_left().is_some() {
            return;
        }
        let Some(seconds) = self.seconds() else {
            return;
        };
        if seconds < LONG_RUN || self.said.swap(1, Ordering::Relaxed) != 0 {
            return;
        }
        // If it can't be written, nobody is told.
        let _ = self
            .rt
            .eprintln(LongRun(self.line(RunState::At(self.stage()))));
    }

    // The current stage.
    fn stage(&self) -> Stage {
        let number = self.stage.load(Ordering::Relaxed);
        Stage::ALL
            .get(number as usize)
            .copied()
            .unwrap_or(Stage::Pieces)
    }

    // Notes a plan of this cost, and prints a line if it is the cheapest so far.
    fn note_plan(&self, cost: u64) {
        self.cost.fetch_min(cost, Ordering::Relaxed);
        if cost < self.told.fetch_min(cost, Ordering::Relaxed) {
            self.tell();
        }
    }

    // Notes the numbers of nodes of the choice that are done and open.
    fn note_nodes(&self, done: u64, open: u64) {
        self.nodes_done.store(done, Ordering::Relaxed);
        self.nodes_open.store(open, Ordering::Relaxed);
        self.tell_when_due();
    }

    // Notes one more piece that ended in this way.
    fn note_piece(&self, ended: &AtomicU64) {
        ended.fetch_add(1, Ordering::Relaxed);
        self.tell_when_due();
    }

    // Notes that the run has come to a stage.
    fn comes_to(&self, stage: Stage) {
        self.stage.store(stage as u64, Ordering::Relaxed);
        self.tell();
    }
}

impl<'a, T: Clock + Eprint, G: Gate> Gate for Progress<'a, T, G> {
    ghost may_stop = { λ progress. G.may_stop progress.gate.now };

    fn begins(&self, worker: u32, piece: u32) {
        self.gate.begins(worker, piece);
    }

    fn on_event(&self, news: Event) {
        self.gate.on_event(news);
        match news {
            Event::Begins(stage) => self.comes_to(stage),
            Event::UsefulRoutes(routes) => self.routes.store(routes, Ordering::Relaxed),
            Event::Labels(labels) => {
                self.labels.fetch_max(labels, Ordering::Relaxed);
                self.tell_when_due();
            }
            Event::Nodes { done, open } => self.note_nodes(done, open),
            Event::PieceCount(pieces) => self.pieces.store(u64::from(pieces), Ordering::Relaxed),
            Event::Bound(bound) => {
                self.bound.fetch_max(bound.hundredths, Ordering::Relaxed);
            }
            Event::Plan(cost) => self.note_plan(cost),
            Event::Cheaper(cost) => {
                self.cost.fetch_min(cost, Ordering::Relaxed);
                self.tell_when_due();
            }
            Event::Looked(more) => {
                self.looked.fetch_add(more, Ordering::Relaxed);
                self.tell_when_due();
            }
            Event::Done => self.note_piece(&self.done),
            Event::LeftOpen => self.note_piece(&self.left_open),
        }
    }

    fn should_continue(&self) -> bool {
        self.tell_when_due();
        self.gate.should_continue()
    }

    fn milliseconds_left(&self) -> Option<u64> {
        self.gate.milliseconds_left()
    }
}
