//! A gate that stops a search when its time is up.
ghost use Rattle.std.specs.Prelude.{◌≡◌};
ghost use Rattle.vrp_command.specs.Program.{may_stop_by};

use std::time::{Clock, Duration, Instant};
use vrp_solver::{Event, Gate};

/// Stops a search this many seconds after it was made, if a number is given, or when another gate says so; it passes all
/// events on to that gate. If the clock fails or stands still, the search continues. No clause says that the clock is right.
#[derive(Clone, Copy)]
pub struct Deadline<'a, C, G: Gate> {
    clock: &'a C,
    // `None` if the clock failed.
    start: Option<Instant>,
    /// The limit of seconds.
    pub seconds: Option<u32>,
    /// The other gate, which may stop the search and hears of all events.
    pub gate: &'a G,
}

impl<'a, C: Clock, G: Gate> Deadline<'a, C, G> {
    /// A deadline whose time begins now.
    pub fn new(clock: &'a C, seconds: Option<u32>, gate: &'a G) -> Deadline<'a, C, G>
        ensures seconds { result.seconds ≡ seconds }
        ensures gate { result.gate.now ≡ gate.entry.now }
    {
        Deadline {
            clock,
            start: Instant::now(clock).ok(),
            seconds,
            gate,
        }
    }

    // Whether this many seconds have passed.
    fn have_passed(&self, seconds: u32) -> bool {
        match self.passed() {
            Some(passed) => Duration::from_secs(u64::from(seconds)) <= passed,
            None => false,
        }
    }

    // The time that has passed, if the clock works.
    fn passed(&self) -> Option<Duration> {
        self.start?.elapsed(self.clock).ok()
    }
}

impl<'a, C: Clock, G: Gate> Gate for Deadline<'a, C, G> {
    ghost may_stop = { λ deadline. may_stop_by deadline.seconds (G.may_stop deadline.gate.now) };

    fn begins(&self, worker: u32, piece: u32) {
        self.gate.begins(worker, piece);
    }

    fn on_event(&self, news: Event) {
        self.gate.on_event(news);
    }

    fn should_continue(&self) -> bool {
        match self.seconds {
            Some(seconds) => !self.have_passed(seconds) && self.gate.should_continue(),
            None => self.gate.should_continue(),
        }
    }

    fn milliseconds_left(&self) -> Option<u64> {
        let whole = u128::from(self.seconds?).saturating_mul(1_000);
        let passed = self.passed()?.as_millis();
        u64::try_from(whole.saturating_sub(passed)).ok()
    }
}
