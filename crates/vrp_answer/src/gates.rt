//! The gate: it hears of a search from outside, and may stop it.
ghost use Rattle.std.specs.Prelude.{◌≡◌, Bool, false, IsTrue};

use crate::events::Event;

/// Hears from each worker before it searches a piece, hears of events, and is asked from time to time whether to continue. A
/// gate's type says whether it may stop a search.
pub trait Gate {
    ghost may_stop: { Self → Bool } = { λ _. false };

    /// This worker is about to search the piece of this number. Workers are numbered from 0.
    fn begins(&self, worker: u32, piece: u32);

    /// An event. Nothing is required of what the gate does.
    fn on_event(&self, _news: Event) {}

    /// Whether to continue. A gate that answered no is asked again before each further piece; if it still says no, only a
    /// single partial plan of that piece is looked at.
    fn should_continue(&self) -> bool
        ensures { result ≡ false → IsTrue (may_stop self.now) }
    {
        true
    }

    /// The milliseconds left until the search is stopped, if a time is set. A search divides its time by this; no promise
    /// depends on it.
    fn milliseconds_left(&self) -> Option<u64> {
        None
    }
}

/// A gate that does nothing and stops nothing.
#[derive(Clone, Copy, Debug)]
pub struct NoGate;

impl Gate for NoGate {
    fn begins(&self, _worker: u32, _piece: u32) {}
}
