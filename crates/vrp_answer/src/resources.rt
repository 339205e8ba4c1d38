//! The resources of a run.
ghost use Rattle.std.specs.Prelude.{◌≡◌};

use crate::gates::Gate;
use std::alloc::Global;

/// The resources of a run, besides its input and output.
#[derive(Drop)]
pub struct Resources<'a, T, G: Gate> {
    /// The system: threads, the clock, files and standard error.
    pub rt: &'a T,
    pub alloc: Global,
    /// Hears how the search goes, and may stop it.
    pub gate: &'a G,
}

impl<'a, T, G: Gate> Resources<'a, T, G> {
    /// Puts these together.
    pub fn new(rt: &'a T, alloc: Global, gate: &'a G) -> Resources<'a, T, G>
        ensures { result.gate.now ≡ gate.entry.now }
    {
        Resources { rt, alloc, gate }
    }
}
