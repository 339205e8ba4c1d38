//! Where labels of one load begin among the kept labels of a place, and the digests of all: a guide to those that may dominate another.
ghost use Rattle.std.specs.Prelude.{◌≡◌, ◌<◌, IfOk, OnOk, length};

use crate::digest::Digest;
use crate::label::Label;
use std::alloc::{AllocError, Global};

/// Kept labels of one place and load, by rising cost: those from `start` on, up to the next run.
#[derive(Clone, Copy, Debug)]
pub struct Run {
    pub start: usize,
    pub load: u32,
    /// The least cost in the run.
    pub least: i64,
    /// The least cost in the run and those before.
    pub least_before: i64,
}

/// The runs of one place, by rising load, and a digest for each kept label. Nothing rests on them: no clause says what they are.
#[derive(Debug, Drop)]
pub struct PlaceRuns {
    pub runs: Vec<Run>,
    pub digests: Vec<Digest>,
}

impl PlaceRuns {
    // No runs.
    fn new(alloc: Global) -> PlaceRuns {
        PlaceRuns {
            runs: Vec::new(alloc),
            digests: Vec::new(alloc),
        }
    }

    // Notes one kept label more.
    fn note(&mut self, label: &Label) -> Result<(), AllocError> {
        let start = self.digests.len();
        self.digests.push(Digest::of(label))?;
        let mut least_before = label.cost;
        if let Some(run) = self.runs.last() {
            if run.load == label.load {
                return Ok(());
            }
            least_before = least_before.min(run.least_before);
        }
        self.runs.push(Run {
            start,
            load: label.load,
            least: label.cost,
            least_before,
        })?;
        Ok(())
    }
}

/// The runs of all places.
#[derive(Debug, Drop)]
pub struct Runs {
    pub by_place: Vec<PlaceRuns>,
}

impl Runs {
    /// No runs of so many places. The only error is lack of memory.
    pub fn new(alloc: Global, places: usize) -> Result<Runs, AllocError>
        ensures { IfOk result (λ runs. length runs.by_place.items ≡ places) }
    {
        let mut by_place = Vec::with_capacity(alloc, places)?;
        for _ in 0..places {
            by_place.push(PlaceRuns::new(alloc))?;
        }
        Ok(Runs { by_place })
    }

    /// The runs of a place.
    #[inline(always)]
    pub fn of(&self, place: usize) -> &PlaceRuns
        requires { place < length self.now.by_place.items }
    {
        &self.by_place[place]
    }

    /// Notes that a label is kept after those of its place that were noted before. The only error is lack of memory.
    pub fn note(&mut self, label: &Label) -> Result<(), AllocError>
        requires { label.now.at < length self.old.by_place.items }
        ensures { OnOk result (length self.new.by_place.items ≡ length self.old.by_place.items) }
    {
        self.by_place[label.at as usize].note(label)
    }
}
