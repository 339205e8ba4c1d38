//! Parallel runs of ruin and recreate.
use crate::gathered::Gathered;
use crate::moves::{Course, run};
use crate::surroundings::Surroundings;
use crate::threshold::Threshold;
use std::alloc::Global;
use std::thread::{Threads, for_each_mut};
use vrp_model::{Crew, NoMemory, Watch};

/// Runs of the same length; consecutive numbers from the first one on seed their chances.
#[derive(Clone, Copy)]
pub(crate) struct Round {
    pub(crate) first: u64,
    pub(crate) runs: u16,
    pub(crate) threshold: Threshold,
    /// The most symbols of routes that each run gathers.
    pub(crate) gathers: usize,
    /// Whether these routes are recombined.
    pub(crate) recombines: bool,
}

impl Round {
    // The course of the run of a number. If routes are recombined, every second run begins with half of the threshold, to find other plans.
    fn course_of(self, number: u64) -> Course {
        let Threshold { start, length } = self.threshold;
        let has_half = self.recombines && number % 2 == 0;
        Course {
            number,
            threshold: Threshold {
                start: if has_half { start / 2 } else { start },
                length,
            },
        }
    }
}

/// A run of a round.
#[derive(Drop)]
pub(crate) struct Run {
    number: u64,
    // The word that it begins with.
    start: Vec<u16>,
    /// The word that it found; empty before it has run.
    pub(crate) word: Result<Vec<u16>, NoMemory>,
    /// The routes of the good plans that it found.
    pub(crate) gathered: Gathered,
}

/// Makes the runs of a round from a word, in parallel. The result is the same for any number of workers, unless the watch stops them.
pub(crate) fn run_all<R: Threads + Sync, W: Watch + Sync>(
    crew: &Crew<'_, R, W>,
    setting: &Surroundings<'_>,
    round: Round,
    word: &[u16],
) -> Result<Vec<Run>, NoMemory> {
    let mut runs = Vec::with_capacity(crew.alloc, usize::from(round.runs))?;
    for index in 0..round.runs {
        let start = Vec::from_slice(crew.alloc, word)?;
        runs.push(Run::new(crew.alloc, round, index, start))?;
    }
    run_each(crew, setting, round, &mut runs);
    Ok(runs)
}

/// Makes runs of a round in parallel.
pub(crate) fn run_each<R: Threads + Sync, W: Watch + Sync>(
    crew: &Crew<'_, R, W>,
    setting: &Surroundings<'_>,
    round: Round,
    runs: &mut Vec<Run>,
) {
    let (alloc, watch) = (crew.alloc, crew.watch);
    for_each_mut(
        crew.rt,
        runs.as_mut_slice(),
        usize::from(crew.workers),
        &|_, one: &mut Run| {
            let course = round.course_of(one.number);
            one.word = run(alloc, setting, &one.start, course, watch, &mut one.gathered);
        },
    );
}

impl Run {
    /// The run of a round with this index, before it has run, and the word that it begins with.
    pub(crate) fn new(alloc: Global, round: Round, index: u16, start: Vec<u16>) -> Run {
        Run {
            number: round.first.saturating_add(u64::from(index)),
            start,
            word: Ok(Vec::new(alloc)),
            gathered: Gathered::new(alloc, round.gathers),
        }
    }
}
