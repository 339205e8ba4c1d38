//! The workers of a stage of a run, and their watch: the one question whether to go on, which all stages ask.
ghost use Rattle.std.specs.Prelude.{◌≡◌, ◌≤◌};

use std::alloc::Global;

/// What a stage tells its watch while it runs.
#[derive(Clone, Copy, Debug, PartialEq, Eq)]
pub enum News {
    /// Routes of this cost were found; their plan follows when the stage ends.
    Cheaper(u64),
    /// This many labels were made so far.
    Labels(u64),
    /// A round of nodes of a branch and bound was looked at.
    Nodes {
        /// The number of nodes that are done.
        done: u64,
        /// The number of open nodes.
        open: u64,
        /// The cost of the best solution so far.
        incumbent: u64,
        /// No solution costs less, or less than the incumbent.
        lower_bound: u64,
    },
}

/// The watch of a stage, its stop criterion: it is asked now and then whether the stage goes on, and hears how it goes. Nothing is
/// required of it, and no answer depends on when it stops a stage.
pub trait Watch {
    /// Whether the stage goes on.
    fn should_continue(&self) -> bool;

    /// The milliseconds that the stage has left, if a time is set.
    fn milliseconds_left(&self) -> Option<u64> {
        None
    }

    /// Hears news of the stage.
    fn on_news(&self, _news: News) {}
}

/// A watch that stops nothing and has no time.
#[derive(Clone, Copy, Debug)]
pub struct Unhurried;

impl Watch for Unhurried {
    fn should_continue(&self) -> bool {
        true
    }
}

/// A watch that stops a stage when another one does, and passes no news on.
#[derive(Clone, Copy, Debug)]
pub struct Quiet<'a, W> {
    pub watch: &'a W,
}

impl<W: Watch> Watch for Quiet<'_, W> {
    fn should_continue(&self) -> bool {
        self.watch.should_continue()
    }

    fn milliseconds_left(&self) -> Option<u64> {
        self.watch.milliseconds_left()
    }
}

/// The workers of a stage, each in a thread of its own if one can be made, the memory that they use, and their watch.
#[derive(Drop)]
pub struct Crew<'a, R, W> {
    /// Starts threads.
    pub rt: &'a R,
    pub alloc: Global,
    pub workers: u16,
    pub watch: &'a W,
    ghost some_worker: { 1 ≤ workers },
}

impl<'a, R, W> Crew<'a, R, W> {
    /// The same workers with another watch.
    pub fn watched_by<'b, V>(&self, watch: &'b V) -> Crew<'b, R, V>
    where
        'a: 'b,
        ensures { result.workers ≡ self.now.workers }
    {
        Crew {
            rt: self.rt,
            alloc: self.alloc,
            workers: self.workers,
            watch,
        }
    }
}
