//! The threshold: how much costlier than the last plan the next one may be. It falls to 0.

/// How long a run goes on. Any numbers will do.
#[derive(Clone, Copy, Debug)]
pub enum Length {
    /// The most moves; after this many positions no further move begins.
    Work { moves: u64, positions: u64 },
    /// The milliseconds that the watch has left when the run begins, and when it ends.
    Time { first: u64, last: u64 },
}

/// The length of a run, and the threshold at its start, in the unit of the weights. Any number will do.
#[derive(Clone, Copy, Debug)]
pub struct Threshold {
    pub start: u64,
    pub length: Length,
}

/// What a run has done so far.
#[derive(Clone, Copy)]
pub(crate) struct Progress {
    pub(crate) moves: u64,
    pub(crate) positions: u64,
    /// The milliseconds that are left, if a time is set.
    pub(crate) left: Option<u64>,
}

impl Progress {
    /// A run that has not begun.
    pub(crate) const NONE: Progress = Progress {
        moves: 0,
        positions: 0,
        left: None,
    };
}

/// The rest of a run is counted in this many parts of the whole.
const PARTS: u64 = 4_096;

impl Threshold {
    /// The threshold after this progress: it falls with the square of the rest.
    pub(crate) fn after(self, progress: Progress) -> u64 {
        let left = self.length.left(progress);
        self.start.saturating_mul(left.saturating_mul(left)) / (PARTS * PARTS)
    }
}

impl Length {
    /// Whether no further move begins after this progress.
    pub(crate) fn is_over(self, progress: Progress) -> bool {
        match self {
            Length::Work { moves, positions } => {
                progress.moves >= moves || progress.positions >= positions
            }
            Length::Time { last, .. } => match progress.left {
                Some(left) => left <= last,
                None => false,
            },
        }
    }

    // The parts of the whole that are left.
    fn left(self, progress: Progress) -> u64 {
        match self {
            Length::Work { moves, positions } => {
                parts(progress.moves, moves).min(parts(progress.positions, positions))
            }
            Length::Time { first, last } => match progress.left {
                Some(left) => parts(first.saturating_sub(left), first.saturating_sub(last)),
                None => PARTS,
            },
        }
    }
}

// The part of a whole that is left when this much of it is done.
fn parts(done: u64, whole: u64) -> u64 {
    whole.saturating_sub(done).saturating_mul(PARTS) / whole.max(1)
}
