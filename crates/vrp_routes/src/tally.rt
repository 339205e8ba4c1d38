//! The number of labels made, and of those that may still be made.

/// The number of labels made so far, those dropped later included, and the number that may still be made.
#[derive(Clone, Copy, Debug)]
pub struct LabelTally {
    pub made: u64,
    pub room: usize,
}

impl LabelTally {
    /// Adds this many labels. No clause pins the result: it decides only how soon a limit is met, and what is reported.
    pub fn with(&self, more: usize) -> LabelTally {
        LabelTally {
            made: self.made.saturating_add(more as u64),
            room: self.room.saturating_sub(more),
        }
    }
}
