//! The progress of a node's rounds of cuts.
use crate::fixed_point::UNIT;
use crate::node::NO_BOUND;

// The number of rounds of cuts at the root, and in other nodes.
const ROOT_ROUNDS: u32 = 30;

const OTHER_ROUNDS: u32 = 6;

/// The progress of a node's rounds.
#[derive(Clone, Copy, Debug)]
pub(crate) struct Progress {
    pub(crate) is_root: bool,
    pub(crate) round: u32,
    // The number of rounds with next to no gain.
    stale: u32,
    bound: i64,
    // Whether the rounds continue after the search has dropped the routes above the gap.
    pub(crate) is_paused: bool,
}

impl Progress {
    /// No node has more rounds.
    pub(crate) const MOST_ROUNDS: u32 = ROOT_ROUNDS;

    /// No round yet.
    pub(crate) fn new(is_root: bool) -> Progress {
        Progress {
            is_root,
            round: 0,
            stale: 0,
            bound: NO_BOUND,
            is_paused: false,
        }
    }

    /// Notes the bound of a round, and the gap that it leaves.
    pub(crate) fn count_gain(&mut self, bound: i64, gap: i64) {
        let least = (UNIT / 50).max(gap / 128);
        if bound.saturating_sub(self.bound) < least {
            self.stale = self.stale.saturating_add(1);
        } else if self.stale < 2 {
            self.stale = 0;
        }
        self.bound = bound;
    }

    /// Whether more rounds would gain next to nothing, or there were enough.
    pub(crate) fn is_done(&self) -> bool {
        let rounds = if self.is_root {
            ROOT_ROUNDS
        } else {
            OTHER_ROUNDS
        };
        self.stale >= 2 || self.round >= rounds
    }
}
