//! When a pass is worth its time, when a list is, and when the prices are as good as they get.

/// What to do with new prices.
#[derive(Clone, Copy, Debug, PartialEq, Eq)]
pub(crate) enum Decision {
    /// Look for better ones.
    GoOn,
    /// First make a pass, which leaves fewer arcs.
    Pass,
    /// Make a pass, and list the routes if there are few labels.
    PassAndList,
    /// The same, for the last time.
    End,
}

/// How the gap between the lower bound and the limit has fallen, in price units.
#[derive(Clone, Copy, Debug)]
pub(crate) struct Pace {
    limit: i64,
    // The gap at the last pass, and at the last list.
    passed_at: i64,
    listed_at: i64,
    best: i64,
    // How many rounds have gained little.
    stale: u32,
    rounds: u32,
    is_over: bool,
}

// After so many rounds that gain little there is an end.
const MOST_STALE: u32 = 3;

impl Pace {
    /// No prices yet, for a limit.
    pub(crate) fn new(limit: i64) -> Pace {
        Pace {
            limit,
            passed_at: i64::MAX,
            listed_at: i64::MAX,
            best: i64::MIN,
            stale: 0,
            rounds: 0,
            is_over: false,
        }
    }

    /// Whether the last decision was on the first final prices.
    pub(crate) fn is_first(&self) -> bool {
        self.rounds == 1
    }

    /// There are no more rows to add: the next prices are the last.
    pub(crate) fn finish(&mut self) {
        self.is_over = true;
    }

    /// What to do with prices on the way to final ones, which give about this lower bound.
    pub(crate) fn decide_on_the_way(&mut self, bound: i64) -> Decision {
        let gap = self.limit.saturating_sub(bound);
        if gap < self.passed_at / 10 * 9 {
            self.passed_at = gap;
            return Decision::Pass;
        }
        Decision::GoOn
    }

    /// What to do with final prices that give this lower bound, where so many price units are a unit of cost.
    pub(crate) fn decide(&mut self, bound: i64, unit: i64) -> Decision {
        let gap = self.limit.saturating_sub(bound);
        // A wide gap may be due to the known plan.
        let likely = gap.min(self.limit / 1_000 * 6);
        let enough = likely.max(unit / 2).saturating_mul(3) / 200;
        if bound.saturating_sub(self.best) < enough {
            self.stale = self.stale.saturating_add(1);
        } else {
            self.stale = 0;
        }
        self.best = self.best.max(bound);
        self.rounds = self.rounds.saturating_add(1);
        if self.stale >= MOST_STALE || self.is_over {
            return Decision::End;
        }
        let is_small = gap < self.limit.saturating_mul(12) / 1_000;
        let is_list_new = gap < self.listed_at / 5 * 4;
        if self.stale == 0 && self.rounds > 1 && is_small && is_list_new {
            self.listed_at = gap;
            self.passed_at = gap;
            return Decision::PassAndList;
        }
        self.decide_on_the_way(bound)
    }
}
