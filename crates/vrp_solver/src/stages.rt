//! The plan of stages: which part of the time and of the budget each stage of a run may use.
ghost use Rattle.std.specs.Prelude.{◌≡◌, ◌*◌, ◌-◌, ◌^◌, ◌≤◌, max, min};

use crate::look::LEAST_PREPARED_BUDGET;
use vrp_answer::Stage;
use vrp_model::MOST_CUSTOMERS;

// Time is divided into twelfths.
const PARTS: u64 = 12;

/// From this many customers on, a run with a time looks for better plans in a stage of its own, and columns and prices have less time.
pub(crate) const MANY_CUSTOMERS: u16 = 126;

// From this many customers on there are enough useful routes that better prices pay.
const MANY_FOR_ROUTES: u16 = 60;

// What the default budget comes to: 64 pieces of 10,000,000 partial plans.
const USUAL: u64 = 640_000_000;

/// What a stage may use.
#[derive(Clone, Copy, Debug, PartialEq, Eq)]
pub(crate) struct Share {
    /// Twelfths of the time that is left when the stage begins, if a time is set. The rest is reserved for later stages.
    pub(crate) twelfths: u64,
    /// The units of its work for each partial plan of the budget.
    pub(crate) work: u64,
    /// The units of its work that it gets from any budget: with less it would prove nothing, and the pieces would take longer.
    pub(crate) least: u64,
    /// The most units of its work.
    pub(crate) most: u64,
    ghost some_work: { 1 ≤ work },
    ghost some_most: { 1 ≤ most },
}

/// What a stage may use in a run with this many customers and this budget for each piece: the one place that says so. Work is counted in
/// partial plans, in labels for columns, in reduced costs for the choice, and in steps of ascent for prices. A partial plan takes the time
/// of some twenty steps. So where routes can be listed, a small budget is saved on the pieces: what comes before them gets as much work as
/// by default. No clause pins the rows.
pub(crate) fn share_of(stage: Stage, customers: u16, budget: u64) -> Share {
    let few = customers < MANY_FOR_ROUTES;
    let many = customers >= MANY_CUSTOMERS;
    let usual = usual_work(customers, budget);
    match stage {
        // Small trees end there.
        Stage::FirstLook => row(12, 1, 0, 20_000),
        Stage::StartPlan => row(12, 1, usual, u64::MAX),
        Stage::Columns if many => row(4, 1, usual, USUAL),
        Stage::Columns => row(10, 1, usual, USUAL),
        // Steps beyond these are not worth their time, however large the budget.
        Stage::Prices if few => row(6, 1, usual, USUAL),
        Stage::Prices if many => row(4, 5, 5 * usual, u64::MAX),
        Stage::Prices => row(6, 5, 5 * usual, u64::MAX),
        // With many customers a choice may not end, and better plans are worth more.
        Stage::Choice if many => row(6, 1, usual, u64::MAX),
        Stage::Choice => row(12, 1, usual, u64::MAX),
        Stage::BetterPlans => row(9, 1, 0, u64::MAX),
        Stage::Pieces => row(12, 1, 0, u64::MAX),
    }
}

// The work that a stage gets from any budget that prepares the search, where routes can be listed.
fn usual_work(customers: u16, budget: u64) -> u64
    ensures { result ≤ USUAL }
{
    if customers <= MOST_CUSTOMERS && budget >= LEAST_PREPARED_BUDGET {
        USUAL
    } else {
        0
    }
}

// A row of the plan.
fn row(twelfths: u64, work: u64, least: u64, most: u64) -> Share
    requires work { 1 ≤ work }
    requires most { 1 ≤ most }
{
    Share {
        twelfths,
        work,
        least,
        most,
    }
}

impl Share {
    /// The milliseconds that are reserved for later stages when this many are left.
    pub(crate) fn reserved(self, left: u64) -> u64
        ensures { result ≤ left }
    {
        left.saturating_sub(left.saturating_mul(self.twelfths) / PARTS)
    }

    /// The units of work that a budget allows.
    pub(crate) fn work_for(self, budget: u64) -> u64
        ensures some { 1 ≤ budget → 1 ≤ result }
        ensures value { result ≡ min (max (min (budget * self.work) (2 ^ 64 - 1)) self.least) self.most }
    {
        budget
            .saturating_mul(self.work)
            .max(self.least)
            .min(self.most)
    }
}
