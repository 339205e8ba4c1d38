//! A lower bound on what plans cost, told more finely than by whole costs.
ghost use Rattle.std.specs.Prelude.{◌≡◌, ◌*◌, ◌≤◌, None};
ghost use Rattle.vrp_bound.specs.LowerBound.{rounded_up};
ghost use Rattle.vrp_model.specs.declared.limits.TheConstants.{NO_COST};

use std::fmt;

// How many hundredths a whole cost has.
const HUNDREDTHS: u64 = 100;

/// A lower bound on what plans cost, in hundredths. Its text has two decimals.
#[derive(Clone, Copy, Debug, PartialEq, Eq, PartialOrd, Ord)]
pub struct LowerBound {
    pub hundredths: u64,
}

impl LowerBound {
    /// A whole cost as a lower bound.
    pub fn of_cost(cost: u64) -> LowerBound
        ensures { cost ≤ NO_COST → result.hundredths ≡ 100 * cost }
    {
        LowerBound {
            hundredths: cost.saturating_mul(HUNDREDTHS),
        }
    }

    /// The least whole cost that is not below: costs are whole, so it is a lower bound too.
    pub fn rounded_up(self) -> u64
        ensures { result ≡ rounded_up self }
    {
        self.hundredths.div_ceil(HUNDREDTHS)
    }
}

impl fmt::Display for LowerBound {
    // What is printed no clause says.
    ghost output = { λ _. None };

    fn fmt<W: fmt::Write>(&self, f: &mut fmt::Formatter<W>) -> fmt::Result {
        let whole = self.hundredths / HUNDREDTHS;
        let part = self.hundredths % HUNDREDTHS;
        write!(f, "{whole}.{part:02}")
    }
}
