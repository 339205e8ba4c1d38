//! The prices of cuts: the amounts they take off an arc, and off a plan.
ghost use Rattle.std.specs.Prelude.{◌≡◌, ◌*◌, ◌≤◌, length};
ghost use Rattle.std.specs.List.{sum_by};
ghost use Rattle.vrp_bound_prices.specs.CapacityCut.{cut_prices_of};
ghost use Rattle.vrp_bound_prices.specs.declared.limits.TheConstants.{MAX_CUTS, MAX_CUT_PRICES, MAX_CUT_REWARDS};

use crate::cut::CapacityCut;

/// The amount taken off an arc: the prices of the cuts that it crosses.
pub(crate) fn cut_prices(cuts: &[CapacityCut], from: u16, to: u16) -> u64
    requires few { length cuts.now ≤ MAX_CUTS }
    ensures value { result ≡ cut_prices_of cuts.now from to }
    ensures small { result ≤ MAX_CUT_PRICES }
{
    let mut whole = 0;
    for cut in cuts {
        if cut.is_crossed(from, to) {
            whole += cut.cut_price();
        }
    }
    whole
}

/// The least amount that cut prices take off a plan: each truck that a cut needs crosses its border twice.
pub(crate) fn cut_rewards(cuts: &[CapacityCut]) -> u64
    requires few { length cuts.now ≤ MAX_CUTS }
    ensures value { result ≡ 2 * sum_by (λ cut. cut.cut_price * cut.trucks) cuts.now }
    ensures small { result ≤ MAX_CUT_REWARDS }
{
    let mut whole = 0;
    for cut in cuts {
        whole += cut.cut_price() * cut.trucks();
    }
    2 * whole
}
