//! Prices of places: the amounts they add to an arc or take off, and to or off a plan.
ghost use Rattle.std.specs.Prelude.{◌≡◌, ◌*◌, ◌≤◌, ◌<◌, IsTrue, false, length};
ghost use Rattle.std.specs.List.{sum_by};
ghost use Rattle.vrp_model.specs.Problem.{IsProblem, customers, place_count};
ghost use Rattle.vrp_bound_prices.specs.Inner.Arcs.{AreModerate};
ghost use Rattle.vrp_bound_prices.specs.Priced.{NoneAreLawful, price_in, rebate_in};
ghost use Rattle.vrp_bound_prices.specs.declared.limits.TheConstants.{MAX_CHARGES, MAX_CUTS, MAX_REBATE_REWARDS};

use crate::cut::CapacityCut;
use crate::cut_prices::cut_prices;
use crate::limits::MAX_REBATE;
use vrp_model::{Instance, MAX_WEIGHT};

/// The amount that a place's price adds to each of its arcs; 0 if it is a rebate.
pub(crate) fn price_at(prices: &[i64], place: u16) -> u64
    requires { place < length prices.now }
    ensures { result ≡ price_in prices.now place }
{
    let price = prices[usize::from(place)];
    if place == 0 || price < 0 {
        0
    } else {
        price as u64
    }
}

/// The amount that a place's rebate takes off each of its arcs; 0 if it is a price.
pub(crate) fn rebate_at(prices: &[i64], place: u16) -> u64
    requires { place < length prices.now }
    ensures { result ≡ rebate_in prices.now place }
{
    let price = prices[usize::from(place)];
    if place > 0 && price < 0 {
        price.unsigned_abs()
    } else {
        0
    }
}

/// Whether no price is above the greatest weight plus the cut prices on the arc from the depot, and no rebate is above the
/// greatest cost of an arc before rebates. Other prices are refused.
pub(crate) fn are_moderate(instance: &Instance, prices: &[i64], cuts: &[CapacityCut]) -> bool
    requires one_each { length prices.now ≡ place_count instance.now }
    requires few { length cuts.now ≤ MAX_CUTS }
    ensures moderate { IsTrue result → AreModerate prices.now }
    ensures unlawful { result ≡ false → NoneAreLawful instance.now prices.now cuts.now }
    // An invariant of every instance.
    ensures problem { IsProblem instance.now }
{
    for place in 0..instance.customers() + 1 {
        let most = MAX_WEIGHT + cut_prices(cuts, 0, place);
        if price_at(prices, place) > most || rebate_at(prices, place) > MAX_REBATE {
            return false;
        }
    }
    true
}

/// The amount that prices add to each plan: each customer is entered and left once.
pub(crate) fn charges(instance: &Instance, prices: &[i64]) -> u64
    requires one_each { length prices.now ≡ place_count instance.now }
    requires moderate { AreModerate prices.now }
    ensures value { result ≡ 2 * sum_by (price_in prices.now) (customers instance.now) }
    ensures small { result ≤ MAX_CHARGES }
{
    let mut whole = 0;
    for index in 0..instance.customers() {
        whole += price_at(prices, index + 1);
    }
    2 * whole
}

/// The amount that rebates take off each plan.
pub(crate) fn rebate_rewards(instance: &Instance, prices: &[i64]) -> u64
    requires one_each { length prices.now ≡ place_count instance.now }
    requires moderate { AreModerate prices.now }
    ensures value { result ≡ 2 * sum_by (rebate_in prices.now) (customers instance.now) }
    ensures small { result ≤ MAX_REBATE_REWARDS }
{
    let mut whole = 0;
    for index in 0..instance.customers() {
        whole += rebate_at(prices, index + 1);
    }
    2 * whole
}
