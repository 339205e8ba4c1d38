//! The weights of arcs with prices and cut prices.
ghost use Rattle.std.specs.Prelude.{◌≡◌, ◌+◌, ◌*◌, ◌≤◌, ◌<◌, IfOk, IsTrue, IfSome, MatchOption, length, vec_capacity, vec_len, false};
ghost use Rattle.vrp_model.specs.Problem.{place_count};
ghost use Rattle.vrp_bound_prices.specs.Inner.Arcs.{AreModerate, ArePricedArcs, IsPricedArc};
ghost use Rattle.vrp_bound_prices.specs.Priced.{AreLawfulPrices};
ghost use Rattle.vrp_bound_prices.specs.declared.limits.TheConstants.{MAX_CUTS, MAX_SCALE};

use crate::cut::CapacityCut;
use crate::cut_prices::cut_prices;
use crate::prices::{price_at, rebate_at};
use std::alloc::Global;
use vrp_model::{Instance, MAX_WEIGHT, NoMemory};

/// The weights with prices and cut prices, row by row. `None` if one would be negative or above the greatest weight.
pub(crate) fn priced_weights(
    alloc: Global,
    instance: &Instance,
    scale: u64,
    prices: &[i64],
    cuts: &[CapacityCut],
) -> Result<Option<Vec<u32>>, NoMemory>
    requires small_scale { scale ≤ MAX_SCALE }
    requires few_cuts { length cuts.now ≤ MAX_CUTS }
    requires one_each { length prices.now ≡ place_count instance.now }
    requires moderate { AreModerate prices.now }
    ensures square { IfOk result (λ made. MatchOption made
        (AreLawfulPrices instance.now scale prices.now cuts.now → ⊥)
        (λ weights. vec_len weights ≡ place_count instance.now * place_count instance.now)) }
    ensures arcs { IfOk result (λ made. IfSome made (λ weights.
        ArePricedArcs instance.now scale prices.now cuts.now weights.items)) }
{
    let places = instance.customers() + 1;
    let cells = usize::from(places) * usize::from(places);
    let mut weights = Vec::with_capacity(alloc, cells)?;
    for from in 0..places {
        if !push_row(&mut weights, instance, scale, prices, cuts, from) {
            return Ok(None);
        }
    }
    Ok(Some(weights))
}

// Enters the weights from one place to each, after the rows of the places before it; false if one is infeasible.
fn push_row(
    weights: &mut Vec<u32>,
    instance: &Instance,
    scale: u64,
    prices: &[i64],
    cuts: &[CapacityCut],
    from: u16,
) -> bool
    requires small_scale { scale ≤ MAX_SCALE }
    requires few_cuts { length cuts.now ≤ MAX_CUTS }
    requires one_each { length prices.now ≡ place_count instance.now }
    requires moderate { AreModerate prices.now }
    requires row_within { from < place_count instance.now }
    requires next { vec_len weights.old ≡ from * place_count instance.now }
    requires room { vec_len weights.old + place_count instance.now ≤ vec_capacity weights.old }
    requires so_far { ArePricedArcs instance.now scale prices.now cuts.now weights.old.items }
    ensures capacity { vec_capacity weights.new ≡ vec_capacity weights.old }
    ensures len { IsTrue result →
        vec_len weights.new ≡ vec_len weights.old + place_count instance.now }
    ensures so_far { IsTrue result →
        ArePricedArcs instance.now scale prices.now cuts.now weights.new.items }
    ensures unlawful { result ≡ false → AreLawfulPrices instance.now scale prices.now cuts.now → ⊥ }
{
    for to in 0..instance.customers() + 1 {
        let Some(weight) = priced_arc(instance, scale, prices, cuts, from, to) else {
            return false;
        };
        weights.push_reserved(weight);
    }
    true
}

// The cost of the arc from one place to another with prices and cut prices; 0 from a place to itself. `None` if it is
// negative or above the greatest weight.
fn priced_arc(
    instance: &Instance,
    scale: u64,
    prices: &[i64],
    cuts: &[CapacityCut],
    from: u16,
    to: u16,
) -> Option<u32>
    requires small_scale { scale ≤ MAX_SCALE }
    requires few_cuts { length cuts.now ≤ MAX_CUTS }
    requires one_each { length prices.now ≡ place_count instance.now }
    requires moderate { AreModerate prices.now }
    requires from_within { from < place_count instance.now }
    requires to_within { to < place_count instance.now }
    ensures arc { MatchOption result (AreLawfulPrices instance.now scale prices.now cuts.now → ⊥)
        (λ weight. IsPricedArc instance.now scale prices.now cuts.now from to weight) }
    ensures small { IfSome result (λ weight. weight ≤ MAX_WEIGHT) }
{
    if from == to {
        return Some(0);
    }
    let arc = instance.weight(from, to);
    let costly = scale * arc + price_at(prices, from) + price_at(prices, to);
    let rebates = rebate_at(prices, from) + rebate_at(prices, to);
    let cheaper_by = rebates + cut_prices(cuts, from, to);
    if costly < cheaper_by || costly - cheaper_by > MAX_WEIGHT {
        return None;
    }
    Some((costly - cheaper_by) as u32)
}
