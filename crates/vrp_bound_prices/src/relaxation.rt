//! A relaxation of an instance by prices and cut prices.
ghost use Rattle.std.specs.Prelude.{◌≡◌, ℕ, ◌+◌, ◌*◌, ◌≤◌, ◌<◌, List, [], All, IfNone, IfOk, IfSome, MatchOption, length};
ghost use Rattle.vrp_model.specs.Problem.{customers, place_count};
ghost use Rattle.vrp_model.specs.Word.{NoneCheaperUnder};
ghost use Rattle.vrp_bound.specs.LowerBound.{rounded_up};
ghost use Rattle.vrp_bound.specs.NgWalks.{NoNgTours};
ghost use Rattle.vrp_bound.specs.Tables.{AreMadeWithin};
ghost use Rattle.vrp_model.specs.declared.limits.TheConstants.{MAX_CAPACITY, NO_COST};
ghost use Rattle.vrp_bound_prices.specs.CapacityCut.{IsCut};
ghost use Rattle.vrp_bound_prices.specs.Priced.{AreLawfulPrices, IsByPrices};
ghost use Rattle.vrp_bound_prices.specs.Relaxation.{Bounds};
ghost use Rattle.vrp_bound_prices.specs.Units.{rounded_capacity};

use crate::amounts::{capacity_in_units, demands_in_units};
use crate::arcs::priced_weights;
use crate::cut::CapacityCut;
use crate::cut_prices::cut_rewards;
use crate::law::tours_bound;
use crate::limits::{MAX_CUTS, MAX_SCALE};
use crate::prices::{are_moderate, charges, rebate_rewards};
use std::alloc::Global;
use std::marker::Model;
use vrp_bound::{LowerBound, least_ng_tours};
use vrp_model::{Instance, MAX_CAPACITY, NO_COST, NgSets, NoMemory};

/// An instance, and a second one whose plans bound its plans.
#[derive(Debug, Drop)]
pub struct Relaxation<'a> {
    problem: &'a Instance,
    relaxed: Instance,
    scale: u64,
    charges: u64,
    rewards: u64,
}

impl<'a> Model for Relaxation<'a> {
    ghost use Rattle.vrp_bound_prices.specs.Relaxation.{RelaxationOf, relaxation_of};
    ghost use Rattle.vrp_bound_prices.specs.Inner.Kept.{IsSmallRelaxation};

    ghost Value = { RelaxationOf };

    ghost view = { λ a. relaxation_of a.problem.now a.relaxed a.scale a.charges a.rewards };

    ghost invariant = { λ a.
        IsSmallRelaxation (relaxation_of a.problem.now a.relaxed a.scale a.charges a.rewards) };
}

impl<'a> Relaxation<'a> {
    /// The relaxation by a price for each place and by the prices of some cuts of the instance, in whole units of the scaled
    /// weights. A negative price is a rebate, and the depot's price is ignored. Each arc costs `scale` times as much, plus
    /// the prices of its two ends, minus the prices of the cuts that it crosses. Demands and capacity are counted in units.
    /// `None` if an arc would cost less than 0 or more than 1,000,000,000, or if the capacity in units would be more than
    /// that.
    pub fn new(
        alloc: Global,
        instance: &'a Instance,
        scale: u64,
        unit: u64,
        prices: &[i64],
        cuts: &[CapacityCut],
    ) -> Result<Option<Relaxation<'a>>, NoMemory>
        requires some_scale { 1 ≤ scale }
        requires small_scale { scale ≤ MAX_SCALE }
        requires some_unit { 1 ≤ unit }
        requires one_each { length prices.now ≡ place_count instance.now }
        requires few_cuts { length cuts.now ≤ MAX_CUTS }
        requires cuts { All (IsCut instance.now) cuts.now }
        ensures priced { IfOk result (λ made.
            IfSome made (IsByPrices instance.now unit scale prices.now cuts.now)) }
        ensures none { IfOk result (λ made. IfNone made
            (AreLawfulPrices instance.now scale prices.now cuts.now
            → rounded_capacity instance.now unit ≤ MAX_CAPACITY → ⊥)) }
    {
        if !are_moderate(instance, prices, cuts) {
            return Ok(None);
        }
        let capacity = capacity_in_units(instance, unit);
        if capacity > MAX_CAPACITY {
            return Ok(None);
        }
        let Some(weights) = priced_weights(alloc, instance, scale, prices, cuts)? else {
            return Ok(None);
        };
        let demands = demands_in_units(alloc, instance, unit)?;
        let relaxed = instance.with_amounts(alloc, weights, demands, capacity)?;
        Ok(Some(Relaxation {
            problem: instance,
            relaxed,
            scale,
            charges: charges(instance, prices),
            rewards: rebate_rewards(instance, prices) + cut_rewards(cuts),
        }))
    }

    /// The instance.
    pub fn problem(&self) -> &'a Instance
        ensures { result.now ≡ self.now.problem }
    {
        self.problem
    }

    /// The relaxed instance, whose plans bound those of the instance.
    pub fn relaxed(&self) -> &Instance
        ensures value { result.now ≡ self.now.relaxed }
        // An invariant of every relaxation.
        ensures bounds { Bounds self.now }
    {
        &self.relaxed
    }

    /// The factor on the cost of each arc in the relaxed instance, before prices.
    pub fn scale(&self) -> u64
        ensures value { result ≡ self.now.scale }
        ensures small { result ≤ MAX_SCALE }
    {
        self.scale
    }

    /// What a plan costs at least that costs no less than this in the relaxed instance: rounded up to a hundredth, and `NO_COST`
    /// where it would be more.
    pub fn lower_bound_by(&self, least: u64) -> LowerBound
        requires small { least < 4000000000000000000 }
        ensures low { (cost : ℕ) → least + self.now.rewards ≤ self.now.scale * cost + self.now.charges → rounded_up result ≤ cost }
        ensures reached { rounded_up result < NO_COST
            → least + self.now.rewards ≤ self.now.scale * rounded_up result + self.now.charges }
        ensures least { (hundredths : ℕ)
            → 100 * (least + self.now.rewards) ≤ self.now.scale * hundredths + 100 * self.now.charges
            → result.hundredths ≤ hundredths }
        ensures enough { result.hundredths < 100 * NO_COST
            → 100 * (least + self.now.rewards) ≤ self.now.scale * result.hundredths + 100 * self.now.charges }
    {
        let scaled = (least + self.rewards).saturating_sub(self.charges);
        quotient(scaled, self.scale)
    }

    /// What every plan costs at least, by the least ng-tours in the relaxed instance that carry all demands. `None`: there are no such
    /// tours, a customer has no demand in units, or it would take more than so many steps to fill their tables. No clause pins the
    /// decimals.
    pub fn lower_bound(
        &self,
        alloc: Global,
        ng_sets: &NgSets,
        most_steps: u64,
    ) -> Result<Option<LowerBound>, NoMemory>
        requires places { ng_sets.now.places ≡ place_count self.now.problem }
        ensures bound { IfOk result (λ found. MatchOption found
            (AreMadeWithin most_steps self.now.relaxed (customers self.now.relaxed) → NoNgTours self.now.relaxed ng_sets.entry.now)
            (λ bound. NoneCheaperUnder self.now.problem [] (rounded_up bound))) }
    {
        tours_bound();
        match least_ng_tours(alloc, &self.relaxed, ng_sets, most_steps)? {
            Some(least) => Ok(Some(self.lower_bound_by(least))),
            None => Ok(None),
        }
    }
}

// An amount over a scale, rounded up to a hundredth; `NO_COST` where it would be more.
fn quotient(scaled: u64, scale: u64) -> LowerBound
    requires some { 1 ≤ scale }
    requires small { scale ≤ MAX_SCALE }
    ensures low { (cost : ℕ) → scaled ≤ scale * cost → rounded_up result ≤ cost }
    ensures reached { rounded_up result < NO_COST → scaled ≤ scale * rounded_up result }
    ensures least { (hundredths : ℕ) → 100 * scaled ≤ scale * hundredths → result.hundredths ≤ hundredths }
    ensures enough { result.hundredths < 100 * NO_COST → 100 * scaled ≤ scale * result.hundredths }
{
    let cost = scaled / scale;
    if cost >= NO_COST {
        return LowerBound::of_cost(NO_COST);
    }
    let rest = scaled % scale;
    LowerBound {
        hundredths: 100 * cost + (100 * rest).div_ceil(scale),
    }
}
