//! The rounds of a search for prices: each fills tables and steps towards a higher bound.
ghost use Rattle.std.specs.Prelude.{◌≡◌, ◌≤◌, All, IfOk, IfSome, vec_len};
ghost use Rattle.vrp_model.specs.declared.ng_sets.TheConstants.{MOST_NEAR};
ghost use Rattle.vrp_model.specs.Problem.{place_count};
ghost use Rattle.vrp_bound_prices.specs.CapacityCut.{IsCut};
ghost use Rattle.vrp_bound_prices.specs.declared.limits.TheConstants.{MAX_CUTS, MAX_SCALE};

use crate::ascent::guide::{Guide, MOST_ROUNDS, sparse_neighbors};
use crate::ascent::remembered::Remembered;
use crate::ascent::shares::Shares;
use crate::ascent::size::Size;
use crate::ascent::step::Ascent;
use crate::ascent::stepped_cuts::SteppedCuts;
use crate::ascent::unit::unit_for;
use crate::ascent::walks::Walks;
use crate::cut::CapacityCut;
use crate::limits::MAX_SCALE;
use crate::relaxation::Relaxation;
use std::alloc::Global;
use vrp_model::{Instance, MOST_NEAR, NgSets, NoMemory, Watch};

// The cost of a plan, after scaling, is about this.
const SCALED_COST: u64 = 1_000_000_000;

/// Prices, and the ng-sets with which they bound well.
#[derive(Debug, Drop)]
pub struct FoundPrices<'a> {
    /// The relaxation by the prices and cut prices.
    pub relaxation: Relaxation<'a>,
    /// The ng-sets of the walks in the rounds.
    pub ng_sets: NgSets,
}

/// Finds prices and cut prices that bound the instance's plans well, with the ng-sets of the walks in the rounds (the ng-routes of
/// Baldacci, Mingozzi and Roberti 2011). `cost` is the cost of a plan, at which the bound aims. At most `steps` steps are taken: looks
/// from one cell of a table at another, and looks at an arc for a cut with a price. Up to `near` customers are near each place, fewer if
/// rounds would be long or few. The watch is asked before each round.
///
/// Demands are counted in the finest unit that the steps allow. If costs are symmetric, steps go by the least route through each
/// customer; with many customers, rounds are then over the arcs between near places, and one over all arcs follows in any case. `None`
/// if the steps don't suffice for twelve rounds over all arcs without ng-sets (for twenty if costs are not symmetric), if no unit makes
/// the tables small enough, or if the prices are out of range. The contract leaves open which prices and ng-sets are found: any prices
/// bound.
pub fn find_prices<'a, W: Watch>(
    alloc: Global,
    instance: &'a Instance,
    cost: u64,
    near: usize,
    steps: u64,
    watch: &W,
) -> Result<Option<FoundPrices<'a>>, NoMemory>
    requires near { near ≤ MOST_NEAR }
    ensures relaxation { IfOk result (λ found.
        IfSome found (λ prices. prices.relaxation.problem ≡ instance.now)) }
    ensures ng_sets { IfOk result (λ found.
        IfSome found (λ prices. prices.ng_sets.places ≡ place_count instance.now)) }
{
    let guide = Guide::of(instance);
    let Some(unit) = unit_for(instance, guide, steps) else {
        return Ok(None);
    };
    let scale = (SCALED_COST / cost.max(1)).clamp(1, MAX_SCALE);
    let size = Size::in_units(instance, unit);
    let near = guide.near_customers(size, near, steps);
    let Remembered {
        ng_sets,
        looks,
        size,
    } = Remembered::new(alloc, instance, size, near)?;
    let walks = Walks::new(alloc, instance, scale, unit, size, looks)?;
    let mut rounds = Rounds {
        instance,
        walks,
        size,
        scale,
    };
    let best = rounds.best_prices(alloc, guide, Aim { cost, steps }, watch)?;
    match Relaxation::new(alloc, instance, scale, unit, &best.prices, &best.cuts)? {
        Some(relaxation) => Ok(Some(FoundPrices {
            relaxation,
            ng_sets,
        })),
        None => Ok(None),
    }
}

// The cost of a plan, at which the bound aims, and the most steps.
#[derive(Clone, Copy)]
struct Aim {
    cost: u64,
    steps: u64,
}

// A price for each place, and cuts with their prices.
#[derive(Drop)]
struct BestPrices {
    prices: Vec<i64>,
    cuts: Vec<CapacityCut>,
}

// What all rounds share: the tables that they fill, the size of these, and the scale of the weights.
#[derive(Drop)]
struct Rounds<'a> {
    instance: &'a Instance,
    walks: Walks,
    size: Size,
    scale: u64,
}

impl Rounds<'_> {
    // The prices with the highest bound.
    fn best_prices<W: Watch>(
        &mut self,
        alloc: Global,
        guide: Guide,
        aim: Aim,
        watch: &W,
    ) -> Result<BestPrices, NoMemory>
        ensures one_each { IfOk result (λ best. vec_len best.prices ≡ place_count self.old.instance.now) }
        ensures cuts { IfOk result (λ best. All (IsCut self.old.instance.now) best.cuts.items) }
        ensures few { IfOk result (λ best. vec_len best.cuts ≤ MAX_CUTS) }
    {
        let mut ascent = self.new_ascent(alloc, guide, aim.cost)?;
        // The last round is over all arcs.
        let steps = aim.steps.saturating_sub(self.size.steps());
        self.ascend(alloc, &mut ascent, steps, watch)?;
        let (prices, cuts) = ascent.into_best(&mut self.walks)?;
        let prices = self.lifted(alloc, &prices, &cuts)?;
        let cuts = cuts.into_cuts(alloc, self.instance)?;
        Ok(BestPrices { prices, cuts })
    }

    // Starts without prices. If steps go by the least route through each customer, and there are many, rounds are over a sparse graph.
    fn new_ascent(&mut self, alloc: Global, guide: Guide, cost: u64) -> Result<Ascent, NoMemory>
        ensures { IfOk result (λ _. self.new.instance ≡ self.old.instance) }
    {
        let places = usize::from(self.instance.customers()) + 1;
        let scale = i64::try_from(self.scale).unwrap_or(1);
        let aim = i64::try_from(cost).unwrap_or(i64::MAX);
        let shares = match guide {
            Guide::Routes => Some(Shares::new(alloc, &self.walks)?),
            Guide::Tours => None,
        };
        if let (Some(_), Some(count)) = (&shares, sparse_neighbors(places)) {
            self.walks.keep_nearest(alloc, count)?;
        }
        Ascent::new(alloc, places, scale, aim, shares)
    }

    // Fills the tables and steps until the steps are spent, more of them are not worth it, or it is stopped.
    fn ascend<W: Watch>(
        &mut self,
        alloc: Global,
        ascent: &mut Ascent,
        steps: u64,
        watch: &W,
    ) -> Result<(), NoMemory>
        ensures { self.new.instance ≡ self.old.instance }
    {
        let mut left = steps;
        let filling = self.size.steps_over(self.walks.arcs_looked_at());
        for _ in 0..MOST_ROUNDS {
            let round = filling.saturating_add(self.size.cut_prices(ascent.priced_cuts()));
            if left < round || !watch.should_continue() {
                break;
            }
            left -= round;
            let Some(tours) = ascent.fill(&mut self.walks) else {
                break;
            };
            if !ascent.step(alloc, self.instance, &mut self.walks, tours)? {
                break;
            }
        }
        Ok(())
    }

    // Raises each customer's price in proportion to its demand, until no arc has a negative cost. All walks of the same load pay the
    // same for that.
    fn lifted(
        &mut self,
        alloc: Global,
        prices: &[i64],
        cuts: &SteppedCuts,
    ) -> Result<Vec<i64>, NoMemory>
        ensures instance { self.new.instance ≡ self.old.instance }
        ensures one_each { IfOk result (λ lifted. vec_len lifted ≡ place_count self.old.instance.now) }
    {
        cuts.enter(&mut self.walks, prices);
        let lift = self.walks.least_lift();
        let mut lifted = Vec::with_capacity(alloc, usize::from(self.instance.customers()) + 1)?;
        for place in 0..self.instance.customers() + 1 {
            let demand = i64::try_from(self.walks.demand(usize::from(place))).unwrap_or(0);
            let price = prices.get(usize::from(place)).copied().unwrap_or(0);
            lifted.push(price.wrapping_add(lift.wrapping_mul(demand)))?;
        }
        Ok(lifted)
    }
}
