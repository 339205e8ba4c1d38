//! Cuts whose prices step along with the prices of customers.
ghost use Rattle.std.specs.Prelude.{◌≤◌, All, IfOk, pos, ◌<ℤ◌, vec_len};
ghost use Rattle.vrp_bound_prices.specs.CapacityCut.{IsCut};
ghost use Rattle.vrp_bound_prices.specs.declared.limits.TheConstants.{MAX_CUTS};

use crate::ascent::flow::Flow;
use crate::ascent::separation::violated_cuts;
use crate::ascent::step::deflected;
use crate::ascent::tours_used::{UsedArc, WHOLE_TOUR};
use crate::ascent::walks::Walks;
use crate::cut::CapacityCut;
use crate::limits::{MAX_CUT_PRICE, MAX_CUTS};
use std::alloc::Global;
use vrp_model::{Instance, NoMemory};

// Cuts are looked for after this many rounds, and then whenever `ROUNDS_BETWEEN` more are made.
const FIRST_ROUNDS: u32 = 30;

const ROUNDS_BETWEEN: u32 = 15;

// At most this many are added at once.
const MOST_AT_ONCE: usize = 8;

// A cut with its current price.
#[derive(Drop)]
struct SteppedCut {
    inside: Vec<bool>,
    trucks: i64,
    cut_price: i64,
    // The cut price by the best prices.
    best: i64,
    // The direction of the last step.
    direction: i64,
}

impl SteppedCut {
    // Whether its cut price is, or is to be, above 0.
    fn is_live(&self) -> bool {
        self.direction > 0 || self.cut_price > 0
    }

    // How often the arcs cross its border; a whole tour counts `WHOLE_TOUR`.
    fn crossings(&self, used: &[UsedArc]) -> i64 {
        let mut crossings = 0i64;
        for arc in used {
            if self.has(arc.from) != self.has(arc.to) {
                crossings = crossings.wrapping_add(arc.part);
            }
        }
        crossings
    }

    fn has(&self, place: usize) -> bool {
        self.inside.get(place).copied().unwrap_or(false)
    }
}

/// The cuts found so far, and the flow in which more are sought.
#[derive(Drop)]
pub(crate) struct SteppedCuts {
    cuts: Vec<SteppedCut>,
    flow: Flow,
    // The rounds until cuts are sought again.
    wait: u32,
}

impl SteppedCuts {
    /// No cuts yet.
    pub(crate) fn new(alloc: Global, places: usize) -> Result<SteppedCuts, NoMemory> {
        Ok(SteppedCuts {
            cuts: Vec::new(alloc),
            flow: Flow::new(alloc, places)?,
            wait: FIRST_ROUNDS,
        })
    }

    /// Enters the arcs with these prices, and with the cut prices.
    pub(crate) fn enter(&self, walks: &mut Walks, prices: &[i64]) {
        walks.enter(prices);
        for cut in &self.cuts {
            if cut.cut_price > 0 {
                walks.take_off(&cut.inside, cut.cut_price);
            }
        }
    }

    /// The number of cuts with a price.
    pub(crate) fn priced_cuts(&self) -> u64 {
        let mut priced_cuts = 0u64;
        for cut in &self.cuts {
            if cut.cut_price > 0 {
                priced_cuts = priced_cuts.wrapping_add(1);
            }
        }
        priced_cuts
    }

    /// The least amount that the cut prices take off each plan.
    pub(crate) fn rewards(&self) -> i64 {
        let mut rewards = 0i64;
        for cut in &self.cuts {
            let one = cut.trucks.wrapping_mul(cut.cut_price).wrapping_mul(2);
            rewards = rewards.wrapping_add(one);
        }
        rewards
    }

    /// Adds the arcs that a round used, and looks for new cuts now and then; answers whether any were found.
    pub(crate) fn look_for_more(
        &mut self,
        alloc: Global,
        instance: &Instance,
        used: &[UsedArc],
    ) -> Result<bool, NoMemory> {
        self.flow.add(used);
        self.wait = self.wait.saturating_sub(1);
        if self.wait > 0 || self.cuts.len() >= MAX_CUTS {
            return Ok(false);
        }
        self.wait = ROUNDS_BETWEEN;
        let before = self.cuts.len();
        let most = before.saturating_add(MOST_AT_ONCE).min(MAX_CUTS);
        for cut in violated_cuts(alloc, instance, &self.flow)? {
            if self.cuts.len() < most && !self.is_known(&cut.inside) {
                self.cuts.push(SteppedCut {
                    inside: cut.inside,
                    trucks: cut.trucks,
                    cut_price: 0,
                    best: 0,
                    direction: 0,
                })?;
            }
        }
        Ok(self.cuts.len() > before)
    }

    fn is_known(&self, inside: &[bool]) -> bool {
        self.cuts.iter().any(|cut| cut.inside.as_slice() == inside)
    }

    /// Turns the directions by the arcs that a round used, and answers their part of the length.
    pub(crate) fn turn(&mut self, used: &[UsedArc]) -> i64 {
        let mut length = 0i64;
        for cut in self.cuts.iter_mut() {
            let crossings = cut.crossings(used);
            let wanting = cut
                .trucks
                .wrapping_mul(2 * WHOLE_TOUR)
                .wrapping_sub(crossings);
            cut.direction = deflected(cut.direction, wanting);
            if cut.is_live() {
                length = length.wrapping_add(cut.direction.wrapping_mul(cut.direction) / 4);
            }
        }
        length
    }

    /// Steps along the directions. No cut price falls below 0.
    pub(crate) fn go(&mut self, pace: i64, length: i64)
        requires { pos 0 <ℤ length }
    {
        for cut in self.cuts.iter_mut() {
            let step = pace.wrapping_mul(cut.direction) / length;
            cut.cut_price = cut.cut_price.wrapping_add(step).max(0);
        }
    }

    /// Keeps the cut prices as those of the best prices.
    pub(crate) fn keep(&mut self) {
        for cut in self.cuts.iter_mut() {
            cut.best = cut.cut_price;
        }
    }

    /// Returns to the cut prices of the best prices.
    pub(crate) fn go_back(&mut self) {
        for cut in self.cuts.iter_mut() {
            cut.cut_price = cut.best;
        }
    }

    /// The cuts that have a price.
    pub(crate) fn into_cuts(
        self,
        alloc: Global,
        instance: &Instance,
    ) -> Result<Vec<CapacityCut>, NoMemory>
        ensures cuts { IfOk result (λ cuts. All (IsCut instance.now) cuts.items) }
        ensures few { IfOk result (λ cuts. vec_len cuts ≤ MAX_CUTS) }
    {
        let places = usize::from(instance.customers()) + 1;
        let mut cuts = Vec::new(alloc);
        for cut in self.cuts {
            let cut_price = u64::try_from(cut.cut_price).unwrap_or(0).min(MAX_CUT_PRICE);
            if cut_price > 0 && cut.inside.len() == places && cuts.len() < MAX_CUTS {
                cuts.push(CapacityCut::new(instance, cut.inside, cut_price))?;
            }
        }
        Ok(cuts)
    }
}
