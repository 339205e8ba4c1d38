//! One step of prices and cut prices towards a higher bound: a deflected subgradient (Camerini, Fratta and Maffioli 1975).
ghost use Rattle.std.specs.Prelude.{pos, ◌<ℤ◌};

use crate::ascent::shares::Shares;
use crate::ascent::stepped_cuts::SteppedCuts;
use crate::ascent::tours_used::{UsedArc, WHOLE_TOUR};
use crate::ascent::walks::Walks;
use std::alloc::Global;
use vrp_model::{Instance, NoMemory};

// The weight of one visit or crossing too many or too few in a direction.
const UNIT: i64 = 256;

// The pace of the first step, in 1024ths, and the least pace of a step.
const FIRST_PACE: i64 = 1_024;

const LAST_PACE: i64 = 4;

// The least pace with which new cuts begin.
const PACE_OF_NEW_CUTS: i64 = 300;

// After this many rounds without a better bound the pace falls.
const PATIENCE: u32 = 15;

// Steps by the routes of all customers are surer: so the first is shorter, and the pace falls sooner.
const FIRST_PACE_BY_SHARES: i64 = 400;

const PATIENCE_BY_SHARES: u32 = 3;

// When the pace has fallen to its least, steps begin again from the best prices with twice the patience, up to this.
const MOST_PATIENCE: u32 = 24;

/// The current prices and cut prices, and the best so far.
#[derive(Drop)]
pub(crate) struct Ascent {
    // The scaled cost of the plan at which the bound aims.
    aim: i64,
    scale: i64,
    prices: Vec<i64>,
    cuts: SteppedCuts,
    // Present if steps go by the least route through each customer, and not by the least tours.
    shares: Option<Shares>,
    // The direction of the last step.
    direction: Vec<i64>,
    used: Vec<UsedArc>,
    visits: Vec<i64>,
    best: Vec<i64>,
    // The bound by the best prices.
    low: Option<i64>,
    pace: i64,
    // The number of rounds without a better bound, and the most there may be.
    stale: u32,
    patience: u32,
}

impl Ascent {
    /// Starts without prices. Steps go by the least routes through customers, if these are given.
    pub(crate) fn new(
        alloc: Global,
        places: usize,
        scale: i64,
        cost: i64,
        shares: Option<Shares>,
    ) -> Result<Ascent, NoMemory> {
        let (pace, patience) = match &shares {
            Some(_) => (FIRST_PACE_BY_SHARES, PATIENCE_BY_SHARES),
            None => (FIRST_PACE, PATIENCE),
        };
        Ok(Ascent {
            aim: scale.saturating_mul(cost),
            scale,
            prices: vec![in alloc; 0; places]?,
            cuts: SteppedCuts::new(alloc, places)?,
            shares,
            direction: vec![in alloc; 0; places]?,
            used: Vec::new(alloc),
            visits: vec![in alloc; 0; places]?,
            best: vec![in alloc; 0; places]?,
            low: None,
            pace,
            stale: 0,
            patience,
        })
    }

    /// Fills the tables by the prices and cut prices to be tried next, and answers the cost of the least tours, if there are any; 0 if
    /// tours are not needed.
    pub(crate) fn fill(&self, walks: &mut Walks) -> Option<i64> {
        self.cuts.enter(walks, &self.prices);
        match &self.shares {
            Some(_) => {
                walks.fill_walks();
                Some(0)
            }
            None => walks.fill(),
        }
    }

    /// The number of cuts with a price.
    pub(crate) fn priced_cuts(&self) -> u64 {
        self.cuts.priced_cuts()
    }

    /// The best prices, and the cuts with their prices. If steps go by the least routes through customers, one more round is made over
    /// all arcs: a route over an arc that was not in the sparse graph may cost less than nothing.
    pub(crate) fn into_best(
        mut self,
        walks: &mut Walks,
    ) -> Result<(Vec<i64>, SteppedCuts), NoMemory> {
        self.cuts.go_back();
        if let Some(shares) = &mut self.shares {
            walks.keep_all();
            self.cuts.enter(walks, &self.best);
            walks.fill_walks();
            shares.settle(walks, self.best.as_mut_slice())?;
        }
        Ok((self.best, self.cuts))
    }

    /// Steps on from the tables filled last, for which `fill` gave this answer; false if no more steps are worth it.
    pub(crate) fn step(
        &mut self,
        alloc: Global,
        instance: &Instance,
        walks: &Walks,
        tours: i64,
    ) -> Result<bool, NoMemory> {
        let bound = self.bound(walks, tours)?;
        self.keep(bound);
        let reached = self.aim.saturating_sub(self.scale);
        if self.low.is_some_and(|low| low > reached) || self.is_over() {
            return Ok(false);
        }
        match &self.shares {
            Some(shares) => shares.list_used(walks, &mut self.used)?,
            None => walks.list_used(&mut self.used)?,
        }
        if self.cuts.look_for_more(alloc, instance, &self.used)? {
            self.pace = self.pace.max(PACE_OF_NEW_CUTS);
        }
        Ok(self.go_on(bound))
    }

    // Whether the pace has fallen to its least, and it doesn't pay to begin again from the best prices; if it does pay, begins again.
    fn is_over(&mut self) -> bool {
        if self.pace >= LAST_PACE {
            return false;
        }
        if self.shares.is_none() || self.patience >= MOST_PATIENCE {
            return true;
        }
        self.patience = self.patience.saturating_mul(2);
        self.pace = PACE_OF_NEW_CUTS;
        self.stale = 0;
        copy(self.prices.as_mut_slice(), &self.best);
        self.cuts.go_back();
        false
    }

    // The lower bound on each plan, if the least tours cost this much. If each customer pays its share, the prices change first, and
    // then tours cost nothing.
    fn bound(&mut self, walks: &Walks, tours: i64) -> Result<i64, NoMemory> {
        if let Some(shares) = &mut self.shares {
            shares.settle(walks, self.prices.as_mut_slice())?;
        }
        let charges = sum(&self.prices).wrapping_mul(2);
        Ok(
            tours
                .wrapping_sub(charges)
                .wrapping_add(self.cuts.rewards()),
        )
    }

    // Takes a step by the arcs that were used; false if all visits and crossings are as they should be.
    fn go_on(&mut self, bound: i64) -> bool {
        count_visits(self.visits.as_mut_slice(), &self.used);
        turn(self.direction.as_mut_slice(), &self.visits);
        let length = self
            .cuts
            .turn(&self.used)
            .wrapping_add(square_sum(&self.direction));
        if length <= 0 {
            return false;
        }
        let gap = self
            .aim
            .saturating_add(self.aim / 200)
            .saturating_sub(bound)
            .max(self.scale);
        // Half of a price is paid on the inbound arc, and half on the outbound arc; a cut price steps half as far.
        let pace = self.pace.saturating_mul(gap) / 8;
        go(self.prices.as_mut_slice(), &self.direction, pace, length);
        self.cuts.go(pace / 2, length);
        true
    }

    // Keeps the prices if they give the best bound. A gain of less than a twenty-thousandth doesn't count.
    fn keep(&mut self, bound: i64) {
        let gain = match self.low {
            Some(low) if bound <= low => false,
            Some(low) => bound.saturating_sub(low) > low.saturating_abs() / 20_000,
            None => true,
        };
        if self.low.is_none_or(|low| bound > low) {
            self.low = Some(bound);
            copy(self.best.as_mut_slice(), &self.prices);
            self.cuts.keep();
        }
        self.stale = if gain {
            0
        } else {
            self.stale.saturating_add(1)
        };
        if self.stale >= self.patience {
            self.pace = self.pace.saturating_mul(3) / 4;
            self.stale = 0;
        }
    }
}

/// A direction: three tenths of the last one, and seven tenths of the current excess or lack; a whole tour counts `WHOLE_TOUR`.
pub(crate) fn deflected(last: i64, now: i64) -> i64 {
    let now = now / (WHOLE_TOUR / UNIT);
    last.wrapping_mul(3).wrapping_add(now.wrapping_mul(7)) / 10
}

// Counts the visits of each customer; a whole tour counts `WHOLE_TOUR`. The depot counts as visited once, so it keeps no price.
fn count_visits(visits: &mut [i64], used: &[UsedArc]) {
    visits.fill(0);
    for arc in used {
        if let Some(count) = visits.get_mut(arc.to) {
            *count = count.wrapping_add(arc.part);
        }
    }
    if let Some(depot) = visits.first_mut() {
        *depot = WHOLE_TOUR;
    }
}

// Each customer's part of the direction, by the visits beyond one.
fn turn(direction: &mut [i64], visits: &[i64]) {
    for (arc, &count) in direction.iter_mut().zip(visits) {
        *arc = deflected(*arc, count.wrapping_sub(WHOLE_TOUR));
    }
}

// A step along the direction; the pace and the direction's length give its size.
fn go(prices: &mut [i64], direction: &[i64], pace: i64, length: i64)
    requires { pos 0 <ℤ length }
{
    for (price, &arc) in prices.iter_mut().zip(direction) {
        *price = price.wrapping_add(pace.wrapping_mul(arc) / length);
    }
}

fn copy(to: &mut [i64], from: &[i64]) {
    for (new, &old) in to.iter_mut().zip(from) {
        *new = old;
    }
}

fn sum(values: &[i64]) -> i64 {
    let mut sum = 0i64;
    for &value in values {
        sum = sum.wrapping_add(value);
    }
    sum
}

fn square_sum(values: &[i64]) -> i64 {
    let mut sum = 0i64;
    for &value in values {
        sum = sum.wrapping_add(value.wrapping_mul(value));
    }
    sum
}
