//! A node of the search: rounds of solving its program and adding cuts.
use crate::fixed_point::{UNIT, wide_product};
use crate::naming::NO_NAME;
use crate::program::RouteProgram;
use crate::progress::Progress;
use crate::row_prices::RowPrices;
use std::alloc::{AllocError, Global};
use vrp_model::{FleetView, Watch};
use vrp_partition::Route;

/// Below each bound.
pub(crate) const NO_BOUND: i64 = i64::MIN;

// With this few routes within the gap the search needs no more cuts.
const FEW_ROUTES: usize = 300;

// With at most this many routes the search tries the exact cover, so prices for fewer routes would not pay.
const MANY_ROUTES: usize = 3_000;

const MOST_CUTS: usize = 250;

const MOST_DUAL_STEPS: u64 = 6_000;

const MOST_PRIMAL_STEPS: u64 = 20_000;

// The number of passes over the pool, and the number of routes that each pass brings in.
const MOST_PASSES: usize = 80;

const MOST_COMING: usize = 600;

// With more columns than this, those with the greatest reduced costs go.
const MOST_COLUMNS: usize = 8_000;

const FEWER_COLUMNS: usize = 4_000;

// A route comes in if its reduced cost is less.
const NOTHING: i64 = -(UNIT >> 13);

/// A node: its program, and the prices of its pool.
#[derive(Drop)]
pub(crate) struct Node<'a, W: Watch> {
    pub(crate) alloc: Global,
    pub(crate) watch: &'a W,
    pub(crate) fleet: FleetView<'a>,
    pub(crate) program: RouteProgram,
    // By place in the pool: the program's names of the routes, and their reduced costs, very high ones not exactly.
    pub(crate) names: Vec<u32>,
    pub(crate) reduced: Vec<i64>,
    // The highest cost of a choice that is sought, as a price.
    pub(crate) limit: i64,
    pub(crate) progress: Progress,
    // The prices that bound best, earlier nodes included.
    pub(crate) best: Option<RowPrices>,
    pub(crate) best_bound: i64,
    // The best bound by the program's own prices.
    pub(crate) own_bound: i64,
}

impl<W: Watch> Node<'_, W> {
    /// Solves the program over the pool, and adds cuts and solves it again, until the bound is above the limit or rounds gain nothing.
    pub(crate) fn run(&mut self, pool: &[Route]) -> Result<(), AllocError> {
        self.progress.is_paused = false;
        for _ in 0..Progress::MOST_ROUNDS.saturating_add(1) {
            if !self.cut()? {
                break;
            }
            let bound = self.solve(pool)?;
            if bound > self.limit || !self.watch.should_continue() {
                return Ok(());
            }
            let gap = self.limit.saturating_sub(bound);
            self.progress.count_gain(bound, gap);
            let within = self.within(gap);
            if within <= FEW_ROUTES
                || self.progress.is_done()
                || self.program.cuts.len() > MOST_CUTS
            {
                break;
            }
            self.progress.round = self.progress.round.saturating_add(1);
            if is_worth_a_pause(within, pool.len()) {
                self.progress.is_paused = true;
                break;
            }
        }
        if self.best.is_none() {
            self.price(pool)?;
        }
        Ok(())
    }

    // Adds cuts, except before the first solution. False if the solution violates none.
    fn cut(&mut self) -> Result<bool, AllocError> {
        if self.progress.round > 0 || !self.progress.is_root {
            self.program.remove_slack_rows()?;
        }
        if self.progress.round == 0 {
            return Ok(true);
        }
        Ok(self.program.add_broken_cuts(&self.fleet)? > 0)
    }

    // Solves the program over the whole pool, whose routes with negative reduced costs come in until there are none. Answers the bound.
    fn solve(&mut self, pool: &[Route]) -> Result<i64, AllocError> {
        self.program.regain_feasibility(MOST_DUAL_STEPS)?;
        let mut bound = NO_BOUND;
        for _ in 0..MOST_PASSES {
            self.program.lower_cost(MOST_PRIMAL_STEPS)?;
            bound = self.price(pool)?;
            if !self.watch.should_continue() || !self.take_negative(pool)? {
                break;
            }
            if self.program.linear.column_count() > MOST_COLUMNS {
                self.program.trim(FEWER_COLUMNS)?;
            }
        }
        Ok(bound)
    }

    // Prices the pool, and keeps the prices if they bound better than earlier ones. Answers their bound: with the least reduced cost, if it
    // is negative, added to each customer's price no reduced cost is.
    fn price(&mut self, pool: &[Route]) -> Result<i64, AllocError> {
        let prices = RowPrices::new(&self.program)?;
        let scope = self.program.scope;
        let sum = prices.sum(&scope);
        let mark = self.limit.saturating_sub(sum).max(0).saturating_add(UNIT);
        let mut least = 0i64;
        self.reduced.clear();
        for route in pool {
            let reduced = prices.reduced_cost(route, mark).unwrap_or(i64::MAX);
            least = least.min(reduced);
            self.reduced.push(reduced)?;
        }
        self.program.count_looks(pool.len());
        let lowered = wide_product(least, i64::from(scope.customers.len()));
        let bound = i64::try_from(i128::from(sum).wrapping_add(lowered)).unwrap_or(NO_BOUND);
        self.own_bound = self.own_bound.max(bound);
        if self.best.is_none() || bound > self.best_bound {
            self.best = Some(prices);
            self.best_bound = bound;
        }
        Ok(bound)
    }

    // The routes with the least reduced costs come in, if these are negative. False if none is.
    fn take_negative(&mut self, pool: &[Route]) -> Result<bool, AllocError> {
        let mut some = self.negative()?;
        if some.len() > MOST_COMING {
            let _ = some.as_mut_slice().select_nth_unstable(MOST_COMING);
            some.truncate(MOST_COMING);
        }
        some.sort_unstable_by_key(|&(_, place)| place);
        for &(_, place) in &some {
            if let Some(route) = pool.get(place) {
                self.take(route, place)?;
            }
        }
        Ok(!some.is_empty())
    }

    // The routes without a column whose reduced costs are negative.
    fn negative(&self) -> Result<Vec<(i64, usize)>, AllocError> {
        let mut some = Vec::new(self.alloc);
        for (place, (&reduced, &name)) in self.reduced.iter().zip(&self.names).enumerate() {
            if reduced < NOTHING && !self.program.has_column(name) {
                some.push((reduced, place))?;
            }
        }
        Ok(some)
    }

    // The route at a place of the pool comes in.
    fn take(&mut self, route: &Route, place: usize) -> Result<(), AllocError> {
        let Some(named) = self.names.get_mut(place) else {
            return Ok(());
        };
        if *named == NO_NAME {
            *named = self.program.name(route)?;
        }
        self.program.add_column(*named)
    }

    // The number of routes whose reduced cost is not above this one.
    fn within(&self, gap: i64) -> usize {
        self.reduced
            .iter()
            .filter(|reduced| **reduced <= gap)
            .count()
    }
}

// Whether the search would drop enough routes that it should do so now.
fn is_worth_a_pause(within: usize, count: usize) -> bool {
    count > MANY_ROUTES && within < count / 4 * 3
}
