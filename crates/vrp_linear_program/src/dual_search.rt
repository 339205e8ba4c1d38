//! What a run of the dual simplex looks at: a shortlist of the columns with the least reduced costs, which grows where a step needs it.
use crate::devex::LIGHT;
use crate::fixed_point::UNIT;
use crate::matrix::{Column, Matrix};
use crate::pricing::keep_least;
use crate::shortlist::Ranked;
use crate::simplex::Simplex;
use std::alloc::{AllocError, Global};

// All columns are looked for again after so many steps.
const STEPS_BETWEEN: u64 = 20;

// From this reduced cost on, all columns are listed.
const MOST_REACH: i64 = UNIT << 12;

// A cost that was raised, and by how much.
#[derive(Clone, Copy, Debug)]
struct Raise {
    column: Column,
    more: i64,
}

/// The state of a run beside the basis.
#[derive(Debug, Drop)]
pub(crate) struct DualSearch {
    // Whether all columns are in the shortlist.
    is_whole: bool,
    // All columns whose reduced cost is less are in the shortlist when it is completed.
    reach: i64,
    // Whether each column, in the order of pricing, is in the shortlist.
    is_listed: Vec<bool>,
    // The number of steps when the shortlist was completed, and whether it is to be completed now.
    completed_at: u64,
    is_due: bool,
    raises: Vec<Raise>,
    // The Devex weights of the positions.
    pub(crate) weights: Vec<u64>,
    // How often fresh factors were not good.
    pub(crate) failures: u32,
}

impl DualSearch {
    /// A run that has not begun.
    pub(crate) fn new(alloc: Global) -> DualSearch {
        DualSearch {
            is_whole: true,
            reach: 0,
            is_listed: Vec::new(alloc),
            completed_at: 0,
            is_due: false,
            raises: Vec::new(alloc),
            weights: Vec::new(alloc),
            failures: 0,
        }
    }

    fn begin(&mut self, steps: u64, count: usize) -> Result<(), AllocError> {
        self.is_whole = true;
        self.reach = i64::MAX;
        self.completed_at = steps;
        self.is_due = false;
        self.failures = 0;
        self.raises.clear();
        self.is_listed.clear();
        self.weights.clear();
        for _ in 0..count {
            self.weights.push(LIGHT)?;
        }
        Ok(())
    }

    /// Sets all weights back.
    pub(crate) fn reset_weights(&mut self) {
        for weight in self.weights.iter_mut() {
            *weight = LIGHT;
        }
    }

    /// Asks for a longer shortlist where no column of it can enter. False if it has all columns.
    pub(crate) fn widen_to_all(&mut self) -> bool {
        self.reach = i64::MAX;
        self.is_due = true;
        !self.is_whole
    }

    /// Asks for a longer shortlist where the entering column is at its edge. False if it need not grow.
    pub(crate) fn widen_beyond(&mut self, reduced: i64) -> bool {
        if self.is_whole || reduced <= self.reach {
            return false;
        }
        self.reach = if reduced > MOST_REACH {
            i64::MAX
        } else {
            reduced.saturating_mul(4)
        };
        self.is_due = true;
        true
    }
}

impl Simplex {
    /// Makes the shortlist of a run, of so many columns.
    pub(crate) fn begin_dual(&mut self, matrix: &Matrix, many: usize) -> Result<(), AllocError> {
        self.dual.begin(self.steps, matrix.height())?;
        self.shortlist.clear();
        self.rank_all(matrix)?;
        self.set_reach(many)?;
        for index in 0..self.ranked.len() {
            let Some(&ranked) = self.ranked.get(index) else {
                break;
            };
            let is_listed = ranked.reduced < self.dual.reach;
            self.dual.is_listed.push(is_listed)?;
            if is_listed {
                self.list_for_dual(matrix, &ranked)?;
            }
        }
        if !self.dual.is_whole {
            self.dual.reach /= 2;
        }
        Ok(())
    }

    // Finds the reduced cost below which there are so many columns.
    fn set_reach(&mut self, many: usize) -> Result<(), AllocError> {
        if many < self.ranked.len() {
            self.least.clear();
            self.least.extend_from_slice(self.ranked.as_slice())?;
            keep_least(&mut self.least, many.saturating_add(1));
            let mut reach = i64::MIN;
            for ranked in &self.least {
                reach = reach.max(ranked.reduced);
            }
            self.dual.reach = reach.max(1);
            self.dual.is_whole = false;
        }
        Ok(())
    }

    // Adds a column to the shortlist. Its cost is raised if its reduced cost is negative.
    fn list_for_dual(&mut self, matrix: &Matrix, ranked: &Ranked) -> Result<(), AllocError> {
        if ranked.reduced < 0 {
            self.raise_cost(&ranked.column, ranked.reduced.wrapping_neg())?;
        }
        let reduced = ranked.reduced.max(0);
        let column = ranked.column;
        self.shortlist.push(matrix, &Ranked { reduced, column })
    }

    /// Raises the cost of a column until the run ends.
    pub(crate) fn raise_cost(&mut self, column: &Column, more: i64) -> Result<(), AllocError> {
        self.costs.raise(column, more);
        self.dual.raises.push(Raise {
            column: *column,
            more,
        })?;
        Ok(())
    }

    /// Adds the columns within reach to the shortlist, if it is time.
    pub(crate) fn complete_shortlist(&mut self, matrix: &Matrix) -> Result<(), AllocError> {
        let is_late = self.steps >= self.dual.completed_at.saturating_add(STEPS_BETWEEN);
        if self.dual.is_whole || !is_late && !self.dual.is_due {
            return Ok(());
        }
        self.dual.completed_at = self.steps;
        self.dual.is_due = false;
        self.rank_all(matrix)?;
        for index in 0..self.ranked.len() {
            let Some(&ranked) = self.ranked.get(index) else {
                break;
            };
            let is_near = ranked.reduced < self.dual.reach;
            if is_near && self.mark_listed(index) {
                self.list_for_dual(matrix, &ranked)?;
            }
        }
        self.dual.is_whole = self.dual.reach == i64::MAX;
        Ok(())
    }

    // Notes that a column is listed. False if it was before.
    fn mark_listed(&mut self, index: usize) -> bool {
        match self.dual.is_listed.get_mut(index) {
            Some(is_listed) => {
                let was_listed = *is_listed;
                *is_listed = true;
                !was_listed
            }
            None => false,
        }
    }

    /// Lowers the raised costs again.
    pub(crate) fn end_dual(&mut self, matrix: &Matrix) {
        if self.dual.raises.is_empty() {
            return;
        }
        for raise in &self.dual.raises {
            self.costs.raise(&raise.column, raise.more.wrapping_neg());
        }
        self.dual.raises.clear();
        self.make_prices(matrix);
    }
}
