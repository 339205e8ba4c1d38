//! The primal simplex: among the columns with the least reduced costs the best by Devex enters, until none is negative.
use crate::exchange::{Exchange, are_apart};
use crate::fixed_point::{UNIT, quotient};
use crate::matrix::Matrix;
use crate::pricing::keep_least;
use crate::ratio::leaving_position;
use crate::simplex::{Simplex, signed_sum};
use std::alloc::AllocError;

// A reduced cost counts as negative below this.
const NOTHING: i64 = -(UNIT >> 17);

// The number of columns with the least reduced costs that are looked at until none is negative.
const MOST_RANKED: usize = 1_000;

// The number of these that a shortlist has, and the number of steps among them.
const MOST_CANDIDATES: usize = 200;

// The number of attempts at a step among the columns of a shortlist.
const MOST_ATTEMPTS: usize = 1_000;

impl Simplex {
    /// Lets columns enter until none has a negative reduced cost, or the steps are spent.
    pub(crate) fn primal_steps(
        &mut self,
        matrix: &Matrix,
        most_steps: u64,
    ) -> Result<(), AllocError> {
        let last = self.steps.saturating_add(most_steps);
        let mut looks_at_all = true;
        let mut was_idle = false;
        for _ in 0..u64::MAX {
            self.rank_for_primal(matrix, looks_at_all)?;
            let is_empty = self.shortlist.candidates.is_empty();
            if self.steps >= last || is_empty && looks_at_all {
                break;
            }
            looks_at_all = is_empty;
            if !is_empty {
                let has_moved = self.primal_steps_among(matrix, last)?;
                if was_idle && !has_moved {
                    break;
                }
                was_idle = !has_moved;
                looks_at_all = was_idle;
            }
        }
        Ok(())
    }

    // Makes a shortlist of columns with negative reduced costs, among all or among those that were looked at last.
    fn rank_for_primal(&mut self, matrix: &Matrix, looks_at_all: bool) -> Result<(), AllocError> {
        if looks_at_all {
            self.rank_all(matrix)?;
            self.keep_least(MOST_RANKED);
        } else {
            self.rank_again(matrix);
        }
        self.least.clear();
        for ranked in &self.ranked {
            if ranked.reduced < NOTHING {
                self.least.push(*ranked)?;
            }
        }
        keep_least(&mut self.least, MOST_CANDIDATES);
        self.shortlist.clear();
        for ranked in &self.least {
            self.shortlist.push(matrix, ranked)?;
        }
        Ok(())
    }

    // Lets columns of the shortlist enter. Answers whether one did.
    fn primal_steps_among(&mut self, matrix: &Matrix, last: u64) -> Result<bool, AllocError> {
        let mut moved = 0usize;
        let mut seen = self.factorizations;
        for _ in 0..MOST_ATTEMPTS {
            if seen != self.factorizations {
                seen = self.factorizations;
                self.reduce_shortlist(matrix);
            }
            let Some(index) = self.shortlist.best(NOTHING) else {
                break;
            };
            if moved > MOST_CANDIDATES || self.steps >= last {
                break;
            }
            if self.primal_step(matrix, index)? {
                moved = moved.saturating_add(1);
            }
        }
        Ok(moved > 0)
    }

    // Lets a column of the shortlist enter, or removes it if it cannot. Answers whether it did.
    fn primal_step(&mut self, matrix: &Matrix, index: usize) -> Result<bool, AllocError> {
        let Some(candidate) = self.shortlist.get(index) else {
            return Ok(false);
        };
        self.make_direction(matrix, &candidate.column);
        let direction = &self.tables.direction;
        let Some(position) = leaving_position(self.values.as_slice(), direction) else {
            self.shortlist.remove(index);
            return Ok(false);
        };
        self.make_line(matrix, position, 1);
        let pivot = self.pivot(position);
        let by_row = signed_sum(matrix, &candidate.column, &self.tables.line);
        if are_apart(by_row, pivot) {
            self.distrust(matrix, index)?;
            return Ok(false);
        }
        self.shortlist.make_entries(&self.tables.line);
        self.shortlist
            .move_reduced(quotient(candidate.reduced, pivot));
        self.shortlist.move_weights(index, pivot);
        let exchange = Exchange {
            entering: candidate.column,
            position,
            value: quotient(self.value(position).max(0), pivot),
            reduced: candidate.reduced,
        };
        self.exchange(matrix, &exchange)?;
        Ok(true)
    }

    // Factorizes anew, or removes a column where that was done already.
    fn distrust(&mut self, matrix: &Matrix, index: usize) -> Result<(), AllocError> {
        self.steps = self.steps.wrapping_add(1);
        if self.factors.is_fresh() {
            self.shortlist.remove(index);
            Ok(())
        } else {
            self.refactorize(matrix)
        }
    }
}
