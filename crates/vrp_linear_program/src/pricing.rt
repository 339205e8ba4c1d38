//! Pricing: the reduced costs of all columns, and the columns with the least.
use crate::entries::sum_at;
use crate::matrix::{Column, Matrix};
use crate::shortlist::Ranked;
use crate::simplex::{Simplex, signed_sum};
use std::alloc::AllocError;

impl Simplex {
    /// Lists all columns with their reduced costs, except those that must not enter.
    pub(crate) fn rank_all(&mut self, matrix: &Matrix) -> Result<(), AllocError> {
        self.ranked.clear();
        self.rank_units(matrix)?;
        let rows = matrix.rows.as_slice();
        let columns = matrix.spans.iter().zip(&self.costs.named);
        for (index, (span, &cost)) in columns.enumerate() {
            let sum = sum_at(span.of(rows), &self.prices);
            let column = Column::Named(index);
            if !matrix.is_banned(&column) {
                let reduced = cost.wrapping_sub(sum);
                self.ranked.push(Ranked { reduced, column })?;
            }
        }
        Ok(())
    }

    // Lists the columns with one row.
    fn rank_units(&mut self, matrix: &Matrix) -> Result<(), AllocError> {
        let mut row = 0u16;
        for _ in 0..matrix.height() {
            self.rank(matrix, Column::Surplus(row))?;
            self.rank(matrix, Column::Artificial(row))?;
            row = row.wrapping_add(1);
        }
        Ok(())
    }

    fn rank(&mut self, matrix: &Matrix, column: Column) -> Result<(), AllocError> {
        let reduced = self.reduced_cost(matrix, &column);
        self.ranked.push(Ranked { reduced, column })?;
        Ok(())
    }

    /// Computes the reduced costs of the listed columns anew.
    pub(crate) fn rank_again(&mut self, matrix: &Matrix) {
        for ranked in self.ranked.iter_mut() {
            let sum = signed_sum(matrix, &ranked.column, &self.prices);
            ranked.reduced = self.costs.of(&ranked.column).wrapping_sub(sum);
        }
    }

    /// The same for the columns of the shortlist.
    pub(crate) fn reduce_shortlist(&mut self, matrix: &Matrix) {
        for candidate in self.shortlist.candidates.iter_mut() {
            let sum = signed_sum(matrix, &candidate.column, &self.prices);
            candidate.reduced = self.costs.of(&candidate.column).wrapping_sub(sum);
        }
    }

    /// Keeps the listed columns with the least reduced costs, so many.
    pub(crate) fn keep_least(&mut self, most: usize) {
        keep_least(&mut self.ranked, most);
    }
}

/// Keeps the least of these, so many, in any order.
pub(crate) fn keep_least(ranked: &mut Vec<Ranked>, most: usize) {
    if most < ranked.len() {
        let _ = ranked.as_mut_slice().select_nth_unstable(most);
        ranked.truncate(most);
    }
}
