//! The values and prices of a basis, each computed twice: the second time for what is left, which is known exactly.
use crate::entries::{Table, place};
use crate::fixed_point::{ONE, clamped, clamped_entry, is_tiny, widen};
use crate::matrix::Matrix;
use crate::simplex::{Simplex, signed_sum};
use std::alloc::AllocError;

// The values of a basis leave less than this of the right-hand sides, if its factors are good.
const MOST_LEFT: i64 = ONE >> 23;

impl Simplex {
    /// Computes the values from the right-hand sides.
    pub(crate) fn make_values(&mut self, matrix: &Matrix) -> Result<(), AllocError> {
        for (wide, &side) in self.tables.wide.iter_mut().zip(&self.sides) {
            *wide = widen(side);
        }
        self.factors
            .solve_forward(&mut self.tables.wide, &mut self.tables.direction);
        self.values.clear();
        for &number in self.tables.direction.iter().take(self.basis.len()) {
            self.values.push(number)?;
        }
        self.make_residual(matrix);
        if has_any(&self.tables.residual, matrix.height()) {
            self.correct_values();
        }
        Ok(())
    }

    // Adds the values for what is left of the right-hand sides.
    fn correct_values(&mut self) {
        let tables = &mut self.tables;
        for (wide, &left) in tables.wide.iter_mut().zip(tables.residual.iter()) {
            *wide = widen(left);
        }
        self.factors
            .solve_forward(&mut self.tables.wide, &mut self.tables.direction);
        for (value, &more) in self.values.iter_mut().zip(self.tables.direction.iter()) {
            *value = clamped(value.wrapping_add(more));
        }
    }

    // Writes what the values leave of the right-hand sides.
    fn make_residual(&mut self, matrix: &Matrix) {
        let residual = &mut self.tables.residual;
        for number in residual.iter_mut() {
            *number = 0;
        }
        for (left, &side) in residual.iter_mut().zip(&self.sides) {
            *left = side;
        }
        for (column, &value) in self.basis.iter().zip(&self.values) {
            let value = if matrix.is_negative(column) {
                value.wrapping_neg()
            } else {
                value
            };
            for &row in matrix.rows_of(column) {
                let index = place(row);
                residual[index] = clamped(residual[index].wrapping_sub(value));
            }
        }
    }

    /// Whether the values leave so much of the right-hand sides that the factors are not good.
    pub(crate) fn is_off(&mut self, matrix: &Matrix) -> bool {
        self.make_residual(matrix);
        let left = self.tables.residual.iter().take(matrix.height());
        let mut is_off = false;
        for &number in left {
            is_off |= number > MOST_LEFT || number < MOST_LEFT.wrapping_neg();
        }
        is_off
    }

    /// Computes the prices from the costs of the basis.
    pub(crate) fn make_prices(&mut self, matrix: &Matrix) {
        let costs = &self.costs;
        for (cost, column) in self.tables.by_position.iter_mut().zip(&self.basis) {
            *cost = costs.of(column);
        }
        self.factors
            .solve_backward(&mut self.tables.by_position, &mut self.prices);
        let mut is_exact = true;
        for (rest, column) in self.tables.by_position.iter_mut().zip(&self.basis) {
            let sum = signed_sum(matrix, column, &self.prices);
            *rest = clamped(costs.of(column).wrapping_sub(sum));
            is_exact &= is_tiny(*rest);
        }
        if !is_exact {
            self.correct_prices(matrix);
        }
    }

    // Adds the prices for the reduced costs of the basis, which should be 0.
    fn correct_prices(&mut self, matrix: &Matrix) {
        self.factors
            .solve_backward(&mut self.tables.by_position, &mut self.tables.line);
        let count = matrix.height();
        for (price, &more) in self
            .prices
            .iter_mut()
            .zip(self.tables.line.iter())
            .take(count)
        {
            *price = clamped_entry(price.wrapping_add(more));
        }
    }
}

fn has_any(table: &Table, count: usize) -> bool {
    table.iter().take(count).any(|&number| !is_tiny(number))
}
