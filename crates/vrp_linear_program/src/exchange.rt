//! An exchange: a column enters the basis at a position.
use crate::entries::{place, put};
use crate::fixed_point::{clamped, clamped_entry, product, quotient};
use crate::matrix::{Column, Matrix};
use crate::simplex::Simplex;
use std::alloc::AllocError;

// A pivot by row and the same by column may be so far apart, or by a thousandth.
const MOST_APART: u64 = 1 << 16;

/// A column that enters at a position, its value there and its reduced cost.
#[derive(Clone, Copy, Debug)]
pub(crate) struct Exchange {
    pub(crate) entering: Column,
    pub(crate) position: u16,
    pub(crate) value: i64,
    pub(crate) reduced: i64,
}

impl Simplex {
    /// Makes an exchange, by the direction and the row of the inverse in the tables.
    pub(crate) fn exchange(
        &mut self,
        matrix: &Matrix,
        exchange: &Exchange,
    ) -> Result<(), AllocError> {
        self.move_values(exchange);
        self.move_prices(matrix, exchange);
        let count = matrix.height();
        self.factors
            .push_eta(exchange.position, &self.tables.direction, count)?;
        if let Some(column) = self.basis.get_mut(usize::from(exchange.position)) {
            *column = exchange.entering;
        }
        self.steps = self.steps.wrapping_add(1);
        if self.has_grown() {
            self.refactorize(matrix)?;
        }
        Ok(())
    }

    fn move_values(&mut self, exchange: &Exchange) {
        let direction = self.tables.direction.iter();
        for (value, &entry) in self.values.iter_mut().zip(direction) {
            if entry != 0 {
                *value = clamped(value.wrapping_sub(product(exchange.value, entry)));
            }
        }
        let index = usize::from(exchange.position);
        put(self.values.as_mut_slice(), index, clamped(exchange.value));
    }

    fn move_prices(&mut self, matrix: &Matrix, exchange: &Exchange) {
        let step = quotient(exchange.reduced, self.pivot(exchange.position));
        let line = self.tables.line.iter();
        for (price, &entry) in self.prices.iter_mut().zip(line).take(matrix.height()) {
            if entry != 0 {
                *price = clamped_entry(price.wrapping_add(product(step, entry)));
            }
        }
    }

    /// The entry of the direction at a position.
    #[inline(always)]
    pub(crate) fn pivot(&self, position: u16) -> i64 {
        self.tables.direction[place(position)]
    }
}

/// Whether a pivot by row and the same by column are so far apart that the factors are not good.
pub(crate) fn are_apart(by_row: i64, by_column: i64) -> bool {
    let apart = by_row.wrapping_sub(by_column).unsigned_abs();
    apart > MOST_APART && apart > by_column.unsigned_abs() / 1_024
}
