//! What makes the methods robust: negative values become small random ones, with other right-hand sides for a while; a broken basis is
//! repaired by the dual simplex with the true ones, and only at last by a start from the unit columns.
use crate::entries::place;
use crate::fixed_point::{ONE, clamped};
use crate::matrix::{Column, Matrix};
use crate::simplex::Simplex;
use std::alloc::AllocError;

// Negative values down to this are an effect of rounding.
const MOST_SHIFTED: i64 = ONE >> 10;

// A basis with a value below this is broken.
const BROKEN: i64 = -(ONE >> 20);

// The number of turns, and of those before a start from the unit columns.
const MOST_TURNS: u32 = 5;

const PATIENT_TURNS: u32 = 3;

// The steps of the primal simplex with other right-hand sides, and then those of the dual simplex.
const MOST_SHIFTED_STEPS: u64 = 20_000;

const MOST_REPAIR_STEPS: u64 = 2_000;

// The dual simplex looks at twice the number of rows, and at no fewer columns than this.
const FEWEST_LISTED: usize = 500;

impl Simplex {
    /// Lowers the cost by the primal simplex.
    pub(crate) fn lower_cost(
        &mut self,
        matrix: &Matrix,
        most_steps: u64,
    ) -> Result<(), AllocError> {
        self.prepare(matrix)?;
        self.penalize_banned(matrix);
        for turn in 0..MOST_TURNS {
            let is_shifted = self.mend(matrix, turn)? && turn < PATIENT_TURNS;
            let before = self.steps;
            if is_shifted {
                self.primal_steps(matrix, most_steps.min(MOST_SHIFTED_STEPS))?;
                self.unshift(matrix)?;
            } else {
                self.primal_steps(matrix, most_steps)?;
                if turn > 0 && self.steps == before || !self.is_off(matrix) {
                    break;
                }
            }
        }
        Ok(())
    }

    // Forbidden columns that are still in the basis, mostly with the value 0, cost as much as artificial ones, so that they do not grow.
    fn penalize_banned(&mut self, matrix: &Matrix) {
        let mut has_changed = false;
        for column in &self.basis {
            if let Column::Named(index) = *column {
                has_changed |= matrix.is_banned(column) && self.costs.penalize(index);
            }
        }
        if has_changed {
            self.make_prices(matrix);
        }
    }

    /// Makes the basis feasible by the dual simplex. Answers whether it is.
    pub(crate) fn regain_feasibility(
        &mut self,
        matrix: &Matrix,
        most_steps: u64,
    ) -> Result<bool, AllocError> {
        self.prepare(matrix)?;
        if self.is_off(matrix) {
            self.refactorize(matrix)?;
        }
        self.restore_sides(matrix)?;
        self.dual_steps(matrix, most_steps, few(matrix))
    }

    // Makes all values nonnegative before a turn of the primal simplex. Answers whether the basis was broken.
    fn mend(&mut self, matrix: &Matrix, turn: u32) -> Result<bool, AllocError> {
        if self.is_off(matrix) {
            self.refactorize(matrix)?;
        }
        self.shift_values(matrix, MOST_SHIFTED, 4);
        if self.is_broken() && self.is_off(matrix) {
            self.repair(matrix)?;
            self.shift_values(matrix, MOST_SHIFTED, 4);
            if self.is_off(matrix) {
                self.restart(matrix)?;
            }
        }
        let is_broken = self.is_broken();
        if is_broken && turn < PATIENT_TURNS {
            self.shift_values(matrix, i64::MAX, 0);
        } else if is_broken {
            self.restart(matrix)?;
        }
        Ok(is_broken)
    }

    // Goes back to the true right-hand sides. If the basis is broken then, the dual simplex repairs it.
    fn unshift(&mut self, matrix: &Matrix) -> Result<(), AllocError> {
        self.restore_sides(matrix)?;
        if self.is_broken() {
            self.dual_steps(matrix, MOST_REPAIR_STEPS, few(matrix))?;
        }
        Ok(())
    }

    fn is_broken(&self) -> bool {
        self.values.iter().any(|&value| value < BROKEN)
    }

    // Negative values above the negative of `most` become small random ones, with what they take from the right-hand sides: zeros would
    // make ties, and many steps.
    fn shift_values(&mut self, matrix: &Matrix, most: i64, shift: u32) {
        let columns = self.basis.iter().zip(self.values.iter_mut());
        for (column, value) in columns {
            if *value < 0 && *value > most.wrapping_neg() {
                let new = self.random.next() >> shift.min(63);
                let more = new.wrapping_sub(*value);
                let more = if matrix.is_negative(column) {
                    more.wrapping_neg()
                } else {
                    more
                };
                *value = new;
                for &row in matrix.rows_of(column) {
                    if let Some(side) = self.sides.get_mut(place(row)) {
                        *side = clamped(side.wrapping_add(more));
                    }
                }
            }
        }
    }

    // Goes back to the true right-hand sides.
    fn restore_sides(&mut self, matrix: &Matrix) -> Result<(), AllocError> {
        if self.sides.as_slice() != matrix.sides.as_slice() {
            self.sides.clear();
            self.sides.extend_from_slice(matrix.sides.as_slice())?;
            self.make_values(matrix)?;
        }
        Ok(())
    }
}

// The number of columns that the dual simplex looks at first.
fn few(matrix: &Matrix) -> usize {
    matrix.height().saturating_mul(2).max(FEWEST_LISTED)
}
