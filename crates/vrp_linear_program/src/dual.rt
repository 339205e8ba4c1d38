//! The dual simplex: the position that is farthest from feasible leaves the basis, until none is.
use crate::devex::{HEAVY, Score, after_pivot, heavier};
use crate::exchange::{Exchange, are_apart};
use crate::fixed_point::{ONE, product, quotient};
use crate::matrix::Matrix;
use crate::ratio::entering_candidate;
use crate::shortlist::Candidate;
use crate::simplex::Simplex;
use std::alloc::AllocError;

// A value is feasible up to this.
const MOST_NEGATIVE: i64 = ONE >> 24;

// After so many failures of fresh factors the run ends.
const MOST_FAILURES: u32 = 20;

// A position that leaves the basis, and the sign by which its value comes to 0.
#[derive(Clone, Copy, Debug)]
struct Leaving {
    position: u16,
    sign: i64,
}

// How a step ended.
#[derive(Clone, Copy, Debug, PartialEq, Eq)]
enum StepEnd {
    // A column entered, or the step is to be tried again.
    Continues,
    // No column can enter.
    Infeasible,
}

impl Simplex {
    /// Lets positions leave that are not feasible, until there are none, or the steps are spent; looks at so many columns first. Answers
    /// whether the basis is feasible.
    pub(crate) fn dual_steps(
        &mut self,
        matrix: &Matrix,
        most_steps: u64,
        many: usize,
    ) -> Result<bool, AllocError> {
        self.begin_dual(matrix, many)?;
        let is_feasible = self.dual_steps_raised(matrix, most_steps)?;
        self.end_dual(matrix);
        Ok(is_feasible)
    }

    // The same, while costs are raised.
    fn dual_steps_raised(&mut self, matrix: &Matrix, most_steps: u64) -> Result<bool, AllocError> {
        let last = self.steps.saturating_add(most_steps);
        let mut seen = self.factorizations;
        for _ in 0..u64::MAX {
            if seen != self.factorizations {
                seen = self.factorizations;
                self.reduce_shortlist(matrix);
            }
            self.complete_shortlist(matrix)?;
            let Some(leaving) = self.leaving(matrix) else {
                return Ok(true);
            };
            if self.steps >= last || self.dual.failures > MOST_FAILURES {
                return Ok(false);
            }
            if self.dual_step(matrix, leaving)? == StepEnd::Infeasible {
                return Ok(false);
            }
        }
        Ok(false)
    }

    // The best position by Devex of those that have to leave.
    fn leaving(&self, matrix: &Matrix) -> Option<Leaving> {
        let mut best = None;
        let mut most = Score::least();
        let weights = self.dual.weights.iter();
        let values = self.values.iter().zip(&self.basis).zip(weights);
        for (position, ((&value, column), &weight)) in (0u16..).zip(values) {
            let is_high = value > 0 && matrix.is_banned(column);
            let far = if is_high { value } else { value.wrapping_neg() };
            if far > MOST_NEGATIVE {
                let score = Score::of(far, weight);
                if best.is_none() || score.beats(most) {
                    let sign = if is_high { 1 } else { -1 };
                    best = Some(Leaving { position, sign });
                    most = score;
                }
            }
        }
        best
    }

    // Lets a position leave.
    fn dual_step(&mut self, matrix: &Matrix, leaving: Leaving) -> Result<StepEnd, AllocError> {
        self.make_line(matrix, leaving.position, leaving.sign);
        self.shortlist.make_entries(&self.tables.line);
        let found = entering_candidate(self.shortlist.candidates.as_slice());
        let Some(index) = found else {
            let can_grow = self.dual.widen_to_all();
            return Ok(if can_grow {
                StepEnd::Continues
            } else {
                StepEnd::Infeasible
            });
        };
        let Some(entering) = self.shortlist.get(index) else {
            return Ok(StepEnd::Infeasible);
        };
        if self.dual.widen_beyond(entering.reduced) {
            return Ok(StepEnd::Continues);
        }
        self.make_direction(matrix, &entering.column);
        let pivot = self.pivot(leaving.position);
        if are_apart(pivot.wrapping_mul(leaving.sign), entering.entry) {
            self.distrust_factors(matrix)?;
        } else {
            self.enter(matrix, leaving, index, entering)?;
        }
        Ok(StepEnd::Continues)
    }

    // Factorizes anew. Counts a failure where that was done already.
    fn distrust_factors(&mut self, matrix: &Matrix) -> Result<(), AllocError> {
        if self.factors.is_fresh() {
            self.dual.failures = self.dual.failures.saturating_add(1);
        }
        self.refactorize(matrix)?;
        self.steps = self.steps.wrapping_add(1);
        Ok(())
    }

    // Lets a column of the shortlist enter where a position leaves.
    fn enter(
        &mut self,
        matrix: &Matrix,
        leaving: Leaving,
        index: usize,
        entering: Candidate,
    ) -> Result<(), AllocError> {
        if entering.reduced < 0 {
            self.raise_cost(&entering.column, entering.reduced.wrapping_neg())?;
        }
        let reduced = entering.reduced.max(0);
        self.shortlist
            .move_reduced(quotient(reduced, entering.entry));
        self.shortlist.set_reduced(index, 0);
        let pivot = self.pivot(leaving.position);
        self.move_position_weights(leaving.position, pivot);
        self.turn_line(leaving.sign);
        let exchange = Exchange {
            entering: entering.column,
            position: leaving.position,
            value: quotient(self.value(leaving.position), pivot),
            reduced,
        };
        self.exchange(matrix, &exchange)
    }

    // Updates the weights of the positions.
    fn move_position_weights(&mut self, position: u16, pivot: i64) {
        let index = usize::from(position);
        let leaving = self.dual.weights.get(index).copied().unwrap_or(0);
        let reciprocal = quotient(ONE, pivot);
        let mut is_heavy = false;
        let direction = self.tables.direction.iter();
        for (weight, &entry) in self.dual.weights.iter_mut().zip(direction) {
            if entry != 0 {
                *weight = heavier(*weight, product(entry, reciprocal), leaving);
                is_heavy |= *weight > HEAVY;
            }
        }
        if let Some(weight) = self.dual.weights.get_mut(index) {
            *weight = after_pivot(leaving, pivot);
            is_heavy |= *weight > HEAVY;
        }
        if is_heavy {
            self.dual.reset_weights();
        }
    }

    // Takes the sign from the row of the inverse.
    fn turn_line(&mut self, sign: i64) {
        for entry in self.tables.line.iter_mut() {
            *entry = entry.wrapping_mul(sign);
        }
    }
}
