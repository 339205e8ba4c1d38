//! The columns that the simplex methods look at in each step, with their reduced costs.
use crate::devex::{LIGHT, Score, after_pivot, heavier};
use crate::entries::{Span, Table, sum_at};
use crate::fixed_point::{ONE, clamped, product, quotient};
use crate::matrix::{Column, Matrix};
use std::alloc::{AllocError, Global};

/// A column and its reduced cost.
#[derive(Clone, Copy, Debug, PartialEq, Eq, PartialOrd, Ord)]
pub(crate) struct Ranked {
    pub(crate) reduced: i64,
    pub(crate) column: Column,
}

/// A column of the shortlist, its reduced cost and weight, and its entry in the pivot row.
#[derive(Clone, Copy, Debug)]
pub(crate) struct Candidate {
    pub(crate) column: Column,
    span: Span,
    is_negative: bool,
    pub(crate) reduced: i64,
    weight: u64,
    pub(crate) entry: i64,
}

/// Some columns, with copies of their rows one behind another.
#[derive(Debug, Drop)]
pub(crate) struct Shortlist {
    pub(crate) candidates: Vec<Candidate>,
    rows: Vec<u16>,
}

impl Shortlist {
    /// No column.
    pub(crate) fn new(alloc: Global) -> Shortlist {
        Shortlist {
            candidates: Vec::new(alloc),
            rows: Vec::new(alloc),
        }
    }

    /// Removes all columns.
    pub(crate) fn clear(&mut self) {
        self.candidates.clear();
        self.rows.clear();
    }

    /// Adds a column.
    pub(crate) fn push(&mut self, matrix: &Matrix, ranked: &Ranked) -> Result<(), AllocError> {
        let start = self.rows.len();
        self.rows.extend_from_slice(matrix.rows_of(&ranked.column))?;
        let end = self.rows.len();
        self.candidates.push(Candidate {
            column: ranked.column,
            span: Span { start, end },
            is_negative: matrix.is_negative(&ranked.column),
            reduced: ranked.reduced,
            weight: LIGHT,
            entry: 0,
        })?;
        Ok(())
    }

    /// A column of the list.
    pub(crate) fn get(&self, index: usize) -> Option<Candidate> {
        self.candidates.get(index).copied()
    }

    /// Removes a column; the last one takes its index.
    pub(crate) fn remove(&mut self, index: usize) {
        if index < self.candidates.len() {
            self.candidates.swap_remove(index);
        }
    }

    /// The column with the best negative reduced cost, less than this.
    pub(crate) fn best(&self, nothing: i64) -> Option<usize> {
        let mut best = None;
        let mut most = Score::least();
        for (index, candidate) in self.candidates.iter().enumerate() {
            if candidate.reduced < nothing {
                let score = Score::of(candidate.reduced.wrapping_neg(), candidate.weight);
                if best.is_none() || score.beats(most) {
                    best = Some(index);
                    most = score;
                }
            }
        }
        best
    }

    /// Computes the columns' entries in a row of the inverse.
    pub(crate) fn make_entries(&mut self, line: &Table) {
        let rows = self.rows.as_slice();
        for candidate in self.candidates.iter_mut() {
            let sum = sum_at(candidate.span.of(rows), line);
            candidate.entry = if candidate.is_negative {
                sum.wrapping_neg()
            } else {
                sum
            };
        }
    }

    /// Subtracts the entries times a factor from the reduced costs.
    pub(crate) fn move_reduced(&mut self, factor: i64) {
        for candidate in self.candidates.iter_mut() {
            if candidate.entry != 0 {
                let less = product(factor, candidate.entry);
                candidate.reduced = clamped(candidate.reduced.wrapping_sub(less));
            }
        }
    }

    /// Sets the reduced cost of a column.
    pub(crate) fn set_reduced(&mut self, index: usize, reduced: i64) {
        if let Some(candidate) = self.candidates.get_mut(index) {
            candidate.reduced = reduced;
        }
    }

    /// Updates the weights after the column at an index entered with this pivot. Its reduced cost is 0.
    pub(crate) fn move_weights(&mut self, index: usize, pivot: i64) {
        let Some(entering) = self.get(index) else {
            return;
        };
        let reciprocal = quotient(ONE, pivot);
        for candidate in self.candidates.iter_mut() {
            if candidate.entry != 0 {
                let ratio = product(candidate.entry, reciprocal);
                candidate.weight = heavier(candidate.weight, ratio, entering.weight);
            }
        }
        if let Some(candidate) = self.candidates.get_mut(index) {
            candidate.weight = after_pivot(entering.weight, pivot);
            candidate.reduced = 0;
        }
    }
}
