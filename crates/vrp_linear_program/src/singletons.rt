//! Singletons of a factorization: columns with one row left, and then rows with one column left.
use crate::entries::Entry;
use crate::factors::Factors;
use crate::fixed_point::{quotient, whole};
use crate::workspace::{Workspace, count_at, count_down, is_set};
use std::alloc::AllocError;

// A pivot is at most so many times smaller than the largest entry of its column.
const MOST_GROWTH: u64 = 8;

impl Workspace {
    /// Takes the columns with one row left, until there are none.
    pub(crate) fn take_column_singletons(
        &mut self,
        factors: &mut Factors,
    ) -> Result<(), AllocError> {
        self.singletons.clear();
        for (position, &left) in (0u16..).zip(&self.column_counts) {
            if left == 1 {
                self.singletons.push(position)?;
            }
        }
        for _ in 0..self.columns.len() {
            let Some(position) = self.singletons.pop() else {
                break;
            };
            self.take_column(position, factors)?;
        }
        Ok(())
    }

    fn take_column(&mut self, position: u16, factors: &mut Factors) -> Result<(), AllocError> {
        let is_done = is_set(self.done_columns.as_slice(), position);
        if is_done || count_at(self.column_counts.as_slice(), position) != 1 {
            return Ok(());
        }
        let Some(pivot) = self.entry_left(position) else {
            return Ok(());
        };
        let start = factors.entry_count();
        self.push_done_entries(position, factors)?;
        factors.push_pivot(pivot.index, position, whole(pivot.number), start)?;
        self.finish(pivot.index, position);
        self.leave_row(pivot.index)
    }

    // The first entry of a column in a row that is left.
    fn entry_left(&self, position: u16) -> Option<Entry> {
        for entry in self.column(position) {
            if !is_set(self.done_rows.as_slice(), entry.index) {
                return Some(*entry);
            }
        }
        None
    }

    // The columns of a row that is done have one entry less.
    fn leave_row(&mut self, row: u16) -> Result<(), AllocError> {
        let Some(&span) = self.rows.get(usize::from(row)) else {
            return Ok(());
        };
        for &position in span.of(self.positions.as_slice()) {
            let left = count_down(self.column_counts.as_mut_slice(), position);
            if left == 1 && !is_set(self.done_columns.as_slice(), position) {
                self.singletons.push(position)?;
            }
        }
        Ok(())
    }

    /// Takes the rows with one column left, until there are none.
    pub(crate) fn take_row_singletons(&mut self, factors: &mut Factors) -> Result<(), AllocError> {
        self.list_row_singletons()?;
        for _ in 0..self.rows.len() {
            let Some(row) = self.singletons.pop() else {
                break;
            };
            self.take_row(row, factors)?;
        }
        Ok(())
    }

    // Counts the columns that are left in each row, and lists the rows with one.
    fn list_row_singletons(&mut self) -> Result<(), AllocError> {
        self.singletons.clear();
        let rows = self.rows.iter().zip(self.row_counts.iter_mut());
        for (row, (span, left)) in (0u16..).zip(rows) {
            *left = 0;
            if !is_set(self.done_rows.as_slice(), row) {
                for &position in span.of(self.positions.as_slice()) {
                    if !is_set(self.done_columns.as_slice(), position) {
                        *left = left.wrapping_add(1);
                    }
                }
            }
            if *left == 1 {
                self.singletons.push(row)?;
            }
        }
        Ok(())
    }

    fn take_row(&mut self, row: u16, factors: &mut Factors) -> Result<(), AllocError> {
        let is_done = is_set(self.done_rows.as_slice(), row);
        if is_done || count_at(self.row_counts.as_slice(), row) != 1 {
            return Ok(());
        }
        let Some(position) = self.position_left(row) else {
            return Ok(());
        };
        let Some(pivot) = self.stable_pivot(row, position) else {
            return Ok(());
        };
        let start = factors.entry_count();
        self.push_done_entries(position, factors)?;
        factors.push_pivot(row, position, whole(pivot), start)?;
        self.finish(row, position);
        let start = factors.entry_count();
        self.push_below(position, pivot, factors)?;
        factors.push_lower(row, start)
    }

    // The first column of a row that is left.
    fn position_left(&self, row: u16) -> Option<u16> {
        for &position in self.row(row) {
            if !is_set(self.done_columns.as_slice(), position) {
                return Some(position);
            }
        }
        None
    }

    // The entry of a column in a row, unless it is much smaller than others in rows that are left.
    fn stable_pivot(&self, row: u16, position: u16) -> Option<i64> {
        let mut pivot = 0i64;
        let mut largest = 0u64;
        for entry in self.column(position) {
            if !is_set(self.done_rows.as_slice(), entry.index) {
                largest = largest.max(entry.number.unsigned_abs());
            }
            if entry.index == row {
                pivot = entry.number;
            }
        }
        let size = pivot.unsigned_abs();
        if size > 0 && size.saturating_mul(MOST_GROWTH) >= largest {
            Some(pivot)
        } else {
            None
        }
    }

    // Adds the entries of a column below its pivot; their rows have one column less.
    fn push_below(
        &mut self,
        position: u16,
        pivot: i64,
        factors: &mut Factors,
    ) -> Result<(), AllocError> {
        let Some(&span) = self.columns.get(usize::from(position)) else {
            return Ok(());
        };
        for entry in span.of(self.entries.as_slice()) {
            if !is_set(self.done_rows.as_slice(), entry.index) {
                let number = quotient(whole(entry.number), whole(pivot));
                factors.push_entry(entry.index, number)?;
                let left = count_down(self.row_counts.as_mut_slice(), entry.index);
                if left == 1 {
                    self.singletons.push(entry.index)?;
                }
            }
        }
        Ok(())
    }
}
