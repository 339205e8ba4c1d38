//! The nucleus of a factorization: what no singleton takes, in a square of its own, with pivots of small Markowitz counts.
use crate::entries::at;
use crate::factors::Factors;
use crate::fixed_point::{clamped_entry, is_tiny, quotient, small_product, whole};
use crate::workspace::{Unmatched, Workspace, is_set};
use std::alloc::{AllocError, Global};

// A pivot is at most so many times smaller than the largest entry of its column.
const MOST_GROWTH: u64 = 8;

// A nonzero cell of the pivot row.
#[derive(Clone, Copy, Debug)]
struct Cell {
    column: usize,
    number: i64,
}

/// A square of numbers by rows, and the rows and columns that are left. It is kept for its memory.
#[derive(Clone, Debug, Drop)]
pub(crate) struct Nucleus {
    size: usize,
    cells: Vec<i64>,
    // The rows of the program, and the positions of the basis.
    rows: Vec<u16>,
    positions: Vec<u16>,
    // How many cells are not 0.
    row_counts: Vec<i64>,
    column_counts: Vec<i64>,
    rows_left: Vec<usize>,
    columns_left: Vec<usize>,
    // The rows with a pivot, in order.
    rows_done: Vec<usize>,
    pivot_row: Vec<Cell>,
    // The columns that have no pivot.
    dependent: Vec<usize>,
}

impl Nucleus {
    /// An empty square.
    pub(crate) fn new(alloc: Global) -> Nucleus {
        Nucleus {
            size: 0,
            cells: Vec::new(alloc),
            rows: Vec::new(alloc),
            positions: Vec::new(alloc),
            row_counts: Vec::new(alloc),
            column_counts: Vec::new(alloc),
            rows_left: Vec::new(alloc),
            columns_left: Vec::new(alloc),
            rows_done: Vec::new(alloc),
            pivot_row: Vec::new(alloc),
            dependent: Vec::new(alloc),
        }
    }

    // Begins with a square of zeros over the rows and positions that are not done.
    fn begin(&mut self, done_rows: &[bool], done_columns: &[bool]) -> Result<(), AllocError> {
        self.rows_done.clear();
        self.dependent.clear();
        list_left(done_rows, &mut self.rows)?;
        list_left(done_columns, &mut self.positions)?;
        let rows = self.rows.len();
        let columns = self.positions.len();
        self.size = columns;
        fill(&mut self.row_counts, rows)?;
        fill(&mut self.column_counts, columns)?;
        fill(&mut self.cells, rows.saturating_mul(columns))?;
        count_up(&mut self.rows_left, rows)?;
        count_up(&mut self.columns_left, columns)
    }

    fn cell(&self, row: usize, column: usize) -> i64 {
        let index = row.wrapping_mul(self.size).wrapping_add(column);
        at(self.cells.as_slice(), index)
    }

    // Sets a cell that was 0.
    fn put(&mut self, row: usize, column: usize, number: i64) {
        let index = row.wrapping_mul(self.size).wrapping_add(column);
        if let Some(cell) = self.cells.get_mut(index) {
            *cell = number;
        }
        add(self.row_counts.as_mut_slice(), row, 1);
        add(self.column_counts.as_mut_slice(), column, 1);
    }

    // Takes the column with the fewest cells among those that are left.
    fn next_column(&mut self) -> Option<usize> {
        let mut best = 0usize;
        let mut fewest = i64::MAX;
        for (index, &column) in self.columns_left.iter().enumerate() {
            let count = at(self.column_counts.as_slice(), column);
            if count < fewest {
                best = index;
                fewest = count;
            }
        }
        if best < self.columns_left.len() {
            Some(self.columns_left.swap_remove(best))
        } else {
            None
        }
    }

    // Takes the row with the fewest cells among those where the column has a pivot that is large enough.
    fn next_row(&mut self, column: usize, least_pivot: i64) -> Option<usize> {
        let best = self.best_row(column, least_pivot);
        if best < self.rows_left.len() {
            Some(self.rows_left.swap_remove(best))
        } else {
            None
        }
    }

    // The index of that row in the list, or the list's length.
    fn best_row(&self, column: usize, least_pivot: i64) -> usize {
        let largest = self.largest_left(column);
        let enough = (largest / MOST_GROWTH).max(least_pivot.unsigned_abs());
        let mut best = self.rows_left.len();
        let mut fewest = i64::MAX;
        for (index, &row) in self.rows_left.iter().enumerate() {
            let size = self.cell(row, column).unsigned_abs();
            let count = at(self.row_counts.as_slice(), row);
            if size >= enough && count < fewest {
                best = index;
                fewest = count;
            }
        }
        best
    }

    // The size of the largest cell of a column in the rows that are left.
    fn largest_left(&self, column: usize) -> u64 {
        let mut largest = 0u64;
        for &row in &self.rows_left {
            largest = largest.max(self.cell(row, column).unsigned_abs());
        }
        largest
    }

    // Lists the cells of a pivot row in the columns that are left, which have one cell less.
    fn list_pivot_row(&mut self, row: usize) -> Result<(), AllocError> {
        self.pivot_row.clear();
        for index in 0..self.columns_left.len() {
            let column = self.columns_left.get(index).copied().unwrap_or(usize::MAX);
            let number = self.cell(row, column);
            if number != 0 {
                self.pivot_row.push(Cell { column, number })?;
                add(self.column_counts.as_mut_slice(), column, -1);
            }
        }
        Ok(())
    }

    // Adds the cells of a column in the rows with a pivot.
    fn push_above(&self, column: usize, factors: &mut Factors) -> Result<(), AllocError> {
        for &row in &self.rows_done {
            let number = self.cell(row, column);
            if number != 0 {
                factors.push_entry(name(self.rows.as_slice(), row), number)?;
            }
        }
        Ok(())
    }

    // Subtracts multiples of the pivot row from the rows that are left, and adds the multiples.
    fn eliminate(
        &mut self,
        column: usize,
        pivot: i64,
        factors: &mut Factors,
    ) -> Result<(), AllocError> {
        let size = self.size;
        for &row in &self.rows_left {
            let start = row.wrapping_mul(size);
            let end = start.wrapping_add(size);
            let Some(line) = self.cells.as_mut_slice().get_mut(start..end) else {
                continue;
            };
            let number = at(line, column);
            if number == 0 {
                continue;
            }
            let factor = quotient(number, pivot);
            let mut change = -1i64;
            if !is_tiny(factor) {
                factors.push_entry(name(self.rows.as_slice(), row), factor)?;
                let counts = self.column_counts.as_mut_slice();
                let more = subtract_row(line, self.pivot_row.as_slice(), factor, counts);
                change = change.wrapping_add(more);
            }
            add(self.row_counts.as_mut_slice(), row, change);
        }
        Ok(())
    }
}

impl Workspace {
    /// Takes what is left, and lists what finds no partner.
    pub(crate) fn take_nucleus(
        &mut self,
        factors: &mut Factors,
        least_pivot: i64,
    ) -> Result<(), AllocError> {
        let done_rows = self.done_rows.as_slice();
        self.nucleus.begin(done_rows, self.done_columns.as_slice())?;
        self.fill_nucleus();
        for _ in 0..self.nucleus.size {
            let Some(column) = self.nucleus.next_column() else {
                break;
            };
            match self.nucleus.next_row(column, least_pivot) {
                Some(row) => self.take_pivot(row, column, factors)?,
                None => self.nucleus.dependent.push(column)?,
            }
        }
        self.list_unmatched()
    }

    // Writes the entries of the columns that are left.
    fn fill_nucleus(&mut self) {
        for index in 0..self.nucleus.size {
            let position = name(self.nucleus.positions.as_slice(), index);
            let Some(&span) = self.columns.get(usize::from(position)) else {
                continue;
            };
            for entry in span.of(self.entries.as_slice()) {
                if !is_set(self.done_rows.as_slice(), entry.index) {
                    let row = rank(self.nucleus.rows.as_slice(), entry.index);
                    self.nucleus.put(row, index, whole(entry.number));
                }
            }
        }
    }

    // Takes a pivot of the square.
    fn take_pivot(
        &mut self,
        row: usize,
        column: usize,
        factors: &mut Factors,
    ) -> Result<(), AllocError> {
        let pivot = self.nucleus.cell(row, column);
        let pivot_row = name(self.nucleus.rows.as_slice(), row);
        let position = name(self.nucleus.positions.as_slice(), column);
        self.nucleus.list_pivot_row(row)?;
        let start = factors.entry_count();
        self.nucleus.push_above(column, factors)?;
        self.push_done_entries(position, factors)?;
        factors.push_pivot(pivot_row, position, pivot, start)?;
        let start = factors.entry_count();
        self.nucleus.eliminate(column, pivot, factors)?;
        factors.push_lower(pivot_row, start)?;
        self.nucleus.rows_done.push(row)?;
        Ok(())
    }

    // Pairs the columns that have no pivot with the rows that are left.
    fn list_unmatched(&mut self) -> Result<(), AllocError> {
        self.unmatched.clear();
        let rows = self.nucleus.rows_left.iter();
        for (&column, &row) in self.nucleus.dependent.iter().zip(rows) {
            self.unmatched.push(Unmatched {
                position: name(self.nucleus.positions.as_slice(), column),
                row: name(self.nucleus.rows.as_slice(), row),
            })?;
        }
        Ok(())
    }
}

// Subtracts a pivot row times a factor, which is about 8 at most by the choice of the pivot. Answers by how many the cells of the row that
// are not 0 have grown.
fn subtract_row(line: &mut [i64], pivot_row: &[Cell], factor: i64, counts: &mut [i64]) -> i64 {
    let mut grown = 0i64;
    for cell in pivot_row {
        if let Some(number) = line.get_mut(cell.column) {
            let old = *number;
            let rest = clamped_entry(old.wrapping_sub(small_product(factor, cell.number)));
            let new = if is_tiny(rest) { 0 } else { rest };
            *number = new;
            if (old == 0) != (new == 0) {
                let change = if old == 0 { 1 } else { -1 };
                grown = grown.wrapping_add(change);
                add(counts, cell.column, change);
            }
        }
    }
    grown
}

// Lists the numbers of the flags that are not set.
fn list_left(flags: &[bool], left: &mut Vec<u16>) -> Result<(), AllocError> {
    left.clear();
    for (number, &is_done) in (0u16..).zip(flags) {
        if !is_done {
            left.push(number)?;
        }
    }
    Ok(())
}

// Makes a list of zeros.
fn fill(list: &mut Vec<i64>, count: usize) -> Result<(), AllocError> {
    list.clear();
    for _ in 0..count {
        list.push(0)?;
    }
    Ok(())
}

// Makes a list of the first numbers.
fn count_up(list: &mut Vec<usize>, count: usize) -> Result<(), AllocError> {
    list.clear();
    for number in 0..count {
        list.push(number)?;
    }
    Ok(())
}

fn add(counts: &mut [i64], index: usize, more: i64) {
    if let Some(count) = counts.get_mut(index) {
        *count = count.wrapping_add(more);
    }
}

fn name(names: &[u16], index: usize) -> u16 {
    names.get(index).copied().unwrap_or(u16::MAX)
}

// The index of a number in a sorted list.
fn rank(names: &[u16], number: u16) -> usize {
    match names.binary_search(&number) {
        Ok(index) | Err(index) => index,
    }
}
