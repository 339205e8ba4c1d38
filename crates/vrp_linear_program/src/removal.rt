//! Removal of rows and columns: rows that are not tight, columns that cost too much, and columns that a branch forbids.
ghost use Rattle.std.specs.Prelude.{◌≡◌, ◌+◌, length, IfOk, OnErr};

use crate::entries::{ROOM, Span, Table, place};
use crate::fixed_point::ONE;
use crate::matrix::{Column, Matrix, Sense};
use crate::pricing::keep_least;
use crate::simplex::Simplex;
use std::alloc::{AllocError, Global};

// With a surplus of at least this a row is not tight.
const NOT_TIGHT: i64 = ONE >> 5;

impl Matrix {
    /// Removes the rows that go from the columns, and renumbers the others. Answers the numbers of those that went.
    pub(crate) fn drop_rows(&mut self, alloc: Global, goes: &[bool]) -> Result<Vec<u16>, AllocError>
        ensures names { self.new.names ≡ self.old.names }
        ensures rows { IfOk result (λ gone. length self.new.senses.items + length gone.items ≡ length self.old.senses.items) }
        ensures err { OnErr result (self.new.senses.items ≡ self.old.senses.items) }
    {
        let numbers = new_numbers(alloc, goes)?;
        let spans = self.spans.as_mut_slice();
        self.rows = without_rows(alloc, spans, self.rows.as_slice(), numbers.as_slice())?;
        self.sides = kept(alloc, self.sides.as_slice(), goes)?;
        let SplitRows { kept, gone } = split_rows(alloc, self.senses.as_slice(), goes)?;
        self.senses = kept;
        Ok(gone)
    }

    /// Removes the columns that go, but for their names.
    pub(crate) fn drop_columns(&mut self, alloc: Global, goes: &[bool]) -> Result<(), AllocError>
        ensures names { self.new.names ≡ self.old.names }
        ensures rows { self.new.senses ≡ self.old.senses }
    {
        let mut rows = Vec::with_capacity(alloc, self.rows.len())?;
        let mut spans = Vec::with_capacity(alloc, self.spans.len())?;
        for (span, &goes) in self.spans.iter().zip(goes) {
            if !goes {
                let start = rows.len();
                rows.extend_from_slice(span.of(self.rows.as_slice()))?;
                let end = rows.len();
                spans.push(Span { start, end })?;
            }
        }
        self.rows = rows;
        self.spans = spans;
        self.bans = kept(alloc, self.bans.as_slice(), goes)?;
        Ok(())
    }
}

// The rows that stay, and the numbers of those that go.
#[derive(Drop)]
struct SplitRows {
    kept: Vec<Sense>,
    gone: Vec<u16>,
}

fn split_rows(alloc: Global, senses: &[Sense], goes: &[bool]) -> Result<SplitRows, AllocError>
    ensures { IfOk result (λ split. length split.kept.items + length split.gone.items ≡ length senses.now) }
{
    let mut kept = Vec::new(alloc);
    let mut gone = Vec::new(alloc);
    for (row, &sense) in senses.iter().enumerate() {
        if goes.get(row).copied().unwrap_or(false) {
            gone.push(u16::try_from(row).unwrap_or(u16::MAX))?;
        } else {
            kept.push(sense)?;
        }
    }
    Ok(SplitRows { kept, gone })
}

// The rows of all columns by new numbers, without those that have none; moves the spans.
fn without_rows(
    alloc: Global,
    spans: &mut [Span],
    rows: &[u16],
    numbers: &[Option<u16>],
) -> Result<Vec<u16>, AllocError> {
    let mut left = Vec::with_capacity(alloc, rows.len())?;
    for span in spans.iter_mut() {
        let start = left.len();
        for &row in span.of(rows) {
            if let Some(Some(row)) = numbers.get(usize::from(row)).copied() {
                left.push(row)?;
            }
        }
        let end = left.len();
        *span = Span { start, end };
    }
    Ok(left)
}

impl Simplex {
    /// The rows whose surplus is in the basis and large, if they may go.
    pub(crate) fn slack_rows(
        &mut self,
        matrix: &Matrix,
        may_go: &[bool],
    ) -> Result<Vec<bool>, AllocError> {
        self.prepare(matrix)?;
        let mut goes = vec![in self.alloc; false; matrix.height()]?;
        for (column, &value) in self.basis.iter().zip(&self.values) {
            if let Column::Surplus(row) = *column {
                let index = usize::from(row);
                if value >= NOT_TIGHT && may_go.get(index).copied().unwrap_or(false) {
                    mark(goes.as_mut_slice(), index, true);
                }
            }
        }
        for column in &self.basis {
            if let Column::Artificial(row) = *column {
                mark(goes.as_mut_slice(), usize::from(row), false);
            }
        }
        Ok(goes)
    }

    /// Removes the rows that go, with their surplus columns, which are in the basis.
    pub(crate) fn drop_rows(&mut self, goes: &[bool]) -> Result<(), AllocError> {
        let numbers = new_numbers(self.alloc, goes)?;
        let mut basis = Vec::with_capacity(self.alloc, self.basis.len())?;
        let mut values = Vec::with_capacity(self.alloc, self.basis.len())?;
        for (column, &value) in self.basis.iter().zip(&self.values) {
            if let Some(column) = renumbered(column, numbers.as_slice()) {
                basis.push(column)?;
                values.push(value)?;
            }
        }
        self.basis = basis;
        self.values = values;
        self.sides = kept(self.alloc, self.sides.as_slice(), goes)?;
        compact(&mut self.prices, goes);
        compact(&mut self.costs.surplus, goes);
        compact(&mut self.costs.artificial, goes);
        self.is_stale = true;
        Ok(())
    }

    /// The columns that are not in the basis and cost more, by their reduced costs, than so many others.
    pub(crate) fn costly_columns(
        &mut self,
        matrix: &Matrix,
        most: usize,
    ) -> Result<Vec<bool>, AllocError> {
        self.prepare(matrix)?;
        let mut goes = vec![in self.alloc; true; matrix.spans.len()]?;
        self.rank_all(matrix)?;
        self.least.clear();
        for ranked in &self.ranked {
            if let Column::Named(_) = ranked.column {
                self.least.push(*ranked)?;
            }
        }
        keep_least(&mut self.least, most);
        for ranked in &self.least {
            unmark(goes.as_mut_slice(), &ranked.column);
        }
        for column in &self.basis {
            unmark(goes.as_mut_slice(), column);
        }
        Ok(goes)
    }

    /// Whether each column is in the basis.
    pub(crate) fn basic_columns(&self, matrix: &Matrix) -> Result<Vec<bool>, AllocError> {
        let mut is_basic = vec![in self.alloc; false; matrix.spans.len()]?;
        for column in &self.basis {
            if let Column::Named(index) = *column {
                mark(is_basic.as_mut_slice(), index, true);
            }
        }
        Ok(is_basic)
    }

    /// Removes the columns that go; none of them is in the basis.
    pub(crate) fn drop_columns(&mut self, goes: &[bool]) -> Result<(), AllocError> {
        let mut numbers = Vec::with_capacity(self.alloc, goes.len())?;
        let mut next = 0usize;
        for &goes in goes {
            numbers.push(next)?;
            if !goes {
                next = next.saturating_add(1);
            }
        }
        for column in self.basis.iter_mut() {
            if let Column::Named(index) = *column {
                let number = numbers.get(index).copied().unwrap_or(usize::MAX);
                *column = Column::Named(number);
            }
        }
        self.costs.named = kept(self.alloc, self.costs.named.as_slice(), goes)?;
        Ok(())
    }
}

// The new number of each row, none for those that go.
fn new_numbers(alloc: Global, goes: &[bool]) -> Result<Vec<Option<u16>>, AllocError> {
    let mut numbers = Vec::with_capacity(alloc, goes.len())?;
    let mut next = 0u16;
    for &goes in goes {
        if goes {
            numbers.push(None)?;
        } else {
            numbers.push(Some(next))?;
            next = next.saturating_add(1);
        }
    }
    Ok(numbers)
}

// The column with its row's new number, none if the row goes.
fn renumbered(column: &Column, numbers: &[Option<u16>]) -> Option<Column> {
    match *column {
        Column::Surplus(row) => match numbers.get(usize::from(row)).copied() {
            Some(Some(row)) => Some(Column::Surplus(row)),
            _ => None,
        },
        Column::Artificial(row) => match numbers.get(usize::from(row)).copied() {
            Some(Some(row)) => Some(Column::Artificial(row)),
            _ => None,
        },
        Column::Named(index) => Some(Column::Named(index)),
    }
}

// The items that do not go.
fn kept<T: Copy + Drop>(alloc: Global, list: &[T], goes: &[bool]) -> Result<Vec<T>, AllocError> {
    let mut kept = Vec::with_capacity(alloc, list.len())?;
    for (&item, &goes) in list.iter().zip(goes) {
        if !goes {
            kept.push(item)?;
        }
    }
    Ok(kept)
}

// Moves the numbers that do not go together, and sets the rest to 0.
fn compact(table: &mut Table, goes: &[bool]) {
    let mut next = 0u16;
    for index in 0..ROOM {
        let number = table[index & 1023];
        table[index & 1023] = 0;
        if !goes.get(index).copied().unwrap_or(false) {
            table[place(next)] = number;
            next = next.wrapping_add(1);
        }
    }
}

fn mark(flags: &mut [bool], index: usize, flag: bool) {
    if let Some(place) = flags.get_mut(index) {
        *place = flag;
    }
}

// A column of the caller's does not go.
fn unmark(goes: &mut [bool], column: &Column) {
    if let Some(index) = column.index() {
        mark(goes, index, false);
    }
}
