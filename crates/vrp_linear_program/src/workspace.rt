//! The workspace of a factorization: the columns of the basis, by columns and by rows, and those that are done.
use crate::entries::{Entry, Span};
use crate::factors::Factors;
use crate::fixed_point::whole;
use crate::nucleus::Nucleus;
use std::alloc::{AllocError, Global};

/// A position of the basis and a row that found no partner.
#[derive(Clone, Copy, Debug)]
pub(crate) struct Unmatched {
    pub(crate) position: u16,
    pub(crate) row: u16,
}

/// The columns of a basis while it is factorized. It is kept for its memory.
#[derive(Clone, Debug, Drop)]
pub(crate) struct Workspace {
    // The columns by position. Their entries are whole numbers.
    pub(crate) columns: Vec<Span>,
    pub(crate) entries: Vec<Entry>,
    // The positions of the columns in each row.
    pub(crate) rows: Vec<Span>,
    pub(crate) positions: Vec<u16>,
    // The numbers of entries of columns in rows that are left, and of rows in columns that are left.
    pub(crate) column_counts: Vec<u32>,
    pub(crate) row_counts: Vec<u32>,
    pub(crate) done_columns: Vec<bool>,
    pub(crate) done_rows: Vec<bool>,
    // The columns or rows with one entry left.
    pub(crate) singletons: Vec<u16>,
    pub(crate) nucleus: Nucleus,
    pub(crate) unmatched: Vec<Unmatched>,
}

impl Workspace {
    /// An empty workspace.
    pub(crate) fn new(alloc: Global) -> Workspace {
        Workspace {
            columns: Vec::new(alloc),
            entries: Vec::new(alloc),
            rows: Vec::new(alloc),
            positions: Vec::new(alloc),
            column_counts: Vec::new(alloc),
            row_counts: Vec::new(alloc),
            done_columns: Vec::new(alloc),
            done_rows: Vec::new(alloc),
            singletons: Vec::new(alloc),
            nucleus: Nucleus::new(alloc),
            unmatched: Vec::new(alloc),
        }
    }

    /// Begins a basis with no column.
    pub(crate) fn begin(&mut self) {
        self.columns.clear();
        self.entries.clear();
        self.column_counts.clear();
        self.done_columns.clear();
    }

    /// Adds the column of the next position: its sorted rows, each as often as the column counts in it, and its sign.
    pub(crate) fn push_column(&mut self, rows: &[u16], sign: i64) -> Result<(), AllocError> {
        let start = self.entries.len();
        let mut last = None;
        for &row in rows {
            if last == Some(row) {
                self.add_to_last(sign);
            } else {
                self.entries.push(Entry {
                    index: row,
                    number: sign,
                })?;
            }
            last = Some(row);
        }
        let end = self.entries.len();
        let count = end.saturating_sub(start);
        self.columns.push(Span { start, end })?;
        self.column_counts
            .push(u32::try_from(count).unwrap_or(u32::MAX))?;
        self.done_columns.push(false)?;
        Ok(())
    }

    fn add_to_last(&mut self, sign: i64) {
        if let Some(entry) = self.entries.last_mut() {
            entry.number = entry.number.wrapping_add(sign);
        }
    }

    /// Factorizes the columns that were added; a pivot of the rest is at least this large. Lists what found no partner.
    pub(crate) fn factorize(
        &mut self,
        factors: &mut Factors,
        least_pivot: i64,
    ) -> Result<(), AllocError> {
        let count = self.columns.len();
        self.list_rows(count)?;
        factors.clear();
        self.take_column_singletons(factors)?;
        self.take_row_singletons(factors)?;
        self.take_nucleus(factors, least_pivot)?;
        factors.finish(count)
    }

    // Lists the positions of the columns in each row.
    fn list_rows(&mut self, count: usize) -> Result<(), AllocError> {
        self.count_rows(count)?;
        self.rows.clear();
        let mut start = 0usize;
        for &left in &self.row_counts {
            self.rows.push(Span { start, end: start })?;
            start = start.saturating_add(left as usize);
        }
        self.positions.clear();
        for _ in 0..start {
            self.positions.push(0)?;
        }
        for (position, column) in (0u16..).zip(&self.columns) {
            for entry in column.of(self.entries.as_slice()) {
                if let Some(row) = self.rows.get_mut(usize::from(entry.index)) {
                    if let Some(place) = self.positions.get_mut(row.end) {
                        *place = position;
                    }
                    row.end = row.end.saturating_add(1);
                }
            }
        }
        Ok(())
    }

    // Counts the entries of each row.
    fn count_rows(&mut self, count: usize) -> Result<(), AllocError> {
        self.row_counts.clear();
        self.done_rows.clear();
        for _ in 0..count {
            self.row_counts.push(0)?;
            self.done_rows.push(false)?;
        }
        for entry in &self.entries {
            add_to(self.row_counts.as_mut_slice(), entry.index, 1);
        }
        Ok(())
    }

    /// The entries of a column.
    pub(crate) fn column(&self, position: u16) -> &[Entry] {
        match self.columns.get(usize::from(position)) {
            Some(column) => column.of(self.entries.as_slice()),
            None => &[],
        }
    }

    /// The positions of the columns in a row.
    pub(crate) fn row(&self, row: u16) -> &[u16] {
        match self.rows.get(usize::from(row)) {
            Some(span) => span.of(self.positions.as_slice()),
            None => &[],
        }
    }

    /// Adds the entries of a column in the rows that are done, those above its pivot.
    pub(crate) fn push_done_entries(
        &self,
        position: u16,
        factors: &mut Factors,
    ) -> Result<(), AllocError> {
        for entry in self.column(position) {
            if is_set(self.done_rows.as_slice(), entry.index) {
                factors.push_entry(entry.index, whole(entry.number))?;
            }
        }
        Ok(())
    }

    /// Notes that a column and a row are done.
    pub(crate) fn finish(&mut self, row: u16, position: u16) {
        set(self.done_rows.as_mut_slice(), row);
        set(self.done_columns.as_mut_slice(), position);
    }
}

/// Whether a flag is set; it is beyond the end of the list.
#[inline(always)]
pub(crate) fn is_set(flags: &[bool], index: u16) -> bool {
    flags.get(usize::from(index)).copied().unwrap_or(true)
}

/// Sets a flag, if the list is long enough.
pub(crate) fn set(flags: &mut [bool], index: u16) {
    if let Some(flag) = flags.get_mut(usize::from(index)) {
        *flag = true;
    }
}

/// A count, 0 beyond the end of the list.
#[inline(always)]
pub(crate) fn count_at(counts: &[u32], index: u16) -> u32 {
    counts.get(usize::from(index)).copied().unwrap_or(0)
}

// Adds to a count, if the list is long enough.
fn add_to(counts: &mut [u32], index: u16, more: u32) {
    if let Some(count) = counts.get_mut(usize::from(index)) {
        *count = count.wrapping_add(more);
    }
}

/// Counts down, and answers what is left.
pub(crate) fn count_down(counts: &mut [u32], index: u16) -> u32 {
    match counts.get_mut(usize::from(index)) {
        Some(count) => {
            *count = count.saturating_sub(1);
            *count
        }
        None => 0,
    }
}
