//! The rows and columns of a program: what a solve only reads.
ghost use Rattle.std.specs.Prelude.{◌≡◌, ◌+◌, ◌++◌, ◌∷◌, [], length, IfOk, OnErr, OnOk};

use crate::entries::{ROOM, Span};
use crate::fixed_point::ONE;
use crate::random::Random;
use std::alloc::{AllocError, Global};

/// Whether a row's sum is at least or at most its right-hand side.
#[derive(Clone, Copy, Debug, PartialEq, Eq)]
pub enum Sense {
    AtLeast,
    AtMost,
}

/// A column: the surplus or slack of a row, its artificial column, or one of the caller's.
#[derive(Clone, Copy, Debug, PartialEq, Eq, PartialOrd, Ord)]
pub(crate) enum Column {
    Surplus(u16),
    Artificial(u16),
    Named(usize),
}

impl Column {
    /// Its number in the caller's list of columns, if it is one of them.
    pub(crate) fn index(&self) -> Option<usize> {
        match *self {
            Column::Named(index) => Some(index),
            _ => None,
        }
    }
}

/// The rows and columns of a program.
#[derive(Clone, Debug, Drop)]
pub(crate) struct Matrix {
    pub(crate) senses: Vec<Sense>,
    // The right-hand sides, as values.
    pub(crate) sides: Vec<i64>,
    // The caller's names of the columns.
    pub(crate) names: Vec<u32>,
    // The parts of `rows` that are the columns.
    pub(crate) spans: Vec<Span>,
    // The rows of all columns, sorted in each, as often as it counts.
    pub(crate) rows: Vec<u16>,
    // The columns that have to leave the basis.
    pub(crate) bans: Vec<bool>,
    // The first numbers, for the columns with one row.
    units: Vec<u16>,
}

impl Matrix {
    /// So many rows that are at least 1, or a little less against ties, and no column.
    pub(crate) fn new(alloc: Global, rows: u16, random: &mut Random) -> Result<Matrix, AllocError>
        ensures { IfOk result (λ m. (length m.senses.items ≡ rows) × (m.names.items ≡ [])) }
    {
        let mut sides = vec![in alloc; ONE; usize::from(rows)]?;
        for side in sides.iter_mut() {
            *side = side.wrapping_sub(random.next());
        }
        Ok(Matrix {
            senses: vec![in alloc; Sense::AtLeast; usize::from(rows)]?,
            sides,
            names: Vec::new(alloc),
            spans: Vec::new(alloc),
            rows: Vec::new(alloc),
            bans: Vec::new(alloc),
            units: units(alloc)?,
        })
    }

    /// The number of rows.
    #[inline(always)]
    pub(crate) fn height(&self) -> usize
        ensures { result ≡ length self.now.senses.items }
    {
        self.senses.len()
    }

    /// The rows of a column.
    #[inline(always)]
    pub(crate) fn rows_of(&self, column: &Column) -> &[u16] {
        match *column {
            Column::Surplus(row) | Column::Artificial(row) => {
                let start = usize::from(row);
                let end = start.saturating_add(1);
                self.units.get(start..end).unwrap_or(&[])
            }
            Column::Named(index) => match self.spans.get(index) {
                Some(span) => span.of(self.rows.as_slice()),
                None => &[],
            },
        }
    }

    /// Whether the entries of a column count as negative.
    #[inline(always)]
    pub(crate) fn is_negative(&self, column: &Column) -> bool {
        match *column {
            Column::Surplus(row) => self.sense(row) == Sense::AtLeast,
            Column::Artificial(row) => self.sense(row) == Sense::AtMost,
            Column::Named(_) => false,
        }
    }

    #[inline(always)]
    fn sense(&self, row: u16) -> Sense {
        match self.senses.get(usize::from(row)) {
            Some(&sense) => sense,
            None => Sense::AtLeast,
        }
    }

    /// The column of a row whose value alone is not negative: its surplus or slack, or its artificial column.
    pub(crate) fn unit(&self, row: u16) -> Column {
        let side = self.sides.get(usize::from(row)).copied().unwrap_or(0);
        if (self.sense(row) == Sense::AtLeast) == (side >= 0) {
            Column::Artificial(row)
        } else {
            Column::Surplus(row)
        }
    }

    /// Whether a column has to leave the basis.
    #[inline(always)]
    pub(crate) fn is_banned(&self, column: &Column) -> bool {
        match *column {
            Column::Named(index) => self.bans.get(index).copied().unwrap_or(true),
            _ => false,
        }
    }

    /// Forbids the columns of the basis that do not stay. `goes` says which are in the basis, and then which of the others go.
    pub(crate) fn ban_basic(&mut self, goes: &mut [bool], stays: &[bool])
        ensures names { self.new.names ≡ self.old.names }
        ensures rows { self.new.senses ≡ self.old.senses }
    {
        for (index, (goes, is_banned)) in goes.iter_mut().zip(self.bans.iter_mut()).enumerate() {
            let is_basic = *goes;
            let stays = stays.get(index).copied().unwrap_or(false);
            if is_basic && !stays {
                *is_banned = true;
            }
            *goes = !is_basic && !stays;
        }
    }

    /// Adds a column, the last one. Rows that the program does not have are left out.
    pub(crate) fn push_column(&mut self, name: u32, rows: &[u16]) -> Result<(), AllocError>
        ensures rows { self.new.senses ≡ self.old.senses }
        ensures named { OnOk result (self.new.names.items ≡ self.old.names.items ++ name ∷ []) }
    {
        let span = push_sorted(&mut self.rows, rows, self.senses.len())?;
        self.spans.push(span)?;
        self.bans.push(false)?;
        self.names.push(name)?;
        Ok(())
    }

    /// Adds a row, the last one, in which each column counts so often.
    pub(crate) fn push_row(
        &mut self,
        alloc: Global,
        sense: Sense,
        side: i64,
        counts: &[u32],
    ) -> Result<(), AllocError>
        ensures names { self.new.names ≡ self.old.names }
        ensures rows { OnOk result (length self.new.senses.items ≡ length self.old.senses.items + 1) }
        ensures err { OnErr result (self.new.senses.items ≡ self.old.senses.items) }
    {
        let row = u16::try_from(self.senses.len()).unwrap_or(u16::MAX);
        self.rows = extended(
            alloc,
            self.spans.as_mut_slice(),
            self.rows.as_slice(),
            row,
            counts,
        )?;
        self.sides.push(side)?;
        self.senses.push(sense)?;
        Ok(())
    }
}

// Adds the rows of a column below a height, sorted. Answers the part of the list that they are.
fn push_sorted(all: &mut Vec<u16>, rows: &[u16], height: usize) -> Result<Span, AllocError> {
    let start = all.len();
    for &row in rows {
        if usize::from(row) < height {
            all.push(row)?;
        }
    }
    if let Some(added) = all.as_mut_slice().get_mut(start..) {
        added.sort_unstable();
    }
    let end = all.len();
    Ok(Span { start, end })
}

// The rows of all columns with one more, in which each column counts so often; moves the spans.
fn extended(
    alloc: Global,
    spans: &mut [Span],
    rows: &[u16],
    row: u16,
    counts: &[u32],
) -> Result<Vec<u16>, AllocError> {
    let mut all = Vec::with_capacity(alloc, rows.len())?;
    for (index, span) in spans.iter_mut().enumerate() {
        let start = all.len();
        all.extend_from_slice(span.of(rows))?;
        for _ in 0..counts.get(index).copied().unwrap_or(0) {
            all.push(row)?;
        }
        let end = all.len();
        *span = Span { start, end };
    }
    Ok(all)
}

// The numbers of the rows, as many as a table has room for.
fn units(alloc: Global) -> Result<Vec<u16>, AllocError> {
    let mut units = Vec::new(alloc);
    let mut next = 0u16;
    for _ in 0..ROOM {
        units.push(next)?;
        next = next.wrapping_add(1);
    }
    Ok(units)
}
