//! Lists of entries one behind another, and tables by row or by position in the basis.
ghost use Rattle.std.specs.Prelude.{◌<◌};

use crate::fixed_point::wide_product;
use std::alloc::{AllocError, Global};

/// The room of a table, a power of two.
pub(crate) const ROOM: usize = 1024;

// A table is indexed by the low bits of a number, so that no index is out of range.
const MASK: u16 = 1023;

/// A number for each row, or for each position in the basis.
pub(crate) type Table = [i64; ROOM];

/// The same in the width of products.
pub(crate) type WideTable = [i128; ROOM];

/// The place of a row or position in a table.
#[inline(always)]
pub(crate) fn place(number: u16) -> usize
    ensures { result < 1024 }
{
    usize::from(number & MASK)
}

/// A table of zeros.
pub(crate) fn zeros(alloc: Global) -> Result<Box<Table>, AllocError> {
    Ok(Box::new(alloc, [0; ROOM])?)
}

/// A table with the same numbers.
pub(crate) fn copied(alloc: Global, table: &Table) -> Result<Box<Table>, AllocError> {
    Ok(Box::new(alloc, *table)?)
}

/// Sets the first numbers of a table to 0.
#[inline(always)]
pub(crate) fn clear(table: &mut Table, count: usize) {
    for number in table.iter_mut().take(count) {
        *number = 0;
    }
}

/// The sum of the numbers of these rows.
#[inline(always)]
pub(crate) fn sum_at(rows: &[u16], table: &Table) -> i64 {
    let mut sum = 0i64;
    for &row in rows {
        sum = sum.wrapping_add(table[place(row)]);
    }
    sum
}

/// The number of a list at an index, 0 beyond its end.
#[inline(always)]
pub(crate) fn at(list: &[i64], index: usize) -> i64 {
    list.get(index).copied().unwrap_or(0)
}

/// Sets the number of a list at an index, if the list is long enough.
#[inline(always)]
pub(crate) fn put(list: &mut [i64], index: usize, number: i64) {
    if let Some(place) = list.get_mut(index) {
        *place = number;
    }
}

/// A part of a list, from a start to before an end.
#[derive(Clone, Copy, Debug, PartialEq, Eq)]
pub(crate) struct Span {
    pub(crate) start: usize,
    pub(crate) end: usize,
}

impl Span {
    /// The items of the part, none if the list is too short.
    #[inline(always)]
    pub(crate) fn of<'a, T>(&self, list: &'a [T]) -> &'a [T] {
        list.get(self.start..self.end).unwrap_or(&[])
    }
}

/// A nonzero number of a sparse vector, at a row or position.
#[derive(Clone, Copy, Debug)]
pub(crate) struct Entry {
    pub(crate) index: u16,
    pub(crate) number: i64,
}

/// Subtracts a sparse vector, times a factor.
#[inline(always)]
pub(crate) fn subtract_times(wide: &mut WideTable, entries: &[Entry], factor: i64) {
    for entry in entries {
        let index = place(entry.index);
        wide[index] = wide[index].wrapping_sub(wide_product(entry.number, factor));
    }
}

/// The sum of the products of a sparse vector and a table.
#[inline(always)]
pub(crate) fn dot(entries: &[Entry], table: &Table) -> i128 {
    let mut sum = 0i128;
    for entry in entries {
        sum = sum.wrapping_add(wide_product(entry.number, table[place(entry.index)]));
    }
    sum
}
