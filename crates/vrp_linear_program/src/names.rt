//! The caller's names of columns: of those that are used, and of those that stay.
ghost use Rattle.std.specs.Prelude.{◌≤◌, All, Contains, IfOk, IfSome, length};

use crate::fixed_point::ONE;
use crate::matrix::{Column, Matrix};
use crate::program::UsedColumn;
use std::alloc::{AllocError, Global};

// A column is used with a value above this.
const USED: i64 = ONE >> 20;

/// The columns of the caller's with these values that are used and not forbidden.
pub(crate) fn used(
    alloc: Global,
    matrix: &Matrix,
    basis: &[Column],
    values: &[i64],
) -> Result<Vec<UsedColumn>, AllocError>
    ensures { IfOk result (λ used. All (λ column. Contains matrix.now.names.items column.name) used.items) }
{
    let mut used = Vec::new(alloc);
    for (column, &value) in basis.iter().zip(values) {
        if value > USED && !matrix.is_banned(column) {
            if let Some(name) = name_of(matrix.names.as_slice(), column) {
                used.push(UsedColumn { name, value })?;
            }
        }
    }
    Ok(used)
}

// The name of a column, if it is the caller's.
fn name_of(names: &[u32], column: &Column) -> Option<u32>
    ensures { IfSome result (Contains names.now) }
{
    match *column {
        Column::Named(index) => names.get(index).copied(),
        _ => None,
    }
}

/// The names of the columns that do not go.
pub(crate) fn without(alloc: Global, names: &[u32], goes: &[bool]) -> Result<Vec<u32>, AllocError>
    ensures known { IfOk result (λ kept. All (Contains names.now) kept.items) }
    ensures fewer { IfOk result (λ kept. length kept.items ≤ length names.now) }
{
    let mut kept = Vec::new(alloc);
    for (index, &name) in names.iter().enumerate() {
        if goes.get(index).copied().unwrap_or(false) {
            continue;
        }
        kept.push(name)?;
    }
    Ok(kept)
}
