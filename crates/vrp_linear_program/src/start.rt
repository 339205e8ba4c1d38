//! A basis from columns that the caller names.
use crate::matrix::{Column, Matrix};
use crate::simplex::Simplex;
use std::alloc::AllocError;

impl Simplex {
    /// Begins with a basis of these columns, each at the first of its rows that none has yet. Columns that find none are left out.
    pub(crate) fn begin_with(&mut self, matrix: &Matrix, names: &[u32]) -> Result<(), AllocError> {
        let mut wanted = Vec::from_slice(self.alloc, names)?;
        wanted.as_mut_slice().sort_unstable();
        for (row, column) in (0u16..).zip(self.basis.iter_mut()) {
            *column = matrix.unit(row);
        }
        for (index, name) in matrix.names.iter().enumerate() {
            if wanted.as_slice().binary_search(name).is_ok() {
                self.put_in_basis(matrix, Column::Named(index));
            }
        }
        self.refactorize(matrix)
    }

    // Puts a column in the place of the unit column of one of its rows.
    fn put_in_basis(&mut self, matrix: &Matrix, column: Column) {
        if matrix.is_banned(&column) {
            return;
        }
        for &row in matrix.rows_of(&column) {
            if let Some(place) = self.basis.get_mut(usize::from(row)) {
                if place.index().is_none() {
                    *place = column;
                    return;
                }
            }
        }
    }
}
