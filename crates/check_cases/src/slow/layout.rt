//! The nine layouts of a matrix, by listing their cells.

use std::alloc::{AllocError, Global};

// The cells that a layout lists, with or without those on the diagonal.
#[derive(Clone, Copy, Debug)]
enum Part {
    Above,
    Below,
    Both,
}

/// The form of a matrix.
#[derive(Clone, Copy, Debug)]
pub(crate) struct Layout {
    part: Part,
    has_diagonal: bool,
    is_by_columns: bool,
}

impl Layout {
    /// The layout with this name.
    pub(crate) fn named(word: &str) -> Option<Layout> {
        let (part, has_diagonal, is_by_columns) = match word {
            "FULL_MATRIX" => (Part::Both, true, false),
            "UPPER_ROW" => (Part::Above, false, false),
            "LOWER_ROW" => (Part::Below, false, false),
            "UPPER_DIAG_ROW" => (Part::Above, true, false),
            "LOWER_DIAG_ROW" => (Part::Below, true, false),
            "UPPER_COL" => (Part::Above, false, true),
            "LOWER_COL" => (Part::Below, false, true),
            "UPPER_DIAG_COL" => (Part::Above, true, true),
            "LOWER_DIAG_COL" => (Part::Below, true, true),
            _ => return None,
        };
        Some(Layout {
            part,
            has_diagonal,
            is_by_columns,
        })
    }

    /// The cells of an n by n matrix in listing order, each by its row and its column.
    pub(crate) fn cells(self, alloc: Global, n: i64) -> Result<Vec<(i64, i64)>, AllocError> {
        let mut cells = Vec::new(alloc);
        for outer in 1..=n {
            for inner in 1..=n {
                let (row, column) = if self.is_by_columns {
                    (inner, outer)
                } else {
                    (outer, inner)
                };
                if self.lists(row, column) {
                    cells.push((row, column))?;
                }
            }
        }
        Ok(cells)
    }

    // Whether a cell is listed.
    fn lists(self, row: i64, column: i64) -> bool {
        if row == column {
            return self.has_diagonal;
        }
        match self.part {
            Part::Above => row < column,
            Part::Below => row > column,
            Part::Both => true,
        }
    }
}
