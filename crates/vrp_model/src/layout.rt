//! The layouts of a matrix of weights in a file.
ghost use Rattle.std.specs.Prelude.{◌≡◌, length};
ghost use Rattle.vrp_model.specs.Layout.{cells, goes_by_rows, is_full, lists};
ghost use Rattle.vrp_model.specs.Inner.Listing.{cell_on};

/// Which weights of a matrix a file lists, and in which order (TSPLIB 95, EDGE_WEIGHT_FORMAT).
#[derive(Clone, Copy, Debug, PartialEq, Eq)]
pub enum Layout {
    /// `FULL_MATRIX`: all cells, row by row; the only layout whose weights may be asymmetric.
    FullMatrix,
    /// `UPPER_ROW`: the cells right of the diagonal, row by row.
    UpperRow,
    /// `LOWER_ROW`: the cells left of the diagonal, row by row.
    LowerRow,
    /// `UPPER_DIAG_ROW`: the diagonal and the cells right of it, row by row.
    UpperDiagRow,
    /// `LOWER_DIAG_ROW`: the cells left of the diagonal and the diagonal, row by row.
    LowerDiagRow,
    /// `UPPER_COL`: the cells above the diagonal, column by column.
    UpperCol,
    /// `LOWER_COL`: the cells below the diagonal, column by column.
    LowerCol,
    /// `UPPER_DIAG_COL`: the cells above the diagonal and the diagonal, column by column.
    UpperDiagCol,
    /// `LOWER_DIAG_COL`: the diagonal and the cells below it, column by column.
    LowerDiagCol,
}

impl Layout {
    /// How many weights a file in this layout lists for this many nodes.
    pub fn entries(self, nodes: u16) -> usize
        ensures { result ≡ length (cells self nodes) }
    {
        let side = usize::from(nodes);
        match self {
            Layout::FullMatrix => side * side,
            Layout::UpperRow | Layout::LowerRow | Layout::UpperCol | Layout::LowerCol => {
                side * side.saturating_sub(1) / 2
            }
            Layout::UpperDiagRow
            | Layout::LowerDiagRow
            | Layout::UpperDiagCol
            | Layout::LowerDiagCol => side * (side + 1) / 2,
        }
    }

    /// Whether a weight holds in one direction only.
    pub(crate) fn is_full(self) -> bool
        ensures { result ≡ is_full self }
    {
        matches!(self, Layout::FullMatrix)
    }

    /// Whether a file in this layout lists a cell.
    pub(crate) fn lists(self, row: u16, column: u16) -> bool
        ensures { result ≡ lists self (row, column) }
    {
        match self {
            Layout::FullMatrix => true,
            Layout::UpperRow | Layout::UpperCol => row < column,
            Layout::LowerRow | Layout::LowerCol => column < row,
            Layout::UpperDiagRow | Layout::UpperDiagCol => row <= column,
            Layout::LowerDiagRow | Layout::LowerDiagCol => column <= row,
        }
    }

    /// The row and the column at a position of a line; a line is a row if the layout goes by rows, and otherwise a column.
    pub(crate) fn cell(self, line: u16, across: u16) -> (u16, u16)
        ensures { result ≡ cell_on self line across }
    {
        if self.goes_by_rows() {
            (line, across)
        } else {
            (across, line)
        }
    }

    // Whether the file goes row by row.
    fn goes_by_rows(self) -> bool
        ensures { result ≡ goes_by_rows self }
    {
        !matches!(
            self,
            Layout::UpperCol | Layout::LowerCol | Layout::UpperDiagCol | Layout::LowerDiagCol
        )
    }
}
