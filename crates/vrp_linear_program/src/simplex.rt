//! The state of the simplex methods: a basis with its factors, values and prices.
use crate::costs::Costs;
use crate::dual_search::DualSearch;
use crate::entries::{ROOM, Table, WideTable, at, copied, place, sum_at, zeros};
use crate::factors::Factors;
use crate::fixed_point::ONE;
use crate::matrix::{Column, Matrix};
use crate::random::Random;
use crate::shortlist::{Ranked, Shortlist};
use crate::workspace::Workspace;
use std::alloc::{AllocError, Global};

/// No pivot of a factorization or of a step is smaller.
pub(crate) const LEAST_PIVOT: i64 = ONE >> 10;

// A factorization takes smaller pivots than a step.
const LEAST_FACTOR_PIVOT: i64 = ONE >> 12;

// A basis that is nearly singular is repaired with larger pivots.
const LEAST_REPAIR_PIVOT: i64 = ONE >> 5;

// After so many exchanges the basis is factorized anew.
const MOST_ETAS: usize = 64;

// A basis is repaired so often before it is taken as it is.
const MOST_REPAIRS: u32 = 30;

/// The tables of a step, allocated once.
#[derive(Debug, Drop)]
pub(crate) struct Tables {
    pub(crate) wide: Box<WideTable>,
    // The entering column in terms of the basis, by position.
    pub(crate) direction: Box<Table>,
    // What is solved for by rows, by position.
    pub(crate) by_position: Box<Table>,
    // A row of the inverse, by row.
    pub(crate) line: Box<Table>,
    // What the values leave of the right-hand sides, by row.
    pub(crate) residual: Box<Table>,
}

impl Tables {
    fn new(alloc: Global) -> Result<Tables, AllocError> {
        Ok(Tables {
            wide: Box::new(alloc, [0; ROOM])?,
            direction: zeros(alloc)?,
            by_position: zeros(alloc)?,
            line: zeros(alloc)?,
            residual: zeros(alloc)?,
        })
    }
}

/// The state of the simplex methods.
#[derive(Debug, Drop)]
pub(crate) struct Simplex {
    pub(crate) alloc: Global,
    pub(crate) costs: Costs,
    // The columns of the basis and their values, by position.
    pub(crate) basis: Vec<Column>,
    pub(crate) values: Vec<i64>,
    // By row.
    pub(crate) prices: Box<Table>,
    // The right-hand sides that are used, which may be shifted, by row.
    pub(crate) sides: Vec<i64>,
    pub(crate) factors: Factors,
    pub(crate) workspace: Workspace,
    pub(crate) tables: Tables,
    // All columns by reduced cost, the least of them, and the columns that are looked at in each step.
    pub(crate) ranked: Vec<Ranked>,
    pub(crate) least: Vec<Ranked>,
    pub(crate) shortlist: Shortlist,
    pub(crate) dual: DualSearch,
    // Whether the factors are not those of the basis.
    pub(crate) is_stale: bool,
    pub(crate) random: Random,
    pub(crate) steps: u64,
    // How often the basis was factorized.
    pub(crate) factorizations: u64,
}

impl Simplex {
    /// The state of an empty program.
    pub(crate) fn new(alloc: Global, costs: Costs, random: Random) -> Result<Simplex, AllocError> {
        Ok(Simplex {
            alloc,
            costs,
            basis: Vec::new(alloc),
            values: Vec::new(alloc),
            prices: zeros(alloc)?,
            sides: Vec::new(alloc),
            factors: Factors::new(alloc),
            workspace: Workspace::new(alloc),
            tables: Tables::new(alloc)?,
            ranked: Vec::new(alloc),
            least: Vec::new(alloc),
            shortlist: Shortlist::new(alloc),
            dual: DualSearch::new(alloc),
            is_stale: true,
            random,
            steps: 0,
            factorizations: 0,
        })
    }

    /// Adds a row, the last one, with this column of it in the basis.
    pub(crate) fn push_row(
        &mut self,
        column: Column,
        row: u16,
        side: i64,
    ) -> Result<(), AllocError> {
        self.basis.push(column)?;
        self.values.push(0)?;
        self.sides.push(side)?;
        self.costs.begin_row(row);
        self.is_stale = true;
        Ok(())
    }

    /// Begins with the rows of a program without columns.
    pub(crate) fn begin(&mut self, matrix: &Matrix) -> Result<(), AllocError> {
        for (row, &side) in (0u16..).zip(&matrix.sides) {
            self.push_row(matrix.unit(row), row, side)?;
        }
        Ok(())
    }

    /// Copies the state.
    pub(crate) fn copy(&self) -> Result<Simplex, AllocError> {
        Ok(Simplex {
            alloc: self.alloc,
            costs: self.costs.copy()?,
            basis: self.basis.clone()?,
            values: self.values.clone()?,
            prices: copied(self.alloc, &self.prices)?,
            sides: self.sides.clone()?,
            factors: self.factors.clone()?,
            workspace: Workspace::new(self.alloc),
            tables: Tables::new(self.alloc)?,
            ranked: Vec::new(self.alloc),
            least: Vec::new(self.alloc),
            shortlist: Shortlist::new(self.alloc),
            dual: DualSearch::new(self.alloc),
            is_stale: self.is_stale,
            random: self.random,
            steps: self.steps,
            factorizations: self.factorizations,
        })
    }

    /// Factorizes the basis if its factors are old.
    pub(crate) fn prepare(&mut self, matrix: &Matrix) -> Result<(), AllocError> {
        if self.is_stale {
            self.refactorize(matrix)?;
        }
        Ok(())
    }

    /// Factorizes the basis, and computes its values and prices.
    pub(crate) fn refactorize(&mut self, matrix: &Matrix) -> Result<(), AllocError> {
        self.refactorize_with(matrix, LEAST_FACTOR_PIVOT)
    }

    /// The same, where a basis that is nearly singular gets other columns.
    pub(crate) fn repair(&mut self, matrix: &Matrix) -> Result<(), AllocError> {
        self.refactorize_with(matrix, LEAST_REPAIR_PIVOT)
    }

    fn refactorize_with(&mut self, matrix: &Matrix, least_pivot: i64) -> Result<(), AllocError> {
        for _ in 0..MOST_REPAIRS {
            self.workspace.begin();
            for column in &self.basis {
                let sign = if matrix.is_negative(column) { -1 } else { 1 };
                self.workspace.push_column(matrix.rows_of(column), sign)?;
            }
            self.workspace.factorize(&mut self.factors, least_pivot)?;
            if self.workspace.unmatched.is_empty() {
                break;
            }
            self.replace_unmatched(matrix);
        }
        self.is_stale = false;
        self.factorizations = self.factorizations.wrapping_add(1);
        self.make_values(matrix)?;
        self.make_prices(matrix);
        Ok(())
    }

    // Puts the unit columns of rows in the place of columns that depend on others.
    fn replace_unmatched(&mut self, matrix: &Matrix) {
        for unmatched in &self.workspace.unmatched {
            if let Some(column) = self.basis.get_mut(usize::from(unmatched.position)) {
                *column = matrix.unit(unmatched.row);
            }
        }
    }

    /// Begins again with the unit columns as the basis, from which the primal simplex can always start.
    pub(crate) fn restart(&mut self, matrix: &Matrix) -> Result<(), AllocError> {
        for (row, column) in (0u16..).zip(self.basis.iter_mut()) {
            *column = matrix.unit(row);
        }
        self.refactorize(matrix)
    }

    /// The reduced cost of a column, by prices.
    #[inline(always)]
    pub(crate) fn reduced_cost(&self, matrix: &Matrix, column: &Column) -> i64 {
        let sum = signed_sum(matrix, column, &self.prices);
        self.costs.of(column).wrapping_sub(sum)
    }

    /// Writes the entering column in terms of the basis.
    pub(crate) fn make_direction(&mut self, matrix: &Matrix, column: &Column) {
        let one = if matrix.is_negative(column) {
            WIDE_ONE.wrapping_neg()
        } else {
            WIDE_ONE
        };
        let wide = &mut self.tables.wide;
        for number in wide.iter_mut().take(matrix.height()) {
            *number = 0;
        }
        for &row in matrix.rows_of(column) {
            let index = place(row);
            wide[index] = wide[index].wrapping_add(one);
        }
        self.factors
            .solve_forward(&mut self.tables.wide, &mut self.tables.direction);
    }

    /// Writes the row of the inverse at a position, times a sign.
    pub(crate) fn make_line(&mut self, matrix: &Matrix, position: u16, sign: i64) {
        for number in self.tables.by_position.iter_mut().take(matrix.height()) {
            *number = 0;
        }
        self.tables.by_position[place(position)] = ONE.wrapping_mul(sign);
        self.factors
            .solve_backward(&mut self.tables.by_position, &mut self.tables.line);
    }

    /// The value at a position.
    #[inline(always)]
    pub(crate) fn value(&self, position: u16) -> i64 {
        at(self.values.as_slice(), usize::from(position))
    }

    /// Whether the eta columns have grown so much that new factors are cheaper.
    pub(crate) fn has_grown(&self) -> bool {
        self.factors.has_grown(MOST_ETAS)
    }
}

// One in the width of products.
const WIDE_ONE: i128 = 1 << 72;

/// The sum of a table over the rows of a column, with the column's sign.
#[inline(always)]
pub(crate) fn signed_sum(matrix: &Matrix, column: &Column, table: &Table) -> i64 {
    let sum = sum_at(matrix.rows_of(column), table);
    if matrix.is_negative(column) {
        sum.wrapping_neg()
    } else {
        sum
    }
}
