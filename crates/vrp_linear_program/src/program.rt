//! The linear program: what its caller sees.
ghost use Rattle.std.specs.Prelude.{◌≡◌, ◌≤◌, ◌+◌, ◌++◌, ◌∷◌, [], length, IfOk, MatchOption, OnOk};
ghost use Rattle.std.specs.Prelude.{All, Contains};
ghost use Rattle.vrp_linear_program.specs.Shape.{Shape};

use crate::costs::Costs;
use crate::fixed_point::{clamped, narrow, whole, wide_product};
use crate::matrix::{Column, Matrix, Sense};
use crate::names::{used, without};
use crate::random::Random;
use crate::simplex::Simplex;
use std::alloc::{AllocError, Global};
use std::marker::Model;

/// A program has no more rows.
pub const MOST_ROWS: u16 = 1_000;

/// What a program is made with.
#[derive(Clone, Copy, Debug)]
pub struct Settings {
    /// The cost of an artificial column, which is more than any other could save.
    pub penalty: i64,
    /// No column costs more. Above 2^20 prices have fewer bits behind the point.
    pub greatest_cost: i64,
    /// Right-hand sides are relaxed by less than so many millionths, against ties. 1,000 is usual; with 0 the methods may take many idle
    /// steps.
    pub perturbation: u32,
}

/// A column that is in the basis, and its value in units of 1/2^36.
#[derive(Clone, Copy, Debug, PartialEq, Eq)]
pub struct UsedColumn {
    /// The caller's name of the column.
    pub name: u32,
    /// More than 2^16, which is 2^-20.
    pub value: i64,
}

/// A linear program: the least cost of columns, each used a nonnegative number of times, so that the sum of each row is at least, or at
/// most, its right-hand side. Besides the caller's columns each row has a surplus or slack column, which costs nothing, and an artificial
/// column at a penalty, so that there is always a solution.
///
/// The program gets columns and rows as it goes, and keeps its basis. No contract says that it is solved, or how well: its answers guide
/// and are not trusted. If a call fails for lack of memory, the program is not to be used any more.
#[derive(Debug, Drop)]
pub struct LinearProgram {
    alloc: Global,
    matrix: Matrix,
    simplex: Simplex,
}

impl Model for LinearProgram {
    ghost Value = { Shape };

    ghost view = { λ p. record { rows = length p.matrix.senses.items; names = p.matrix.names.items } };

    ghost invariant = { λ p. length p.matrix.senses.items ≤ 1000 };
}

impl LinearProgram {
    /// A program with rows that are at least 1 each, and without columns of the caller's.
    pub fn new(alloc: Global, rows: u16, settings: Settings) -> Result<LinearProgram, AllocError>
        requires { rows ≤ MOST_ROWS }
        ensures { IfOk result (λ p. (p.rows ≡ rows) × (p.names ≡ [])) }
    {
        let costs = Costs::new(alloc, settings.penalty, settings.greatest_cost)?;
        let mut random = Random::new(settings.perturbation);
        let matrix = Matrix::new(alloc, rows, &mut random)?;
        let mut simplex = Simplex::new(alloc, costs, random)?;
        simplex.begin(&matrix)?;
        Ok(LinearProgram {
            alloc,
            matrix,
            simplex,
        })
    }

    /// A copy.
    pub fn copy(&self) -> Result<LinearProgram, AllocError>
        ensures { IfOk result (λ p. p ≡ self.now) }
    {
        Ok(LinearProgram {
            alloc: self.alloc,
            matrix: self.matrix.clone()?,
            simplex: self.simplex.copy()?,
        })
    }

    /// The number of rows.
    pub fn row_count(&self) -> usize
        ensures { result ≡ self.now.rows }
    {
        self.matrix.height()
    }

    /// The number of the caller's columns, with those that a branch forbids and that are still in the basis.
    pub fn column_count(&self) -> usize
        ensures { result ≡ length self.now.names }
    {
        self.matrix.names.len()
    }

    /// The caller's names of the columns, in the order in which they were added.
    pub fn names(&self) -> &[u32]
        ensures { result.now ≡ self.now.names }
    {
        self.matrix.names.as_slice()
    }

    /// Adds a column, the last one: the caller's name of it, its cost for each unit, and its rows, each as often as it counts there. Rows
    /// that the program does not have are left out. Costs are clamped to 2^51 in units of prices. The basis stays as it is.
    pub fn add_column(&mut self, name: u32, cost: i64, rows: &[u16]) -> Result<(), AllocError>
        ensures rows { self.new.rows ≡ self.old.rows }
        ensures added { OnOk result (self.new.names ≡ self.old.names ++ name ∷ []) }
    {
        self.matrix.push_column(name, rows)?;
        self.simplex.costs.push(name, cost)
    }

    /// Adds a row, the last one, and answers its number; none if the program has `MOST_ROWS`. `counts` says how often each column counts in
    /// it, in the order of the columns; columns beyond its end don't. `side` is clamped to 2^14. The surplus or slack of the row comes into
    /// the basis, so that its value may be negative: `regain_feasibility` comes next.
    pub fn add_row(
        &mut self,
        sense: Sense,
        side: i64,
        counts: &[u32],
    ) -> Result<Option<u16>, AllocError>
        ensures names { self.new.names ≡ self.old.names }
        ensures answered { IfOk result (λ row. MatchOption row
            ((self.old.rows ≡ MOST_ROWS) × (self.new.rows ≡ self.old.rows))
            (λ number. (number ≡ self.old.rows) × (self.new.rows ≡ self.old.rows + 1))) }
    {
        let count = self.matrix.height();
        if count >= usize::from(MOST_ROWS) {
            return Ok(None);
        }
        let row = count as u16;
        let raise = self.simplex.random.next();
        let side = match sense {
            Sense::AtLeast => whole(side).wrapping_sub(raise),
            Sense::AtMost => whole(side).wrapping_add(raise),
        };
        self.matrix.push_row(self.alloc, sense, side, counts)?;
        self.simplex.push_row(Column::Surplus(row), row, side)?;
        Ok(Some(row))
    }

    /// Lowers the cost by the primal simplex, in about so many steps at most for each of a few attempts.
    pub fn lower_cost(&mut self, most_steps: u64) -> Result<(), AllocError>
        ensures { self.new ≡ self.old }
    {
        self.simplex.lower_cost(&self.matrix, most_steps)
    }

    /// Makes all values nonnegative, and those of forbidden columns 0, by the dual simplex in so many steps at most. Answers whether they
    /// are: if not, the steps are spent, or there is no solution. `lower_cost` comes next.
    pub fn regain_feasibility(&mut self, most_steps: u64) -> Result<bool, AllocError>
        ensures { self.new ≡ self.old }
    {
        self.simplex.regain_feasibility(&self.matrix, most_steps)
    }

    /// Begins with a basis of the columns with these names, as far as they find rows of their own, and unit columns for the rest.
    pub fn begin_with(&mut self, names: &[u32]) -> Result<(), AllocError>
        ensures { self.new ≡ self.old }
    {
        self.simplex.begin_with(&self.matrix, names)
    }

    /// Removes rows that are not tight, those whose surplus or slack is in the basis with a value above 1/32, if they may go: `may_go` says so by
    /// row. Answers the numbers of those that went; the others move together.
    pub fn remove_slack_rows(&mut self, may_go: &[bool]) -> Result<Vec<u16>, AllocError>
        ensures names { self.new.names ≡ self.old.names }
        ensures removed { IfOk result (λ gone. self.new.rows + length gone.items ≡ self.old.rows) }
    {
        let goes = self.simplex.slack_rows(&self.matrix, may_go)?;
        self.simplex.drop_rows(goes.as_slice())?;
        self.matrix.drop_rows(self.alloc, goes.as_slice())
    }

    /// Removes the columns with the greatest reduced costs, so that so many stay, and those of the basis.
    pub fn remove_costly_columns(&mut self, most: usize) -> Result<(), AllocError>
        ensures rows { self.new.rows ≡ self.old.rows }
        ensures names { OnOk result (All (Contains self.old.names) self.new.names) }
        ensures fewer { OnOk result (length self.new.names ≤ length self.old.names) }
    {
        let goes = self.simplex.costly_columns(&self.matrix, most)?;
        self.drop_columns(goes.as_slice())
    }

    /// Removes the columns that a branch forbids: those that do not stay, in the order of the columns. Those that are in the basis are
    /// forbidden: `regain_feasibility` lets them leave it, and they never come back.
    pub fn retain_columns(&mut self, stays: &[bool]) -> Result<(), AllocError>
        ensures rows { self.new.rows ≡ self.old.rows }
        ensures names { OnOk result (All (Contains self.old.names) self.new.names) }
        ensures fewer { OnOk result (length self.new.names ≤ length self.old.names) }
    {
        let mut goes = self.simplex.basic_columns(&self.matrix)?;
        self.matrix.ban_basic(goes.as_mut_slice(), stays);
        self.drop_columns(goes.as_slice())
    }

    fn drop_columns(&mut self, goes: &[bool]) -> Result<(), AllocError>
        ensures rows { self.new.rows ≡ self.old.rows }
        ensures names { OnOk result (All (Contains self.old.names) self.new.names) }
        ensures fewer { OnOk result (length self.new.names ≤ length self.old.names) }
    {
        let names = without(self.alloc, self.matrix.names.as_slice(), goes)?;
        self.simplex.drop_columns(goes)?;
        self.matrix.drop_columns(self.alloc, goes)?;
        self.matrix.names = names;
        Ok(())
    }

    /// The prices of the rows, in units of 1/2^`price_bits` of a unit of cost: those of the last basis that was computed, and 0 for rows that
    /// were added since. Prices of the wrong sign are possible up to 2^17 of these units, since costs are perturbed.
    pub fn prices(&self) -> &[i64]
        ensures { length result.now ≡ self.now.rows }
    {
        let count = self.matrix.height();
        &self.simplex.prices[..count]
    }

    /// The bits behind the point of a price or an objective.
    pub fn price_bits(&self) -> u32 {
        self.simplex.costs.bits
    }

    /// The columns in the basis with a value above 2^-20, except forbidden ones.
    pub fn used_columns(&self) -> Result<Vec<UsedColumn>, AllocError>
        ensures { IfOk result (λ used. All (λ column. Contains self.now.names column.name) used.items) }
    {
        used(
            self.alloc,
            &self.matrix,
            self.simplex.basis.as_slice(),
            self.simplex.values.as_slice(),
        )
    }

    /// The cost of the present solution, in units of 1/2^`price_bits`, with the small changes of costs and right-hand sides against ties.
    pub fn objective(&self) -> i64 {
        let mut sum = 0i128;
        for (column, &value) in self.simplex.basis.iter().zip(&self.simplex.values) {
            sum = sum.wrapping_add(wide_product(self.simplex.costs.of(column), value));
        }
        narrow(sum)
    }

    /// The sum of the values of artificial and forbidden columns, in units of 1/2^36. If it is well above 0 after `lower_cost`, there is no
    /// solution without them.
    pub fn artificial_value(&self) -> i64 {
        let mut sum = 0i64;
        for (column, &value) in self.simplex.basis.iter().zip(&self.simplex.values) {
            let is_artificial = matches!(*column, Column::Artificial(_));
            if is_artificial || self.matrix.is_banned(column) {
                sum = clamped(sum.wrapping_add(value));
            }
        }
        sum
    }

    /// The number of steps so far.
    pub fn steps(&self) -> u64 {
        self.simplex.steps
    }
}
