//! The program over the routes of a pool: rows for the customers, each served at least once, and then the rows of cuts.
use crate::cut::{Cut, CutKind};
use crate::scope::Scope;
use crate::separation::Used;
use std::alloc::{AllocError, Global};
use vrp_linear_program::{LinearProgram, MOST_ROWS, Settings};
use vrp_model::CustomerSet;
use vrp_partition::Route;

// Right-hand sides are changed by less than so many millionths, against ties.
const PERTURBATION: u32 = 1_000;

// A route is used with a value above this, in units of 1/2^36.
const USED: i64 = 1 << 23;

// A step takes the time of about four looks at a reduced cost for each row, and one for eight columns.
const LOOKS_A_ROW: u64 = 4;

const COLUMNS_A_LOOK: u64 = 8;

/// A linear program, and the routes and cuts that its columns and rows stand for. No clause pins its answers, since they are not trusted.
#[derive(Debug, Drop)]
pub(crate) struct RouteProgram {
    pub(crate) alloc: Global,
    pub(crate) scope: Scope,
    pub(crate) linear: LinearProgram,
    // The routes by the names of their columns, also of those that have no column any more.
    pub(crate) routes: Vec<Route>,
    // Whether the route of each name has a column.
    has_column: Vec<bool>,
    pub(crate) cuts: Vec<Cut>,
    pub(crate) primal_steps: u64,
    pub(crate) dual_steps: u64,
    // About the number of reduced costs that steps could have looked at in their time.
    pub(crate) looked_at: u64,
}

impl RouteProgram {
    /// The program of a scope, without routes. An artificial column costs as much as the penalty.
    pub(crate) fn new(
        alloc: Global,
        scope: Scope,
        penalty: i64,
        greatest_cost: i64,
    ) -> Result<RouteProgram, AllocError> {
        let settings = Settings {
            penalty,
            greatest_cost,
            perturbation: PERTURBATION,
        };
        let Scope {
            customers,
            most_routes,
            ..
        } = scope;
        let mut program = RouteProgram {
            alloc,
            scope,
            linear: LinearProgram::new(alloc, customers.len().min(MOST_ROWS), settings)?,
            routes: Vec::new(alloc),
            has_column: Vec::new(alloc),
            cuts: Vec::new(alloc),
            primal_steps: 0,
            dual_steps: 0,
            looked_at: 0,
        };
        if u16::from(most_routes) < customers.len() {
            let kind = CutKind::Trucks(u32::from(most_routes));
            program.add_cut(Cut {
                set: customers,
                kind,
            })?;
        }
        Ok(program)
    }

    /// A copy.
    pub(crate) fn copy(&self) -> Result<RouteProgram, AllocError> {
        Ok(RouteProgram {
            alloc: self.alloc,
            scope: self.scope,
            linear: self.linear.copy()?,
            routes: self.routes.clone()?,
            has_column: self.has_column.clone()?,
            cuts: self.cuts.clone()?,
            primal_steps: self.primal_steps,
            dual_steps: self.dual_steps,
            looked_at: self.looked_at,
        })
    }

    /// Names a route that has no name yet.
    pub(crate) fn name(&mut self, route: &Route) -> Result<u32, AllocError> {
        let name = u32::try_from(self.routes.len()).unwrap_or(u32::MAX);
        self.routes.push(*route)?;
        self.has_column.push(false)?;
        Ok(name)
    }

    /// Gives the route of a name a column.
    pub(crate) fn add_column(&mut self, name: u32) -> Result<(), AllocError> {
        let Some(route) = self.routes.get(name as usize).copied() else {
            return Ok(());
        };
        let mut rows = Vec::new(self.alloc);
        for customer in route.set.iter() {
            rows.push(self.scope.customers.rank(customer))?;
        }
        self.push_cut_rows(&mut rows, route.set)?;
        self.linear
            .add_column(name, i64::from(route.cost), rows.as_slice())?;
        self.note_column(name);
        Ok(())
    }

    // Adds the rows of the cuts in which a route counts.
    fn push_cut_rows(&self, rows: &mut Vec<u16>, set: CustomerSet) -> Result<(), AllocError> {
        let mut row = self.scope.customers.len();
        for cut in &self.cuts {
            if cut.has(set) {
                rows.push(row)?;
            }
            row = row.saturating_add(1);
        }
        Ok(())
    }

    /// Whether the route of a name has a column.
    #[inline(always)]
    pub(crate) fn has_column(&self, name: u32) -> bool {
        self.has_column.get(name as usize).copied().unwrap_or(false)
    }

    fn note_column(&mut self, name: u32) {
        if let Some(has_column) = self.has_column.get_mut(name as usize) {
            *has_column = true;
        }
    }

    // Notes which names have a column.
    fn note_columns(&mut self) -> Result<(), AllocError> {
        let mut has_column = vec![in self.alloc; false; self.routes.len()]?;
        for &name in self.linear.names() {
            if let Some(has_column) = has_column.as_mut_slice().get_mut(name as usize) {
                *has_column = true;
            }
        }
        self.has_column = has_column;
        Ok(())
    }

    /// Removes the columns of the names that are not marked. One in the basis has to leave it.
    pub(crate) fn retain(&mut self, marks: &[bool]) -> Result<(), AllocError> {
        let mut stays = Vec::with_capacity(self.alloc, self.linear.column_count())?;
        for &name in self.linear.names() {
            stays.push(marks.get(name as usize).copied().unwrap_or(false))?;
        }
        if stays.iter().any(|&stays| !stays) {
            self.linear.retain_columns(stays.as_slice())?;
            self.note_columns()?;
        }
        Ok(())
    }

    /// Removes the columns with the greatest reduced costs, so that so many stay.
    pub(crate) fn trim(&mut self, most: usize) -> Result<(), AllocError> {
        self.linear.remove_costly_columns(most)?;
        self.note_columns()
    }

    /// Adds the row of a cut, if there is room for it.
    pub(crate) fn add_cut(&mut self, cut: Cut) -> Result<(), AllocError> {
        let mut counts = Vec::with_capacity(self.alloc, self.linear.column_count())?;
        for &name in self.linear.names() {
            let has = match self.routes.get(name as usize) {
                Some(route) => cut.has(route.set),
                None => false,
            };
            counts.push(u32::from(has))?;
        }
        let row = self
            .linear
            .add_row(cut.sense(), cut.side(), counts.as_slice())?;
        if row.is_some() {
            self.cuts.push(cut)?;
        }
        Ok(())
    }

    /// Removes the rows of cuts that are not tight, except those on the number of routes.
    pub(crate) fn remove_slack_rows(&mut self) -> Result<(), AllocError> {
        let customers = usize::from(self.scope.customers.len());
        let mut may_go = vec![in self.alloc; false; customers]?;
        for cut in &self.cuts {
            may_go.push(cut.set != self.scope.customers)?;
        }
        let gone = self.linear.remove_slack_rows(may_go.as_slice())?;
        self.drop_cuts(gone.as_slice())
    }

    // Removes the cuts whose rows are gone.
    fn drop_cuts(&mut self, gone: &[u16]) -> Result<(), AllocError> {
        let mut row = self.scope.customers.len();
        let mut cuts = Vec::with_capacity(self.alloc, self.cuts.len())?;
        for cut in &self.cuts {
            if !gone.contains(&row) {
                cuts.push(*cut)?;
            }
            row = row.saturating_add(1);
        }
        self.cuts = cuts;
        Ok(())
    }

    /// Lowers the cost of the solution in about so many steps at most.
    pub(crate) fn lower_cost(&mut self, most_steps: u64) -> Result<(), AllocError> {
        let before = self.linear.steps();
        self.linear.lower_cost(most_steps)?;
        let steps = self.counted_steps(before);
        self.primal_steps = self.primal_steps.saturating_add(steps);
        Ok(())
    }

    /// Makes the solution feasible again, after a change of the rows or columns, in so many steps at most.
    pub(crate) fn regain_feasibility(&mut self, most_steps: u64) -> Result<(), AllocError> {
        let before = self.linear.steps();
        self.linear.regain_feasibility(most_steps)?;
        let steps = self.counted_steps(before);
        self.dual_steps = self.dual_steps.saturating_add(steps);
        Ok(())
    }

    /// Counts reduced costs that were looked at.
    pub(crate) fn count_looks(&mut self, count: usize) {
        self.looked_at = self.looked_at.saturating_add(count as u64);
    }

    // The number of steps since there were so many, which are counted.
    fn counted_steps(&mut self, before: u64) -> u64 {
        let steps = self.linear.steps().saturating_sub(before);
        let rows = self.linear.row_count() as u64;
        let columns = self.linear.column_count() as u64;
        let looks = rows
            .saturating_mul(LOOKS_A_ROW)
            .saturating_add(columns / COLUMNS_A_LOOK);
        self.looked_at = self.looked_at.saturating_add(steps.saturating_mul(looks));
        steps
    }

    /// The routes that the solution uses.
    pub(crate) fn used(&self) -> Result<Vec<Used>, AllocError> {
        let mut used = Vec::new(self.alloc);
        for column in &self.linear.used_columns()? {
            if column.value > USED {
                if let Some(route) = self.routes.get(column.name as usize) {
                    used.push(Used {
                        set: route.set,
                        value: column.value,
                    })?;
                }
            }
        }
        Ok(used)
    }

    /// The sets of the routes that the solution uses.
    pub(crate) fn used_sets(&self) -> Result<Vec<CustomerSet>, AllocError> {
        let mut sets = Vec::new(self.alloc);
        for used in &self.used()? {
            sets.push(used.set)?;
        }
        Ok(sets)
    }
}
