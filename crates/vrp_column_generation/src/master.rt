//! The restricted master problem: the linear program over the routes found so far.
ghost use Rattle.std.specs.Prelude.{◌≡◌, ◌≤◌, ◌<◌, IfOk, IfSome};
ghost use Rattle.vrp_model.specs.declared.customers.customer_set.TheConstants.{PLACES};
ghost use Rattle.vrp_duals.specs.Duals.{AreDualsOf};
ghost use Rattle.vrp_model.specs.Problem.{place_count};

use crate::columns::Columns;
use crate::program_rows::ProgramRow;
use std::alloc::Global;
use vrp_columns_and_cuts::UsedRoute;
use vrp_duals::{Duals, EntryRow, MAX_SUBSET_ROWS, SubsetRow};
use vrp_linear_program::{LinearProgram, Settings};
use vrp_model::{CustomerSet, Instance, NoMemory, PLACES};

// A column is added if its reduced cost is below 0 by more than this part of a unit of cost: 2 ^ -12. The program changes costs by less than
// half of that, against ties, so a column that it has already isn't added again.
const TOLERANCE_BITS: u32 = 12;

// Right-hand sides are changed by less than so many millionths, against ties.
const PERTURBATION: u32 = 1_000;

// Prices are cut off at this distance from 0, in price units: 2 ^ 33.
const MOST_PRICE: i64 = 8_589_934_592;

/// The program: rows for the customers, each served at least once, and then the other rows; and the routes of its columns.
#[derive(Drop)]
pub(crate) struct Master {
    alloc: Global,
    customers: u16,
    // The number of price units in a unit of cost.
    pub(crate) scale: u32,
    pub(crate) program: LinearProgram,
    columns: Columns,
    rows: Vec<ProgramRow>,
}

// What a route costs, if its stops are customers.
fn route_cost(instance: &Instance, stops: &[u16]) -> Option<i64> {
    let customers = instance.customers();
    let mut cost = 0u64;
    let mut last = 0;
    for &stop in stops {
        if stop == 0 || stop > customers || last > customers {
            return None;
        }
        cost = cost.saturating_add(instance.weight(last, stop));
        last = stop;
    }
    if last > customers {
        return None;
    }
    i64::try_from(cost.saturating_add(instance.weight(last, 0))).ok()
}

// Whether a route uses these arcs alone, or has one customer.
fn is_alive(followers: &[CustomerSet], stops: &[u16]) -> bool {
    for pair in stops.windows(2) {
        let [from, to] = pair else {
            continue;
        };
        let Some(next) = followers.get(usize::from(*from)) else {
            return false;
        };
        if usize::from(*to) >= PLACES || !next.contains(*to) {
            return false;
        }
    }
    true
}

// An artificial column costs this: more than six times the greatest weight of an arc from the depot.
fn penalty_of(instance: &Instance) -> i64 {
    let mut most = 0;
    for customer in 0..instance.customers() {
        most = instance.weight(0, customer + 1).max(most);
    }
    i64::try_from(most.saturating_mul(6)).unwrap_or(i64::MAX)
}

impl Master {
    /// The program over the routes of one customer, and these.
    pub(crate) fn new(
        alloc: Global,
        instance: &Instance,
        scale: u32,
        limit: u64,
        routes: &[Vec<u16>],
    ) -> Result<Master, NoMemory>
        requires { place_count instance.now ≤ PLACES }
    {
        let penalty = penalty_of(instance);
        let limit = i64::try_from(limit).unwrap_or(i64::MAX);
        let settings = Settings {
            penalty,
            greatest_cost: limit.saturating_mul(2).max(penalty),
            perturbation: PERTURBATION,
        };
        let mut master = Master {
            alloc,
            customers: instance.customers(),
            scale,
            program: LinearProgram::new(alloc, instance.customers(), settings)?,
            columns: Columns::new(alloc),
            rows: Vec::new(alloc),
        };
        for index in 0..instance.customers() {
            master.add_route(instance, &[index + 1])?;
        }
        for route in routes {
            master.add_route(instance, route)?;
        }
        Ok(master)
    }

    /// A copy, with the program's basis.
    pub(crate) fn copy(&self) -> Result<Master, NoMemory> {
        Ok(Master {
            alloc: self.alloc,
            customers: self.customers,
            scale: self.scale,
            program: self.program.copy()?,
            columns: self.columns.clone()?,
            rows: self.rows.clone()?,
        })
    }

    // The program's rows in which a route counts, each as often as it does.
    fn rows_of(&self, stops: &[u16]) -> Result<Vec<u16>, NoMemory> {
        let mut rows = Vec::with_capacity(self.alloc, stops.len())?;
        for &stop in stops {
            rows.push(stop.saturating_sub(1))?;
        }
        rows.sort_unstable();
        let mut number = self.customers;
        for row in &self.rows {
            for _ in 0..row.count(stops) {
                rows.push(number)?;
            }
            number = number.saturating_add(1);
        }
        Ok(rows)
    }

    // Adds the column of a route.
    fn add_route(&mut self, instance: &Instance, stops: &[u16]) -> Result<(), NoMemory> {
        if let Some(cost) = route_cost(instance, stops) {
            let rows = self.rows_of(stops)?;
            if let Some(name) = self.columns.push(stops)? {
                self.program.add_column(name, cost, &rows)?;
            }
        }
        Ok(())
    }

    /// Adds the column of a route if its reduced cost is below 0. Whether it was added.
    pub(crate) fn offer(&mut self, instance: &Instance, stops: &[u16]) -> Result<bool, NoMemory> {
        let Some(cost) = route_cost(instance, stops) else {
            return Ok(false);
        };
        let rows = self.rows_of(stops)?;
        let bits = self.program.price_bits();
        let mut reduced = cost.wrapping_shl(bits);
        for &row in &rows {
            let price = self
                .program
                .prices()
                .get(usize::from(row))
                .copied()
                .unwrap_or(0);
            reduced = reduced.wrapping_sub(price);
        }
        let nothing = 1i64.wrapping_shl(bits.saturating_sub(TOLERANCE_BITS));
        if reduced >= nothing.wrapping_neg() {
            return Ok(false);
        }
        let Some(name) = self.columns.push(stops)? else {
            return Ok(false);
        };
        self.program.add_column(name, cost, &rows)?;
        Ok(true)
    }

    /// Adds a row, if the program has room for it. Whether it was added.
    pub(crate) fn add_row(&mut self, row: ProgramRow) -> Result<bool, NoMemory> {
        let mut counts = Vec::with_capacity(self.alloc, self.program.column_count())?;
        for &name in self.program.names() {
            counts.push(row.count(self.columns.stops(name)))?;
        }
        let number = self.program.add_row(row.sense(), row.side(), &counts)?;
        if number.is_none() {
            return Ok(false);
        }
        self.rows.push(row)?;
        Ok(true)
    }

    /// Takes out the rows that are not tight, but those that limit the number of routes.
    pub(crate) fn remove_slack_rows(&mut self) -> Result<(), NoMemory> {
        let customers = usize::from(self.customers);
        let mut may_go = vec![in self.alloc; false; customers]?;
        for row in &self.rows {
            may_go.push(row.may_go())?;
        }
        let gone = self.program.remove_slack_rows(&may_go)?;
        let mut rows = Vec::with_capacity(self.alloc, self.rows.len())?;
        let mut number = self.customers;
        for row in &self.rows {
            if !gone.contains(&number) {
                rows.push(*row)?;
            }
            number = number.saturating_add(1);
        }
        self.rows = rows;
        Ok(())
    }

    /// Takes out the columns of routes that use other arcs than these, by place.
    pub(crate) fn drop_columns(&mut self, followers: &[CustomerSet]) -> Result<(), NoMemory> {
        let mut stays = Vec::with_capacity(self.alloc, self.program.column_count())?;
        for &name in self.program.names() {
            stays.push(is_alive(followers, self.columns.stops(name)))?;
        }
        self.program.retain_columns(&stays)?;
        Ok(())
    }

    /// The rows beside those of the customers.
    pub(crate) fn rows(&self) -> &[ProgramRow] {
        &self.rows
    }

    /// The routes of all columns.
    pub(crate) fn routes(&self) -> Result<Vec<Vec<u16>>, NoMemory> {
        let mut routes = Vec::with_capacity(self.alloc, self.program.column_count())?;
        for &name in self.program.names() {
            routes.push(Vec::from_slice(self.alloc, self.columns.stops(name))?)?;
        }
        Ok(routes)
    }

    /// The routes that the present solution uses.
    pub(crate) fn used(&self) -> Result<Vec<UsedRoute>, NoMemory> {
        let mut used = Vec::new(self.alloc);
        for column in &self.program.used_columns()? {
            used.push(UsedRoute {
                stops: Vec::from_slice(self.alloc, self.columns.stops(column.name))?,
                // From units of 1/2^36 to those of 1/2^20.
                value: column.value >> 16,
            })?;
        }
        Ok(used)
    }

    // The price of a program's row, in price units. It is rounded down, so no reduced cost falls by that.
    fn price(&self, row: usize) -> i64 {
        let price = self.program.prices().get(row).copied().unwrap_or(0);
        let bits = self.program.price_bits();
        let product = i128::from(price).wrapping_mul(i128::from(self.scale));
        let rounded = product.wrapping_shr(bits);
        i64::try_from(rounded)
            .unwrap_or(0)
            .clamp(-MOST_PRICE, MOST_PRICE)
    }

    /// The dual prices of the rows for an instance; none if they don't fit.
    pub(crate) fn duals(&self, instance: &Instance) -> Result<Option<Duals>, NoMemory>
        ensures { IfOk result (λ duals. IfSome duals (AreDualsOf instance.now)) }
    {
        let customers = usize::from(self.customers);
        let mut prices = Vec::with_capacity(self.alloc, customers + 1)?;
        prices.push(0)?;
        for row in 0..customers {
            prices.push(self.price(row))?;
        }
        let (mut entries, mut rows) = (Vec::new(self.alloc), Vec::new(self.alloc));
        for (index, row) in self.rows.iter().enumerate() {
            self.push_priced(
                row,
                customers.saturating_add(index),
                &mut entries,
                &mut rows,
            )?;
        }
        match Duals::new(instance, self.scale, prices, entries, rows) {
            Ok(duals) => Ok(Some(duals)),
            Err(_) => Ok(None),
        }
    }

    // Adds a row with its price, if it has one.
    fn push_priced(
        &self,
        row: &ProgramRow,
        number: usize,
        entries: &mut Vec<EntryRow>,
        rows: &mut Vec<SubsetRow>,
    ) -> Result<(), NoMemory> {
        let price = self.price(number);
        match *row {
            ProgramRow::CapacityCut(row) | ProgramRow::AtLeast(row) if price > 0 => {
                entries.push(EntryRow { price, ..row })?
            }
            ProgramRow::AtMost(row) if price < 0 => entries.push(EntryRow { price, ..row })?,
            ProgramRow::Subset(row) if price < 0 && rows.len() < MAX_SUBSET_ROWS => rows.push(
                SubsetRow {
                    price: price.unsigned_abs(),
                    ..row
                },
            )?,
            _ => {}
        }
        Ok(())
    }

    /// The sets of the capacity cuts.
    pub(crate) fn cut_sets(&self) -> Result<Vec<CustomerSet>, NoMemory> {
        let mut sets = Vec::new(self.alloc);
        for row in &self.rows {
            if let ProgramRow::CapacityCut(row) = row {
                sets.push(row.customers)?;
            }
        }
        Ok(sets)
    }

    /// How many subset rows have a price.
    pub(crate) fn priced_subset_rows(&self) -> usize {
        let mut count: usize = 0;
        let mut number = usize::from(self.customers);
        for row in &self.rows {
            if matches!(row, ProgramRow::Subset(_)) && self.price(number) < 0 {
                count = count.saturating_add(1);
            }
            number = number.saturating_add(1);
        }
        count
    }

    /// The subset rows.
    pub(crate) fn subset_rows(&self) -> Result<Vec<SubsetRow>, NoMemory> {
        let mut rows = Vec::new(self.alloc);
        for row in &self.rows {
            if let ProgramRow::Subset(row) = row {
                rows.push(*row)?;
            }
        }
        Ok(rows)
    }
}
