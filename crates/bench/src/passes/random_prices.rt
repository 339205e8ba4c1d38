//! Random dual prices of an instance, good and bad.
ghost use Rattle.std.specs.Prelude.{IfOk};
ghost use Rattle.vrp_duals.specs.Duals.{AreDualsOf};

use super::random_instance::random_set;
use anyhow::{Result, bail};
use std::alloc::Global;
use test_fixtures::Random;
use vrp_duals::{Duals, EntryRow, SubsetRow};
use vrp_model::{CustomerSet, Instance, PLACES};
use vrp_routes::PlanRange;

/// Dual prices near those of routes of one customer, or far from them, with entry rows that feasible plans in a range obey, and subset rows
/// with any memory.
pub(crate) fn random_prices(
    alloc: Global,
    random: &mut Random,
    instance: &Instance,
    range: PlanRange,
) -> Result<Duals>
    ensures { IfOk result (AreDualsOf instance.now) }
{
    let scale = [1, 2, 10, 100][(random.next() % 4) as usize];
    let prices = customer_prices(alloc, random, instance, scale)?;
    let mut entries = Vec::new(alloc);
    let mut rows = Vec::new(alloc);
    for _ in 0..random.next() % 4 {
        add_entry(&mut entries, random, instance, range, scale)?;
        add_row(&mut rows, random, instance.customers(), scale)?;
    }
    match Duals::new(instance, scale, prices, entries, rows) {
        Ok(duals) => Ok(duals),
        Err(fault) => bail!("{fault:?}"),
    }
}

// The price of each place: for a customer, up to a tenth more than the route to nobody else costs.
fn customer_prices(
    alloc: Global,
    random: &mut Random,
    instance: &Instance,
    scale: u32,
) -> Result<Vec<i64>> {
    let mut prices = Vec::new(alloc);
    prices.push(0)?;
    for index in 0..instance.customers() {
        let customer = index + 1;
        let cost = instance.weight(0, customer) + instance.weight(customer, 0);
        let part = u64::from(random.next() % 110);
        let price = cost.saturating_mul(u64::from(scale)).saturating_mul(part) / 100;
        prices.push(i64::try_from(price).unwrap_or(0))?;
    }
    Ok(prices)
}

// Adds an entry row that each feasible plan in the range obeys, if one is drawn: of some customers by their demand, or of all by the number
// of routes.
fn add_entry(
    entries: &mut Vec<EntryRow>,
    random: &mut Random,
    instance: &Instance,
    range: PlanRange,
    scale: u32,
) -> Result<()> {
    let customers = instance.customers();
    let price = i64::from(random.next() % 30).saturating_mul(i64::from(scale));
    let some = EntryRow {
        customers: random_set(random, customers),
        count: (random.next() % 4) as u16,
        price,
    };
    let all = EntryRow {
        customers: full_set(customers),
        count: (random.next() % 5) as u16,
        price: if random.next() % 2 == 0 {
            price
        } else {
            -price
        },
    };
    let row = if random.next() % 2 == 0 { some } else { all };
    let is_small = usize::from(customers) < PLACES;
    if is_small && row.is_needed_for(instance, range.least_routes, range.most_routes) {
        entries.push(row)?;
    }
    Ok(())
}

// All of so many customers.
fn full_set(customers: u16) -> CustomerSet {
    let mut set = CustomerSet::empty();
    for index in 0..customers {
        if usize::from(index) + 1 < PLACES {
            set = set.with(index + 1);
        }
    }
    set
}

// Adds a subset row of three or five customers, if so many are drawn.
fn add_row(
    rows: &mut Vec<SubsetRow>,
    random: &mut Random,
    customers: u16,
    scale: u32,
) -> Result<()> {
    let drawn = random_set(random, customers);
    if drawn.len() == 3 || drawn.len() == 5 {
        rows.push(SubsetRow {
            customers: drawn,
            memory: drawn.union(random_set(random, customers)),
            price: u64::from(random.next() % 40).saturating_mul(u64::from(scale)),
        })?;
    }
    Ok(())
}
