//! Demands and capacity in a coarser unit.
ghost use Rattle.std.specs.Prelude.{◌≡◌, ℕ, ◌≤◌, ◌<◌, All, IfOk, slice_index, vec_len};
ghost use Rattle.vrp_model.specs.Problem.{customers, demand_of, place_count};
ghost use Rattle.vrp_model.specs.declared.limits.TheConstants.{MAX_NODES};
ghost use Rattle.vrp_bound_prices.specs.Units.{light_count, rounded_capacity, units_of};

use std::alloc::Global;
use vrp_model::{Instance, NoMemory};

/// The demand of each place in units: rounded down, and at least 1 for a customer. None is above the capacity in units.
pub(crate) fn demands_in_units(
    alloc: Global,
    instance: &Instance,
    unit: u64,
) -> Result<Vec<u64>, NoMemory>
    requires some { 1 ≤ unit }
    ensures one_each { IfOk result (λ demands. vec_len demands ≡ place_count instance.now) }
    ensures empty_depot { IfOk result (λ demands. slice_index demands.items 0 ≡ 0) }
    ensures units { IfOk result (λ demands.
        All (λ customer. slice_index demands.items customer ≡ units_of unit (demand_of instance.now customer)) (customers instance.now)) }
    ensures fitting { IfOk result (λ demands.
        (place : ℕ) → slice_index demands.items place ≤ rounded_capacity instance.now unit) }
{
    let mut demands = Vec::with_capacity(alloc, usize::from(instance.customers()) + 1)?;
    demands.push_reserved(0);
    for index in 0..instance.customers() {
        demands.push_reserved(demand_in_units(instance, unit, index + 1));
    }
    Ok(demands)
}

/// A customer's demand in units: rounded down, and at least 1.
pub fn demand_in_units(instance: &Instance, unit: u64, customer: u16) -> u64
    requires some { 1 ≤ unit }
    requires within { customer < place_count instance.now }
    ensures { result ≡ units_of unit (demand_of instance.now customer) }
{
    (instance.demand(customer) / unit).max(1)
}

/// The capacity in units: rounded down, plus one for each customer who demands less than a unit.
pub fn capacity_in_units(instance: &Instance, unit: u64) -> u64
    requires some { 1 ≤ unit }
    ensures { result ≡ rounded_capacity instance.now unit }
{
    instance.capacity() / unit + light_customers(instance, unit)
}

// The number of customers who demand less than a unit.
fn light_customers(instance: &Instance, unit: u64) -> u64
    ensures value { result ≡ light_count instance.now unit }
    ensures few { result ≤ MAX_NODES }
{
    let mut light = 0;
    for index in 0..instance.customers() {
        if instance.demand(index + 1) < unit {
            light += 1;
        }
    }
    light
}
