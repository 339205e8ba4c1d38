//! Demands and the capacity in units, as labels count them.
ghost use Rattle.std.specs.Prelude.{◌≤◌, IfOk, IfSome};
ghost use Rattle.vrp_model.specs.declared.customers.customer_set.TheConstants.{PLACES};
ghost use Rattle.vrp_model.specs.Problem.{place_count};
ghost use Rattle.vrp_labels.specs.declared.graph.TheConstants.{MAX_UNITS};
ghost use Rattle.vrp_priced_routes.specs.Units.{CarryRoutes};

use std::alloc::Global;
use vrp_bound::gcd;
use vrp_bound_prices::{capacity_in_units, demand_in_units};
use vrp_labels::MAX_UNITS;
use vrp_model::{Instance, NoMemory};

// A capacity in units is at most this, but for the customers who demand less than a unit: labels are told apart by their load, and a table
// has an entry for each unit and place.
const MOST_UNITS: u64 = 2_000;

/// The demand of each place, the depot's first, and the capacity, both in units.
#[derive(Debug, Drop)]
pub struct UnitDemands {
    pub demands: Vec<u32>,
    pub capacity: u32,
}

/// An instance's demands and capacity in units. The unit is what divides all demands, or more where the capacity would be too many units.
/// `None` if the capacity is more than `MAX_UNITS`.
pub fn unit_demands(alloc: Global, instance: &Instance) -> Result<Option<UnitDemands>, NoMemory>
    requires { place_count instance.now ≤ PLACES }
    ensures routes { IfOk result (λ units. IfSome units (λ units. CarryRoutes instance.now units.demands.items units.capacity)) }
    ensures small { IfOk result (λ units. IfSome units (λ units. units.capacity ≤ MAX_UNITS)) }
{
    let unit = unit_of(instance);
    let capacity = capacity_in_units(instance, unit);
    if capacity > u64::from(MAX_UNITS) {
        return Ok(None);
    }
    let mut demands = Vec::with_capacity(alloc, usize::from(instance.customers()) + 1)?;
    demands.push(0)?;
    for index in 0..instance.customers() {
        let demand = demand_in_units(instance, unit, index + 1).min(u64::from(u32::MAX));
        demands.push(demand as u32)?;
    }
    Ok(Some(UnitDemands {
        demands,
        capacity: capacity as u32,
    }))
}

// The greatest number that divides all demands, or what makes the capacity few enough units. Any unit will do.
fn unit_of(instance: &Instance) -> u64
    ensures { 1 ≤ result }
{
    let mut unit = 0;
    for index in 0..instance.customers() {
        unit = gcd(unit, instance.demand(index + 1));
    }
    let least = instance.capacity().div_ceil(MOST_UNITS);
    unit.max(least).max(1)
}
