//! Demands counted in a unit: the greater the unit, the smaller the tables.
ghost use Rattle.std.specs.Prelude.{◌≡◌, ◌≤◌, ◌/◌, IfOk};
ghost use Rattle.std.specs.Option.{ForSome};
ghost use Rattle.vrp_model.specs.Problem.{place_count};
ghost use Rattle.vrp_bound.specs.Inner.Scope.{IsScope};
ghost use Rattle.vrp_bound.specs.Inner.Units.{IsGreatestUnit, IsUnit, in_units};

use crate::divisor::gcd;
use crate::scope::Scope;
use std::alloc::Global;
use vrp_model::{Instance, NgSets, NoMemory};

/// Some customers of an instance, the ng-sets of walks through them, if any, and a unit that divides each of their demands.
#[derive(Clone, Copy)]
pub(crate) struct UnitScope<'a> {
    pub(crate) instance: &'a Instance,
    pub(crate) customers: &'a [u16],
    pub(crate) places: usize,
    pub(crate) ng_sets: Option<&'a NgSets>,
    pub(crate) unit: u64,
    ghost some: { 1 ≤ unit },
    ghost counted: { places ≡ place_count instance.now },
    ghost of_places: { ForSome ng_sets (λ ng_sets. ng_sets.now.places ≡ places) },
    ghost scope: { IsScope (in_units unit instance.now) customers.now },
}

impl<'a> UnitScope<'a> {
    /// These customers, with their demands counted in this unit.
    pub(crate) fn new(scope: Scope<'a>, ng_sets: Option<&'a NgSets>, unit: u64) -> UnitScope<'a>
        requires places { ForSome ng_sets (λ ng_sets. ng_sets.now.places ≡ scope.places) }
        requires scope { IsScope scope.instance.now scope.customers.now }
        requires unit { IsUnit scope.instance.now scope.customers.now unit }
        ensures instance { result.instance.now ≡ scope.entry.instance.now }
        ensures customers { result.customers.now ≡ scope.entry.customers.now }
        ensures ng_sets { result.ng_sets ≡ ng_sets.entry }
        ensures unit { result.unit ≡ unit }
    {
        UnitScope {
            instance: scope.instance,
            customers: scope.customers,
            places: scope.places,
            ng_sets,
            unit,
        }
    }

    /// The whole units of an amount.
    pub(crate) fn whole_units(self, amount: u64) -> u64
        ensures { result ≡ amount / self.entry.unit }
    {
        if self.unit == 1 {
            return amount;
        }
        amount / self.unit
    }
}

/// The greatest unit that divides each of these customers' demands; 1 if none of them has a demand.
pub fn unit_of(scope: Scope<'_>) -> u64
    ensures { IsGreatestUnit scope.entry.instance.now scope.entry.customers.now result }
{
    let mut unit = 0;
    for customer in scope.customers {
        unit = gcd(unit, scope.instance.demand(*customer));
    }
    unit.max(1)
}

/// The demands in units, by place.
pub(crate) fn demands_in_units(alloc: Global, scope: UnitScope<'_>) -> Result<Vec<u64>, NoMemory>
    ensures { let p = in_units scope.entry.unit scope.entry.instance.now in
        IfOk result (λ demands. demands.items ≡ p.demands) }
{
    let mut demands = Vec::with_capacity(alloc, scope.places)?;
    for place in 0..scope.places as u16 {
        let demand = scope.instance.demand(place);
        demands.push_reserved(scope.whole_units(demand));
    }
    Ok(demands)
}
