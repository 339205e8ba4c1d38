//! Whether every feasible plan obeys an entry row.
ghost use Rattle.std.specs.Prelude.{◌≡◌, ◌≤◌, ◌<◌, ◌*◌, ◌↔◌, IsSomeAnd, IsTrue};
ghost use Rattle.std.specs.Int.{bit_at};
ghost use Rattle.vrp_model.specs.declared.customers.customer_set.TheConstants.{PLACES};
ghost use Rattle.vrp_model.specs.Problem.{demand_of, place_count};
ghost use Rattle.vrp_model.specs.declared.limits.TheConstants.{MAX_WHOLE_DEMAND};
ghost use Rattle.vrp_duals.specs.Duals.{HasAllCustomers, IsNeeded, IsNeededByDemand, IsNeededByLeast, IsNeededByMost, IsNeededByTrucks, IsNeededFor, set_demand};

use crate::rows::EntryRow;
use vrp_model::{CustomerSet, Instance, all_customers};

impl EntryRow {
    /// Whether every feasible plan obeys the row for a reason of its own: its price is not negative and its customers demand more than
    /// `count` - 1 trucks carry (rounded capacity inequalities; Laporte and Nobert 1983), or its price is not positive, it has all
    /// customers, and there are at most `count` trucks.
    pub fn is_needed(&self, instance: &Instance) -> bool
        requires { place_count instance.now ≤ PLACES }
        ensures { IsTrue result ↔ IsNeeded instance.now self.now }
    {
        self.is_needed_by_demand(instance) || self.is_needed_by_trucks(instance)
    }

    /// Whether every feasible plan with at least and at most so many routes obeys the row: because every feasible plan does, or because it has
    /// all customers, whom each route enters once, and its price has the right sign.
    pub fn is_needed_for(&self, instance: &Instance, least: u16, most: Option<u16>) -> bool
        requires { place_count instance.now ≤ PLACES }
        ensures { IsTrue result ↔ IsNeededFor instance.now least most self.now }
    {
        self.is_needed(instance)
            || self.is_needed_by_least(instance, least)
            || self.is_needed_by_most(instance, most)
    }

    // Whether at least so many routes enter the set of all customers often enough.
    fn is_needed_by_least(&self, instance: &Instance, least: u16) -> bool
        requires { place_count instance.now ≤ PLACES }
        ensures { IsTrue result ↔ IsNeededByLeast instance.now least self.now }
    {
        if self.price < 0 || self.customers.contains(0) {
            return false;
        }
        has_all_customers(instance, self.customers) && self.count <= least
    }

    // Whether at most so many routes enter the set of all customers so seldom.
    fn is_needed_by_most(&self, instance: &Instance, most: Option<u16>) -> bool
        requires { place_count instance.now ≤ PLACES }
        ensures { IsTrue result ↔ IsNeededByMost instance.now most self.now }
    {
        if self.price > 0 || !has_all_customers(instance, self.customers) {
            return false;
        }
        match most {
            Some(most) => most <= self.count,
            None => false,
        }
    }

    // Whether so many trucks are needed to carry the demand.
    fn is_needed_by_demand(&self, instance: &Instance) -> bool
        requires { place_count instance.now ≤ PLACES }
        ensures { IsTrue result ↔ IsNeededByDemand instance.now self.now }
    {
        if self.price < 0 || self.customers.contains(0) {
            return false;
        }
        let capacity = instance.capacity();
        u64::from(self.count) * capacity < set_demand(instance, self.customers) + capacity
    }

    // Whether there are no more trucks to enter the set of all customers.
    fn is_needed_by_trucks(&self, instance: &Instance) -> bool
        requires { place_count instance.now ≤ PLACES }
        ensures { IsTrue result ↔ IsNeededByTrucks instance.now self.now }
    {
        if self.price > 0 || !has_all_customers(instance, self.customers) {
            return false;
        }
        has_trucks_at_most(instance, self.count)
    }
}

// Whether there is a limit on trucks that is at most so many.
fn has_trucks_at_most(instance: &Instance, count: u16) -> bool
    ensures { IsTrue result ↔ IsSomeAnd instance.now.trucks (λ trucks. trucks ≤ count) }
{
    match instance.trucks() {
        Some(trucks) => trucks <= count,
        None => false,
    }
}

// Whether a set has all customers.
fn has_all_customers(instance: &Instance, set: CustomerSet) -> bool
    requires { place_count instance.now ≤ PLACES }
    ensures { IsTrue result ↔ HasAllCustomers instance.now set }
{
    all_customers(instance).is_subset(set)
}

// What the customers of a set demand together.
fn set_demand(instance: &Instance, set: CustomerSet) -> u64
    requires { place_count instance.now ≤ PLACES }
    ensures value { result ≡ set_demand instance.now set }
    ensures small { result ≤ MAX_WHOLE_DEMAND }
{
    let mut demand = 0;
    for index in 0..instance.customers() {
        demand += demand_inside(instance, set, index + 1);
    }
    demand
}

// What a customer demands if a set has it, or else 0.
fn demand_inside(instance: &Instance, set: CustomerSet, customer: u16) -> u64
    requires few { place_count instance.now ≤ PLACES }
    requires within { customer < place_count instance.now }
    ensures value { result ≡ bit_at set customer * demand_of instance.now customer }
    ensures small { result ≤ instance.now.capacity }
{
    if set.contains(customer) {
        instance.demand(customer)
    } else {
        0
    }
}
