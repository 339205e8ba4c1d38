//! The fleet of an instance: demands, capacity and trucks.
ghost use Rattle.std.specs.Prelude.{◌≡◌, ℕ, ◌≤◌, ◌-◌, ◌^◌, IfOk, length, min, slice_index, slice_index_or};
ghost use Rattle.vrp_model.specs.Fleet.{IsFleet};
ghost use Rattle.vrp_model.specs.declared.customers.customer_set.TheConstants.{PLACES};
ghost use Rattle.vrp_model.specs.Problem.{demand_of, place_count};

use crate::customers::customer_set::PLACES;
use crate::instance::Instance;
use crate::memory::NoMemory;
use std::alloc::Global;

/// The fleet of an instance: the demand of each place, 0 where there is no customer, the capacity of a truck, and the most trucks that
/// may be sent out.
#[derive(Debug, Drop)]
pub struct Fleet {
    pub demands: Vec<u32>,
    pub capacity: u32,
    pub trucks: u8,
    ghost one_demand_each: { length demands.items ≡ PLACES },
}

/// A fleet that is lent. It may have other trucks than those that the instance allows, as for a part of the customers.
#[derive(Clone, Copy, Debug)]
pub struct FleetView<'a> {
    pub demands: &'a [u32],
    pub capacity: u32,
    pub trucks: u8,
}

impl Fleet {
    /// The fleet of an instance. A demand or a capacity that doesn't fit 32 bits is cut to the greatest number that does. The only error
    /// is lack of memory.
    pub fn of_instance(alloc: Global, instance: &Instance) -> Result<Fleet, NoMemory>
        requires { place_count instance.now ≤ PLACES }
        ensures demands { IfOk result (λ fleet. (place : ℕ)
            → slice_index fleet.demands.items place ≡ min (demand_of instance.now place) (2 ^ 32 - 1)) }
        ensures capacity { IfOk result (λ fleet. fleet.capacity ≡ min instance.now.capacity (2 ^ 32 - 1)) }
        ensures trucks { IfOk result (λ fleet. IsFleet instance.now fleet.trucks) }
    {
        Ok(Fleet {
            demands: demands_of(alloc, instance)?,
            capacity: fitted(instance.capacity()),
            trucks: trucks_of(instance),
        })
    }

    /// The fleet, lent.
    pub fn lent(&self) -> FleetView<'_>
        ensures demands { result.demands.now ≡ self.now.demands.items }
        ensures capacity { result.capacity ≡ self.now.capacity }
        ensures trucks { result.trucks ≡ self.now.trucks }
        ensures places { length result.demands.now ≡ PLACES }
    {
        FleetView {
            demands: self.demands.as_slice(),
            capacity: self.capacity,
            trucks: self.trucks,
        }
    }
}

impl FleetView<'_> {
    /// The demand of a customer, 0 if there is no such customer.
    pub fn demand(&self, customer: usize) -> u64
        ensures { result ≡ slice_index_or self.now.demands.now customer 0 }
    {
        u64::from(self.demands.get(customer).copied().unwrap_or(0))
    }
}

// The number, or the greatest one of 32 bits.
fn fitted(number: u64) -> u32
    ensures { result ≡ min number (2 ^ 32 - 1) }
{
    number.min(u64::from(u32::MAX)) as u32
}

// The demand of each place, 0 where there is no customer.
fn demands_of(alloc: Global, instance: &Instance) -> Result<Vec<u32>, NoMemory>
    requires { place_count instance.now ≤ PLACES }
    ensures places { IfOk result (λ demands. length demands.items ≡ PLACES) }
    ensures value { IfOk result (λ demands. (place : ℕ)
        → slice_index demands.items place ≡ min (demand_of instance.now place) (2 ^ 32 - 1)) }
{
    let customers = instance.customers();
    let mut demands = Vec::with_capacity(alloc, PLACES)?;
    for place in 0..PLACES as u16 {
        let demand = if place <= customers {
            instance.demand(place)
        } else {
            0
        };
        demands.push(fitted(demand))?;
    }
    Ok(demands)
}

// The most routes of a plan: the limit on trucks, or one for each customer if that is less.
fn trucks_of(instance: &Instance) -> u8
    requires { place_count instance.now ≤ PLACES }
    ensures { IsFleet instance.now result }
{
    let customers = instance.customers();
    match instance.trucks() {
        Some(trucks) => trucks.min(customers) as u8,
        None => customers as u8,
    }
}
