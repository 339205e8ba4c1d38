//! The capacity bound: a truck enters each unserved customer, and enough trucks drive home.
ghost use Rattle.std.specs.Prelude.{◌≡◌, ◌*◌, ◌≤◌, ◌<◌};
ghost use Rattle.vrp_model.specs.Problem.{customers, place_count};
ghost use Rattle.vrp_model.specs.Route.{load_of};
ghost use Rattle.vrp_bound.specs.Capacity.{IsCapacityBound, IsTrucks};

use vrp_model::{Instance, MAX_ARCS};

/// The capacity bound from a place, with this load on the current truck: `inbound_sum`, the sum of the least arcs into the
/// unserved customers, plus a least arc home for the current truck and for each truck that carries what it can't take of the
/// rest.
pub fn cap_bound(instance: &Instance, at: u16, load: u64, inbound_sum: u64, rest: u64) -> u64
    requires place { at < place_count instance.now }
    requires load { load ≤ instance.now.capacity }
    requires depot { at ≡ 0 → load ≡ 0 }
    requires inbound_sum { inbound_sum ≤ MAX_ARCS }
    requires rest { rest ≤ load_of instance.now (customers instance.now) }
    ensures bound { IsCapacityBound instance.now at load inbound_sum rest result }
    ensures small { result ≤ 2 * MAX_ARCS }
{
    let home = instance.least_home();
    let capacity = instance.capacity();
    let room = if at == 0 { 0 } else { capacity - load };
    let trucks = trucks_needed(capacity, rest.saturating_sub(room));
    let returns = if at == 0 { trucks } else { trucks + 1 };
    inbound_sum + returns * home
}

/// The least number of trucks that carry this amount.
pub fn trucks_needed(capacity: u64, amount: u64) -> u64
    requires { 0 < amount → 0 < capacity }
    ensures { IsTrucks capacity amount result }
{
    if amount == 0 {
        return 0;
    }
    // The usual case; it avoids a division.
    if amount <= capacity {
        return 1;
    }
    (amount - 1) / capacity + 1
}
