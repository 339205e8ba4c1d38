//! Queries on an instance for tests; places need not belong to it.
ghost use Rattle.std.specs.Prelude.{◌≤◌, All, Contains, IsTrue};
ghost use Rattle.std.specs.List.Sorted.{IsStrictlyIncreasing};
ghost use Rattle.vrp_model.specs.Problem.{customers, demand_of};
ghost use Rattle.vrp_model.specs.Route.{load_of};

use vrp_model::Instance;

/// Whether these are customers of the instance, by rising place.
pub(crate) fn are_customers(instance: &Instance, places: &[u16]) -> bool
    ensures rising { IsTrue result → IsStrictlyIncreasing places.now }
    ensures known { IsTrue result → All (Contains (customers instance.now)) places.now }
{
    let mut before = 0;
    for place in places {
        if *place <= before || *place > instance.customers() {
            return false;
        }
        before = *place;
    }
    true
}

/// The total demand of these places.
pub(crate) fn demand_of_all(instance: &Instance, places: &[u16]) -> u64
    ensures { result ≤ load_of instance.now places.now }
{
    let mut rest = 0u64;
    for place in places {
        rest = rest.saturating_add(demand(instance, *place));
    }
    rest
}

/// The demand of a place.
pub(crate) fn demand(instance: &Instance, place: u16) -> u64
    ensures { result ≤ demand_of instance.now place }
{
    if place <= instance.customers() {
        instance.demand(place)
    } else {
        0
    }
}

/// The weight of an arc.
pub(crate) fn arc(instance: &Instance, from: u16, to: u16) -> u64 {
    if from <= instance.customers() && to <= instance.customers() {
        instance.weight(from, to)
    } else {
        0
    }
}
