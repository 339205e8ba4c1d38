//! Small random instances, and random sets of their customers.
ghost use Rattle.std.specs.Prelude.{◌≤◌};

use anyhow::Result;
use std::alloc::Global;
use test_fixtures::{Random, with_arcs};
use vrp_model::{CustomerSet, Instance, PLACES};

/// An instance of one to eight customers, mostly of up to six: symmetric or not, with a limit on trucks or none, with demands of 1, large
/// ones, or some of 0.
pub(crate) fn random_instance(alloc: Global, random: &mut Random) -> Result<Instance> {
    let places = random_places(random);
    let symmetric = random.next() % 2 == 0;
    let arcs = random_arcs(alloc, random, places, symmetric)?;
    let demands = random_demands(alloc, random, places)?;
    let (mut most, mut whole) = (1u64, 0u64);
    for &demand in &demands {
        most = most.max(demand);
        whole = whole.saturating_add(demand);
    }
    let capacity = most.saturating_add(u64::from(random.next()) % whole.max(1));
    let instance = with_arcs(alloc, &arcs, &demands, capacity)?;
    Ok(match random.next() % 8 {
        1 => instance.with_trucks(1),
        2 => instance.with_trucks(2),
        3 => instance.with_trucks(3),
        4 => instance.with_trucks(4),
        _ => instance,
    })
}

// The number of places: the slow program tries all plans, so few instances are large.
fn random_places(random: &mut Random) -> usize
    ensures { result ≤ 9 }
{
    let drawn = random.next() % 64;
    let customers = match drawn {
        0 => 8,
        1..=3 => 7,
        _ => drawn % 6 + 1,
    };
    (customers + 1) as usize
}

// The arcs of so many places.
fn random_arcs(
    alloc: Global,
    random: &mut Random,
    places: usize,
    symmetric: bool,
) -> Result<Vec<u64>> {
    let count = places.saturating_mul(places);
    let mut arcs = Vec::new(alloc);
    for index in 0..count {
        let (from, to) = (index / places.max(1), index % places.max(1));
        let mirror = to.saturating_mul(places).saturating_add(from);
        let drawn = u64::from(random.next() % 100);
        let arc = match arcs.get(mirror) {
            Some(known) if symmetric => *known,
            _ => drawn,
        };
        arcs.push(arc)?;
    }
    Ok(arcs)
}

// The demands of so many places: of one of four kinds.
fn random_demands(alloc: Global, random: &mut Random, places: usize) -> Result<Vec<u64>> {
    let kind = random.next() % 4;
    let mut demands = Vec::new(alloc);
    demands.push(0)?;
    for _ in 1..places {
        let drawn = u64::from(random.next());
        demands.push(match kind {
            0 => 1,
            1 => drawn % 5 + 1,
            2 => drawn % 90_000 + 10_000,
            _ => drawn % 4,
        })?;
    }
    Ok(demands)
}

/// A random set of customers for each place.
pub(crate) fn random_sets(
    alloc: Global,
    random: &mut Random,
    instance: &Instance,
) -> Result<Vec<CustomerSet>> {
    let mut sets = Vec::new(alloc);
    for _ in 0..instance.customers().saturating_add(1) {
        sets.push(random_set(random, instance.customers()))?;
    }
    Ok(sets)
}

/// Each customer with a chance of one in two.
pub(crate) fn random_set(random: &mut Random, customers: u16) -> CustomerSet {
    let mut set = CustomerSet::empty();
    for index in 0..customers {
        let drawn = random.next() % 2 == 0;
        if drawn && usize::from(index) + 1 < PLACES {
            set = set.with(index + 1);
        }
    }
    set
}
