//! Ng-sets: which customers a label at a place can remember.
ghost use Rattle.std.specs.Prelude.{◌≡◌, ◌≤◌, ◌<◌, IfOk, length};
ghost use Rattle.vrp_model.specs.declared.customers.customer_set.TheConstants.{PLACES};
ghost use Rattle.vrp_model.specs.Problem.{place_count};

use std::alloc::Global;
use vrp_model::{CustomerSet, Instance, NoMemory, PLACES};

// The arcs of a customer to a place and back.
#[derive(Clone, Copy, PartialEq, Eq, PartialOrd, Ord)]
struct ArcPair {
    weight: u64,
    customer: u16,
}

/// For each place, the depot's first, the customers nearest to it by the arcs there and back, itself left out: `size` of them, or all if
/// there are fewer. Any sets will do for a pass (ng-sets; Baldacci, Mingozzi and Roberti 2011), so the contract pins only how many sets
/// there are.
pub fn nearest_sets(
    alloc: Global,
    instance: &Instance,
    size: usize,
) -> Result<Vec<CustomerSet>, NoMemory>
    requires { place_count instance.now ≤ PLACES }
    ensures { IfOk result (λ sets. length sets.items ≡ place_count instance.now) }
{
    let places = instance.customers() + 1;
    let mut sets = Vec::with_capacity(alloc, usize::from(places))?;
    let mut pairs = Vec::with_capacity(alloc, usize::from(places))?;
    for place in 0..places {
        list_pairs(&mut pairs, instance, place)?;
        sets.push(first_of(&pairs, size))?;
    }
    Ok(sets)
}

// The other customers, by rising weight of the arcs there and back.
fn list_pairs(pairs: &mut Vec<ArcPair>, instance: &Instance, place: u16) -> Result<(), NoMemory>
    requires { place < place_count instance.now }
{
    pairs.clear();
    for customer in 1..instance.customers() + 1 {
        if customer != place {
            let weight = instance.weight(place, customer) + instance.weight(customer, place);
            pairs.push(ArcPair { weight, customer })?;
        }
    }
    pairs.sort_unstable();
    Ok(())
}

// The customers of the first pairs.
fn first_of(pairs: &[ArcPair], size: usize) -> CustomerSet {
    let mut set = CustomerSet::empty();
    for pair in pairs.iter().take(size) {
        if usize::from(pair.customer) < PLACES {
            set = set.with(pair.customer);
        }
    }
    set
}
