//! Runs of routes that share a customer.
ghost use Rattle.std.specs.Prelude.{◌≡◌, ◌<◌, ◌≤◌, length};
ghost use Rattle.std.specs.Int.{bit_at};
ghost use Rattle.vrp_canonical.specs.Passing.{AllHave, IsInside, route_in};
ghost use Rattle.vrp_model.specs.declared.customers.customer_set.TheConstants.{PLACES};

use vrp_model::CustomerSet;
use vrp_partition::Route;

/// The routes from a place to an end. All of them that have only unserved customers share this customer.
#[derive(Clone, Copy, Debug)]
pub struct RouteRun {
    pub customer: u16,
    pub end: usize,
}

/// The run that begins at a place. The contract leaves open its length and its customer.
pub fn run_from(pool: &[Route], unserved: CustomerSet, index: usize) -> RouteRun
    requires index { index < length pool.now }
    requires inside { IsInside pool.now unserved index }
    requires some { 0 < (route_in pool.now index).set }
    ensures customer { result.customer < PLACES }
    ensures unserved { bit_at unserved result.customer ≡ 1 }
    ensures end { result.end ≤ length pool.now }
    ensures some { index < result.end }
    ensures have { AllHave pool.now unserved result.customer index result.end }
{
    let mut common = pool[index].set;
    for end in index + 1..pool.len() {
        let set = pool[end].set;
        if set.is_subset(unserved) {
            if common.is_disjoint(set) {
                return run_with(common, end);
            }
            common = common.intersection(set);
        }
    }
    run_with(common, pool.len())
}

// The run to an end whose routes share these customers, by the first of them.
fn run_with(common: CustomerSet, end: usize) -> RouteRun
    requires { 0 < common }
    ensures customer { result.customer < PLACES }
    ensures shared { bit_at common result.customer ≡ 1 }
    ensures end { result.end ≡ end }
{
    match common.first() {
        Some(customer) => RouteRun { customer, end },
        None => unreachable!(),
    }
}
