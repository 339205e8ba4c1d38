//! Sets of an instance and of a plan.
ghost use Rattle.std.specs.Prelude.{◌≡◌, ◌≤◌, IfOk, length, vec_len};
ghost use Rattle.vrp_model.specs.CustomerSet.{set_of};
ghost use Rattle.vrp_model.specs.Problem.{IsProblem, customers, place_count};

use crate::customers::customer_set::{CustomerSet, PLACES};
use crate::instance::Instance;
use crate::memory::NoMemory;
use crate::plan::Plan;
use std::alloc::Global;

/// All customers.
pub fn all_customers(instance: &Instance) -> CustomerSet
    requires { place_count instance.now ≤ PLACES }
    ensures value { result ≡ set_of (customers instance.now) }
    // What is known of every instance.
    ensures problem { IsProblem instance.now }
{
    let mut set = CustomerSet::empty();
    for index in 0..instance.customers() {
        set = set.with(index + 1);
    }
    set
}

/// The routes of a plan as sets of customers, for the guide of a choice among routes. Stops that no set can hold are left out; no clause
/// pins the sets.
pub fn route_sets(alloc: Global, plan: &Plan) -> Result<Vec<CustomerSet>, NoMemory>
    ensures { IfOk result (λ sets. vec_len sets ≡ length plan.now.routes) }
{
    let mut sets = Vec::new(alloc);
    for index in 0..plan.routes() {
        let mut set = CustomerSet::empty();
        for &stop in plan.route(index) {
            if usize::from(stop) < PLACES {
                set = set.with(stop);
            }
        }
        sets.push(set)?;
    }
    Ok(sets)
}
