//! Plans of an instance with two customers.
ghost use Rattle.std.specs.Prelude.{IfOk};
ghost use Rattle.vrp_model.specs.Route.{IsPlanOf};

use crate::fault::FixtureError;
use std::alloc::Global;
use vrp_model::{Instance, Plan};

/// The plan of one truck that serves this one of two customers first, and then the other. With symmetric weights only the
/// plan that runs forward is made.
pub fn joined(alloc: Global, instance: &Instance, first: u16) -> Result<Plan, FixtureError>
    ensures { IfOk result (IsPlanOf instance.now) }
{
    if instance.customers() != 2 || first < 1 || first > 2 {
        return Err(FixtureError::OutOfRange);
    }
    let second = 3 - first;
    if instance.demand(first) + instance.demand(second) > instance.capacity() {
        return Err(FixtureError::OutOfRange);
    }
    if first == 2 && instance.symmetric() {
        return Err(FixtureError::OutOfRange);
    }
    Ok(Plan::of_word(alloc, instance, &[first, second, 0])?)
}
