//! The least ng-tours that carry all demands together: one look at large tables, which are let go then.
ghost use Rattle.std.specs.Prelude.{◌≡◌, ◌<◌, IfOk, IfSome, MatchOption};
ghost use Rattle.vrp_model.specs.Problem.{IsProblem, customers as customers_of, place_count};
ghost use Rattle.vrp_model.specs.Route.{load_of};
ghost use Rattle.vrp_model.specs.Near.{near_in};
ghost use Rattle.vrp_bound.specs.NgWalks.{AreLeastNgTours, NoNgTours};
ghost use Rattle.vrp_bound.specs.Tables.{AreMadeWithin};

use crate::completion_table::Looks;
use crate::completions::CompletionCells;
use crate::scope::{Scope, are_made, demand_of_all};
use crate::tables::all_customers;
use crate::walks::MARK;
use std::alloc::Global;
use vrp_model::{Instance, NgSets, NoMemory};

/// What the least closed ng-walks of one truck each cost that carry together exactly what all customers demand. `None`: there are no
/// such walks, a customer has no demand, or it would take more than so many steps to fill the tables.
pub fn least_ng_tours(
    alloc: Global,
    instance: &Instance,
    ng_sets: &NgSets,
    most_steps: u64,
) -> Result<Option<u64>, NoMemory>
    requires places { ng_sets.now.places ≡ place_count instance.now }
    ensures least { IfOk result (λ least. MatchOption least
        (AreMadeWithin most_steps instance.now (customers_of instance.now) → NoNgTours instance.now ng_sets.entry.now)
        (AreLeastNgTours instance.now ng_sets.entry.now)) }
    // What is known of every instance.
    ensures problem { IfOk result (λ least. IfSome least (λ _. IsProblem instance.now)) }
    ensures small { IfOk result (λ least. IfSome least (λ cost. cost < 4000000000000000000)) }
{
    let customers = all_customers(alloc, instance)?;
    let scope = Scope::new(instance, &customers);
    if !are_made(scope, most_steps) {
        return Ok(None);
    }
    let cells = CompletionCells::fill(alloc, scope, Some(ng_sets), Looks::Few)?;
    let least = cells.least(scope, Some(ng_sets), 0, 0, demand_of_all(scope));
    if least < MARK {
        Ok(Some(least))
    } else {
        Ok(None)
    }
}
