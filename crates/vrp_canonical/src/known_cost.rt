//! The canonical plan where its cost is known: a feasible plan costs as much, and none costs less.
ghost use Rattle.std.specs.Prelude.{◌≡◌, ◌≤◌, IfOk, IfSome};
ghost use Rattle.vrp_canonical.specs.Ending.{IfBetter, IfBound, IfCanonical};
ghost use Rattle.vrp_canonical.specs.Whole.{IsWhole};
ghost use Rattle.vrp_model.specs.declared.customers.customer_set.TheConstants.{PLACES};
ghost use Rattle.vrp_model.specs.Cheapest.{NoneCheaper};
ghost use Rattle.vrp_model.specs.Order.{IsCanonical};
ghost use Rattle.vrp_model.specs.Problem.{place_count};
ghost use Rattle.vrp_model.specs.Route.{IsPlanOf};
ghost use Rattle.vrp_routes.specs.Pool.{IsPool};

use crate::canonical::{PoolSearch, RoutesOutcome, narrowing_of, plan_by_pass, whole_problem};
use crate::ordered::chosen_routes;
use std::thread::Threads;
use vrp_model::{Crew, Fleet, Instance, NoMemory, Plan, Watch};
use vrp_partition::{Guide, Route};
use vrp_routes::RoutePool;

/// The canonical plan of an instance, if this plan is as cheap as it: no plan costs less. `routes` are the plan's, as a choice sees them, and
/// only spare searches. The pool was listed for plans that cost no more. The pool is narrowed to the routes that may be in such a choice, and
/// the routes of the canonical plan are sought among them, one after another, as `canonical_plan` does. If the search ends unfinished, the
/// better plan is the given one.
pub(crate) fn canonical_plan_as_cheap<R: Threads + Sync, P: Guide + Send, W: Watch + Sync>(
    crew: &Crew<'_, R, W>,
    instance: &Instance,
    pool: &RoutePool,
    known: Plan,
    routes: &[Route],
    guide: &mut P,
    budget: &mut u64,
) -> Result<RoutesOutcome, NoMemory>
    requires few { place_count instance.now ≤ PLACES }
    requires pool { IsPool instance.now known.cost pool.now }
    requires plan { IsPlanOf instance.now known }
    requires least { NoneCheaper instance.now known.cost }
    ensures canonical { IfOk result (IfCanonical (IsCanonical instance.now)) }
    ensures better { IfOk result (IfBetter (IsPlanOf instance.now)) }
    ensures bound { IfOk result (IfBound (NoneCheaper instance.now)) }
    ensures budget { budget.new ≤ budget.old }
{
    let alloc = crew.alloc;
    let fleet = Fleet::of_instance(alloc, instance)?;
    let Some(seen) = chosen_routes(alloc, pool)? else {
        return not_found(known);
    };
    let search = PoolSearch {
        crew,
        instance,
        pool,
        routes: seen.as_slice(),
        fleet: &fleet,
        whole: whole_problem(instance, fleet.trucks, known.cost()),
    };
    let found = plan_that_costs(&search, &known, routes, guide, budget)?;
    match found {
        Some(plan) => Ok(RoutesOutcome::Canonical(plan)),
        None => not_found(known),
    }
}

// An unfinished outcome: a plan that is as cheap as the canonical one is known.
fn not_found(known: Plan) -> Result<RoutesOutcome, NoMemory>
    ensures canonical { IfOk result (IfCanonical (λ _. ⊥)) }
    ensures better { IfOk result (IfBetter (λ plan. plan ≡ known)) }
    ensures bound { IfOk result (IfBound (λ bound. bound ≡ known.cost)) }
{
    let lower_bound = known.cost();
    Ok(RoutesOutcome::Unfinished {
        better: Some(known),
        lower_bound,
    })
}

// The canonical plan, which costs what the search's routes may cost in all.
fn plan_that_costs<R: Threads + Sync, P: Guide + Send, W: Watch + Sync>(
    search: &PoolSearch<'_, '_, R, W>,
    known: &Plan,
    routes: &[Route],
    guide: &mut P,
    budget: &mut u64,
) -> Result<Option<Plan>, NoMemory>
    requires whole { IsWhole search.now.instance.now search.now.pool.now search.now.routes.now search.now.whole }
    requires plan { IsPlanOf search.now.instance.now known.now }
    requires cost { known.now.cost ≡ search.now.whole.most }
    requires least { NoneCheaper search.now.instance.now known.now.cost }
    ensures canonical { IfOk result (λ found. IfSome found (IsCanonical search.now.instance.now)) }
    ensures budget { budget.new ≤ budget.old }
{
    let whole = &search.whole;
    let narrowing = narrowing_of(search);
    let narrowed = narrowing.narrowed_routes(guide, search.pool, search.routes, whole, budget)?;
    match narrowed {
        Some(ordered) => plan_by_pass(search, guide, ordered, routes, whole, budget),
        None => Ok(None),
    }
}
