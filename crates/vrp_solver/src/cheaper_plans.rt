//! Cheaper plans after column generation: over the routes that it found, and by a population.
ghost use Rattle.std.specs.Prelude.{◌≤◌, IfOk};
ghost use Rattle.vrp_model.specs.Route.{IsPlanOf};

use crate::stage_watch::{StageWatch, crew_of};
use std::thread::Threads;
use vrp_answer::{Event, Gate, Shared, Stage};
use vrp_heuristic::{evolved_plan, recombined_plan};
use vrp_model::{NoMemory, Plan};

// With fewer customers the start plan is mostly the cheapest one.
const LEAST_CUSTOMERS: u16 = 90;

// The most reduced costs that a recombination looks at: about a second.
const MOST_LOOKS: u64 = 10_000_000;

// The moves of a population for each customer.
const MOVES_A_CUSTOMER: u64 = 4_000;

/// The plan, or a cheaper one: over routes, and by a population. With few customers it stays as it is. The gate hears of a cheaper plan. There
/// are 1 to 64 workers. The only error is lack of memory. The contract leaves open which feasible plan is answered.
pub(crate) fn cheaper_plan<R: Threads + Sync, G: Gate + Sync>(
    shared: &Shared<'_, R, G>,
    workers: u32,
    routes: &[Vec<u16>],
    plan: Plan,
) -> Result<Plan, NoMemory>
    requires some_worker { 1 ≤ workers }
    requires few_workers { workers ≤ 64 }
    requires plan { IsPlanOf shared.now.problem plan }
    ensures { IfOk result (IsPlanOf shared.now.problem) }
{
    let customers = shared.instance.customers();
    if customers < LEAST_CUSTOMERS {
        return Ok(plan);
    }
    let known = plan.cost();
    let watch = StageWatch::of_stage(shared, Stage::Columns);
    let crew = crew_of(shared, workers, &watch);
    let plan = recombined_plan(&crew, shared.instance, routes, plan, MOST_LOOKS)?;
    let moves = MOVES_A_CUSTOMER * u64::from(customers);
    let plan = evolved_plan(&crew, shared.instance, plan, moves)?;
    if plan.cost() < known {
        shared.gate.on_event(Event::Plan(plan.cost()));
    }
    Ok(plan)
}
