//! The start plan of a run: a near-optimal one.
ghost use Rattle.std.specs.Prelude.{◌≡◌, ◌<◌, ◌≤◌, None, IfOk, IfSome};
ghost use Rattle.vrp_model.specs.Route.{IsPlanOf};
ghost use Rattle.vrp_solver.specs.declared.look.TheConstants.{LEAST_PREPARED_BUDGET};

use crate::look::LEAST_PREPARED_BUDGET;
use crate::stage_watch::{StageWatch, crew_of};
use crate::stages::{MANY_CUSTOMERS, share_of};
use std::thread::Threads;
use vrp_answer::{Event, Gate, Shared, Stage};
use vrp_heuristic::{ENOUGH_MOVES, HeuristicPlan};
use vrp_model::NoMemory;

// From this many customers on a run makes more moves: each unit of cost above the best plan adds useful routes.
const MANY_FOR_MOVES: u16 = 50;

const MORE_MOVES: u32 = 3 * ENOUGH_MOVES;

// With a smaller budget in all, ruin and recreate would take longer than the search; then the plan comes from savings alone.
const WORTH_MOVES: u64 = 100_000;

/// A near-optimal plan, if one is found: by savings, and by all workers with ruin and recreate if the budget is worth it. With it come
/// routes of other good plans.
pub(crate) fn heuristic_plan<R: Threads + Sync, G: Gate + Sync>(
    shared: &Shared<'_, R, G>,
    workers: u32,
) -> Result<HeuristicPlan, NoMemory>
    requires some_worker { 1 ≤ workers }
    requires few_workers { workers ≤ 64 }
    ensures lawful { IfOk result (λ found. IfSome found.plan (IsPlanOf shared.now.problem)) }
    ensures look { shared.now.budget < LEAST_PREPARED_BUDGET → IfOk result (λ found. found.plan ≡ None) }
{
    if shared.budget < LEAST_PREPARED_BUDGET {
        return Ok(HeuristicPlan {
            plan: None,
            routes: Vec::new(shared.alloc),
        });
    }
    let moves = moves_for(shared);
    shared.gate.on_event(Event::Begins(Stage::StartPlan));
    let watch = StageWatch::of_stage(shared, Stage::StartPlan);
    let crew = crew_of(shared, workers, &watch);
    let found = vrp_heuristic::heuristic_plan(&crew, shared.instance, moves)?;
    if let Some(plan) = &found.plan {
        shared.gate.on_event(Event::Plan(plan.cost()));
    }
    Ok(found)
}

// The moves of ruin and recreate that the budget is worth.
fn moves_for<R, G: Gate>(shared: &Shared<'_, R, G>) -> u32 {
    let customers = shared.instance.customers();
    // With many customers and a time, all workers look for better plans later.
    let continues_later = customers >= MANY_CUSTOMERS && shared.gate.milliseconds_left().is_some();
    if share_of(Stage::StartPlan, customers, shared.budget).work_for(shared.budget_in_all())
        < WORTH_MOVES
    {
        0
    } else if customers < MANY_FOR_MOVES || continues_later {
        ENOUGH_MOVES
    } else {
        MORE_MOVES
    }
}
