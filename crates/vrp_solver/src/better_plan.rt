//! Better plans, for most of the remaining time, if the routes gave no answer.
ghost use Rattle.std.specs.Prelude.{◌≤◌, IfOk, IfSome};
ghost use Rattle.vrp_model.specs.Route.{IsPlanOf};

use crate::look::LEAST_PREPARED_BUDGET;
use crate::stage_watch::{StageWatch, crew_of};
use std::thread::Threads;
use vrp_answer::{Event, Gate, Shared, Stage};
use vrp_heuristic::improved_plan;
use vrp_model::{NoMemory, Plan};

/// A better plan than the known one, by all workers, or that one again. `None` if no plan is known, the gate has no time, or
/// the budget is below 1,000.
pub(crate) fn better_plan<R: Threads + Sync, G: Gate + Sync>(
    shared: &Shared<'_, R, G>,
    workers: u32,
) -> Result<Option<Plan>, NoMemory>
    requires some_worker { 1 ≤ workers }
    requires few_workers { workers ≤ 64 }
    ensures { IfOk result (λ plan. IfSome plan (IsPlanOf shared.now.problem)) }
{
    let Some(known) = shared.start_plan else {
        return Ok(None);
    };
    if shared.gate.milliseconds_left().is_none() || shared.budget < LEAST_PREPARED_BUDGET {
        return Ok(None);
    }
    shared.gate.on_event(Event::Begins(Stage::BetterPlans));
    let watch = StageWatch::of_stage(shared, Stage::BetterPlans);
    let better = improved_plan(&crew_of(shared, workers, &watch), shared.instance, known)?;
    shared.gate.on_event(Event::Plan(better.cost()));
    Ok(Some(better))
}
