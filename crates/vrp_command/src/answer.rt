//! The answer to an instance: cuts it into pieces, which several workers search.
ghost use Rattle.std.specs.Prelude.{◌≤◌, IfOk};
ghost use Rattle.std.specs.Option.{ForSome, option_map};
ghost use Rattle.vrp_model.specs.Route.{IsPlanOf};
ghost use Rattle.vrp_model.specs.Cheapest.{NoneCheaper, cost_of};
ghost use Rattle.vrp_answer.specs.Answer.{known_plan};
ghost use Rattle.vrp_command.specs.Answer.{IsAnswerTo};
ghost use Rattle.vrp_command_request.specs.Options.{AreInRange};

use std::sync::Wait;
use std::thread::Threads;
use vrp_command_request::Options;
use vrp_model::{Instance, Plan};
use vrp_search_tree::Cutting;
use vrp_solver::{Gate, Resources, SolveError, Solved, solve_from};

/// Cuts the tree of an instance into at least as many pieces as the options say, and searches them with the options' budget
/// and workers, beginning with a plan, if one is given.
pub(crate) fn cut_and_solve<T: Threads + Wait + Sync, G: Gate + Sync>(
    resources: &Resources<'_, T, G>,
    instance: &Instance,
    start: Option<&Plan>,
    options: Options,
) -> Result<Solved, SolveError>
    requires start { ForSome (option_map (λ plan. plan.now) start) (IsPlanOf instance.now) }
    requires options { AreInRange options }
    ensures answer { IfOk result (λ solved.
        IsAnswerTo instance.now options.pieces options.budget (G.may_stop resources.now.gate.now) solved.answer) }
    ensures no_costlier { IfOk result (λ solved. cost_of (known_plan solved.answer)
        ≤ cost_of (option_map (λ plan. plan.now) start.entry)) }
    ensures bound { IfOk result (λ solved. NoneCheaper instance.now solved.lower_bound) }
{
    let mut cutting = Cutting::whole(resources.alloc, instance)?;
    cutting.at_least(resources.alloc, instance, options.pieces)?;
    solve_from(
        resources.rt,
        resources.alloc,
        instance,
        start,
        cutting,
        options.workers,
        options.budget,
        resources.gate,
    )
}
