//! The search of an instance by several workers.
ghost use Rattle.std.specs.Prelude.{◌≡◌, ◌*◌, ◌≤◌, IfOk, IfSome, length};
ghost use Rattle.std.specs.Option.{ForSome, option_map};
ghost use Rattle.vrp_model.specs.Cheapest.{NoneCheaper, cost_of};
ghost use Rattle.vrp_model.specs.Problem.{place_count};
ghost use Rattle.vrp_model.specs.Route.{IsPlanOf};
ghost use Rattle.vrp_search_tree.specs.Cutting.{IsCutting};
ghost use Rattle.vrp_search_tree.specs.declared.cutting.TheConstants.{MAX_REFINED};
ghost use Rattle.vrp_solver.specs.Inner.Solving.{IsSolved};
ghost use Rattle.vrp_answer.specs.Answer.{IsAnswer, known_plan};
ghost use Rattle.vrp_solver.specs.Inner.Pieces.{CanSolve, IsAnswered};
ghost use Rattle.vrp_solver.specs.declared.pieces.TheConstants.{MAX_WORKERS};

use crate::ascent_bound::bound_by_ascent;
use crate::better_plan::better_plan;
use crate::columns::plan_by_columns;
use crate::look::looked_at;
use crate::pieces::{answer_by_pieces, report_plan};
use crate::start_plan::heuristic_plan;
use std::alloc::Global;
use std::sync::Wait;
use std::thread::Threads;
use vrp_answer::{Answer, Gate, Resources, Shared, SolveError, Solved};
use vrp_bound::Tables;
use vrp_canonical::RoutesOutcome;
use vrp_model::{Instance, NoMemory, Plan};
use vrp_search_tree::Cutting;

/// Searches all pieces of a cutting, each with this budget, by this many workers: `solve_from` without a start plan.
pub fn solve<'a, R: Threads + Wait + Sync, G: Gate + Sync>(
    rt: &'a R,
    alloc: Global,
    instance: &'a Instance,
    cutting: Cutting,
    workers: u32,
    budget: u64,
    gate: &'a G,
) -> Result<Answer, SolveError>
    requires cutting { IsCutting instance.now cutting }
    requires few { length cutting ≤ 2 * MAX_REFINED }
    requires some_worker { 1 ≤ workers }
    requires few_workers { workers ≤ MAX_WORKERS }
    requires budget { 1 ≤ budget }
    ensures { IfOk result (IsAnswer instance.now cutting budget (G.may_stop gate.now)) }
{
    let solved = solve_from(rt, alloc, instance, None, cutting, workers, budget, gate)?;
    Ok(solved.answer)
}

/// Searches all pieces of a cutting, each with this budget, by this many workers, each in a thread of its own if one can be made.
/// They draw the pieces from one pile and offer their plans to one register, which opens with the plan of one truck for each
/// customer, if there are that many trucks. The search bounds by tables over all customers. At the end an unfinished piece may be
/// bounded once more, by tables over its unserved customers; if each plan under it then costs more than the best one, it counts as
/// finished. A gate hears before each piece, and of each event, and is asked now and then whether to go on. The cutting is consumed.
///
/// Budgets below 1,000 skip the following steps. First one worker looks at the whole tree, at no more than 20,000 partial plans and
/// no more than the budget; if that suffices, nothing else is done, and the gate hears only of the plan. Otherwise a heuristic plan is
/// sought: by savings, and also by ruin and recreate if there are at most 255 customers, or all pieces together may look at 100,000
/// partial plans or more. With at most 255 customers a budget below the default one is saved on the pieces alone.
///
/// With a plan and at most 255 customers, dual prices are found by column generation, the routes that may be in the canonical plan are
/// listed by them, and that plan is chosen among these. If this ends, nothing else is done. If it meets a limit, the pieces begin with the
/// better plan that the choice found, if any. Where column generation gave no lower bound, or there are more customers, ascent finds one. If
/// the gate has a time, better plans are sought before the pieces, for most of the remaining time.
///
/// Before the pieces are searched, the start plan is offered, if one is given, or the heuristic plan if that is before it. The
/// answer's plan costs no more than the start plan. No feasible plan costs less than the lower bound, which comes of column
/// generation and the choice among routes, or else of ascent.
pub fn solve_from<'a, R: Threads + Wait + Sync, G: Gate + Sync>(
    rt: &'a R,
    alloc: Global,
    instance: &'a Instance,
    start: Option<&'a Plan>,
    cutting: Cutting,
    workers: u32,
    budget: u64,
    gate: &'a G,
) -> Result<Solved, SolveError>
    requires start { ForSome (option_map (λ plan. plan.now) start) (IsPlanOf instance.now) }
    requires cutting { IsCutting instance.now cutting }
    requires few { length cutting ≤ 2 * MAX_REFINED }
    requires some_worker { 1 ≤ workers }
    requires few_workers { workers ≤ MAX_WORKERS }
    requires budget { 1 ≤ budget }
    ensures answer { IfOk result (λ solved. IsAnswer instance.now cutting budget (G.may_stop gate.now) solved.answer) }
    ensures no_costlier { IfOk result (λ solved. cost_of (known_plan solved.answer)
        ≤ cost_of (option_map (λ plan. plan.now) start.entry)) }
    ensures bound { IfOk result (λ solved. NoneCheaper instance.now solved.lower_bound) }
{
    let tables = Tables::over_all(alloc, instance)?;
    let pieces = cutting.pieces().len() as u32;
    let resources = Resources::new(rt, alloc, gate);
    let shared = Shared::new(&resources, instance, &tables, start, pieces, budget);
    let solved = solve_shared(&shared, cutting, workers);
    // Dropped by a call, here and below: an implicit drop happens on each way out, and each of these would be proved.
    drop(tables);
    Ok(solved?)
}

// Answers by a look at the whole tree if that is enough, else with a heuristic plan.
fn solve_shared<R: Threads + Wait + Sync, G: Gate + Sync>(
    shared: &Shared<'_, R, G>,
    cutting: Cutting,
    workers: u32,
) -> Result<Solved, NoMemory>
    requires { CanSolve shared.now cutting workers }
    ensures { IfOk result (IsSolved shared.now cutting) }
{
    report_plan(shared.gate, shared.start_plan);
    if let Some(answer) = looked_at(shared)? {
        report_plan(shared.gate, answer.plan());
        return Ok(Solved {
            answer,
            lower_bound: 0,
        });
    }
    let made = heuristic_plan(shared, workers)?;
    let begun = shared.with_plan(made.plan.as_ref());
    let solved = solve_by_columns(&begun, &made.routes, cutting, workers);
    drop(made);
    Ok(solved?)
}

// Answers by column generation if that finds the canonical plan, else by the pieces.
fn solve_by_columns<R: Threads + Wait + Sync, G: Gate + Sync>(
    shared: &Shared<'_, R, G>,
    routes: &[Vec<u16>],
    cutting: Cutting,
    workers: u32,
) -> Result<Solved, NoMemory>
    requires { CanSolve shared.now cutting workers }
    ensures { IfOk result (IsSolved shared.now cutting) }
{
    match plan_by_columns(shared, routes, workers)? {
        RoutesOutcome::Canonical(plan) => {
            report_plan(shared.gate, Some(&plan));
            Ok(Solved {
                answer: Answer::Proven(plan),
                lower_bound: 0,
            })
        }
        RoutesOutcome::Unfinished {
            better,
            lower_bound,
        } => solve_after_columns(shared, better, lower_bound, cutting, workers),
    }
}

// Answers by the pieces, beginning with a better plan, if there is one, where no plan costs less than a lower bound. If that is 0, ascent
// finds one.
fn solve_after_columns<R: Threads + Wait + Sync, G: Gate + Sync>(
    shared: &Shared<'_, R, G>,
    better: Option<Plan>,
    lower_bound: u64,
    cutting: Cutting,
    workers: u32,
) -> Result<Solved, NoMemory>
    requires better { IfSome better (IsPlanOf shared.now.problem) }
    requires bound { NoneCheaper shared.now.problem lower_bound }
    requires can { CanSolve shared.now cutting workers }
    ensures { IfOk result (IsSolved shared.now cutting) }
{
    let begun = shared.with_plan(better.as_ref());
    let solved = solve_with_bound(&begun, lower_bound, cutting, workers);
    drop(better);
    Ok(solved?)
}

// Answers by the pieces, where no plan costs less than a lower bound. If that is 0, ascent finds one.
fn solve_with_bound<R: Threads + Wait + Sync, G: Gate + Sync>(
    shared: &Shared<'_, R, G>,
    lower_bound: u64,
    cutting: Cutting,
    workers: u32,
) -> Result<Solved, NoMemory>
    requires bound { NoneCheaper shared.now.problem lower_bound }
    requires can { CanSolve shared.now cutting workers }
    ensures { IfOk result (IsSolved shared.now cutting) }
{
    let lower_bound = if lower_bound == 0 {
        bound_by_ascent(shared)?
    } else {
        lower_bound
    };
    Ok(Solved {
        answer: solve_pieces(shared, cutting, workers)?,
        lower_bound,
    })
}

// Searches all pieces of a cutting by this many workers. If a time is set, they look for better plans first.
fn solve_pieces<R: Threads + Wait + Sync, G: Gate + Sync>(
    shared: &Shared<'_, R, G>,
    cutting: Cutting,
    workers: u32,
) -> Result<Answer, NoMemory>
    requires { CanSolve shared.now cutting workers }
    ensures { IfOk result (IsAnswered shared.now cutting) }
{
    let better = better_plan(shared, workers)?;
    let begun = shared.with_plan(better.as_ref());
    let answer = answer_by_pieces(&begun, cutting, workers);
    drop(better);
    answer
}
