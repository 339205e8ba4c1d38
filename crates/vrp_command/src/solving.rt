//! The half of a run that reads and solves. It has no writer: nothing is written before the answer is known.
ghost use Rattle.std.specs.Option.{ForSome, option_map};
ghost use Rattle.std.specs.Prelude.{◌≡◌, ◌≢◌, ◌+◌, IfOk, IfErr};
ghost use Rattle.vrp_model.specs.Route.{IsPlanOf};
ghost use Rattle.vrp_command_request.specs.Options.{AreInRange};
ghost use Rattle.vrp_command.specs.Found.{IsFoundBy};
ghost use Rattle.vrp_command.specs.Inner.Ready.{IsReady, IsReadyAlone, IsReadyOn};
ghost use Rattle.vrp_command.specs.Inner.Told.{told_outcome};
ghost use Rattle.vrp_command.specs.Inner.Written.{OnFault};
ghost use Rattle.vrp_command.specs.Program.{OnRefusal, OnStartFault, RefusesStart, RefusesStartFile};
ghost use Rattle.vrp_command.specs.Run.{OnRefusedFile, RefusesInput};
ghost use Rattle.vrp_command_streams.specs.Input.{TakesAtMost};

use crate::fault::RequestError;
use crate::outcome::{RequestOutcome, find};
use crate::problem::{Problem, read_problem};
use crate::start::{StartFile, plan_of, start_plan};
use std::io::Read;
use std::sync::Wait;
use std::thread::Threads;
use vrp_command_request::{Format, Request};
use vrp_command_streams::RunError;
use vrp_plan_text::Solution;
use vrp_solver::{Gate, Resources};
use vrp_text::MAX_BYTES;

/// An answer that is ready to be written: the problem that was read, the start plan, and the result for them.
#[derive(Drop)]
pub(crate) struct ReadyAnswer {
    pub(crate) problem: Problem,
    /// The start plan, if there is one, with what its file states.
    pub(crate) start: Option<Solution>,
    pub(crate) outcome: RequestOutcome,
}

/// Reads the problem and the start plan of a request, and solves it, with a gate that hears of the run and may stop the search.
pub(crate) fn solve_request<T: Threads + Wait + Sync, S: Read + Drop, R: Read, G: Gate + Sync>(
    resources: &Resources<'_, T, G>,
    request: Request<'_>,
    start: Option<StartFile<S>>,
    input: &mut R,
) -> Result<ReadyAnswer, RequestError>
    requires { AreInRange request.options }
    ensures ready { IfOk result (IsReady request.entry (G.may_stop resources.now.gate.now)
        (λ file. S.remaining file) start (R.remaining input.old) (R.remaining input.new)) }
    ensures refused { IfErr result (λ error. OnRefusal error
        (RefusesInput request.entry.options.depot (R.remaining input.old) (R.remaining input.new))
        (RefusesStart request.entry (λ file. S.remaining file) start (R.remaining input.old) (R.remaining input.new))
        (request.entry.format ≡ Format.Picture)) }
    ensures asked { IfErr result (OnStartFault start) }
    ensures failed { IfErr result (λ error. error ≡ RequestError.Run RunError.Read → TakesAtMost MAX_BYTES
        (R.remaining input.old) (R.remaining input.new)) }
    ensures taken { TakesAtMost (MAX_BYTES + 1) (R.remaining input.old) (R.remaining input.new) }
    ensures unwritten { IfErr result (λ error. error ≢ RequestError.Run RunError.Write) }
{
    match read_problem(resources.alloc, request.options, request.format, input) {
        Ok(problem) => solve_problem(resources, problem, request, start),
        Err(fault) => {
            // By a call, here and below: an implicit drop goes field by field, and each of its steps must be proved.
            drop(start);
            Err(RequestError::Run(fault))
        }
    }
}

// Solves a request once the problem is read.
fn solve_problem<T: Threads + Wait + Sync, S: Read + Drop, G: Gate + Sync>(
    resources: &Resources<'_, T, G>,
    problem: Problem,
    request: Request<'_>,
    start: Option<StartFile<S>>,
) -> Result<ReadyAnswer, RequestError>
    requires { AreInRange request.options }
    ensures ready { IfOk result (IsReadyOn request.entry (G.may_stop resources.now.gate.now) problem
        (λ file. S.remaining file) start) }
    ensures refused { IfErr result (OnFault
        (RefusesStartFile problem.instance (λ file. S.remaining file) start)
        (request.entry.format ≡ Format.Picture)) }
    ensures asked { IfErr result (OnStartFault start) }
{
    if problem.lacks_points(request.format) {
        drop(problem);
        drop(start);
        return Err(RequestError::NoPoints);
    }
    match start_plan(resources.alloc, &problem.instance, start) {
        Ok(solution) => match solved_from(resources, problem, solution, request) {
            Ok(ready) => Ok(ready),
            Err(fault) => Err(RequestError::Run(fault)),
        },
        Err(error) => {
            drop(problem);
            Err(RequestError::Start(error))
        }
    }
}

/// Reads a problem, and solves it without a start plan.
pub(crate) fn solve_alone<T: Threads + Wait + Sync, R: Read, G: Gate + Sync>(
    resources: &Resources<'_, T, G>,
    request: Request<'_>,
    input: &mut R,
) -> Result<ReadyAnswer, RunError>
    requires { AreInRange request.options }
    ensures ready { IfOk result (IsReadyAlone request.entry (G.may_stop resources.now.gate.now)
        (R.remaining input.old) (R.remaining input.new)) }
    ensures refused { IfErr result (λ fault. OnRefusedFile fault (RefusesInput request.entry.options.depot
        (R.remaining input.old) (R.remaining input.new))) }
    ensures failed { IfErr result (λ fault. fault ≡ RunError.Read → TakesAtMost MAX_BYTES
        (R.remaining input.old) (R.remaining input.new)) }
    ensures taken { TakesAtMost (MAX_BYTES + 1) (R.remaining input.old) (R.remaining input.new) }
    ensures unwritten { IfErr result (λ fault. fault ≢ RunError.Write) }
{
    let problem = read_problem(resources.alloc, request.options, request.format, input)?;
    solved_from(resources, problem, None, request)
}

// The answer to a problem, with this start plan, if there is one.
fn solved_from<T: Threads + Wait + Sync, G: Gate + Sync>(
    resources: &Resources<'_, T, G>,
    problem: Problem,
    start: Option<Solution>,
    request: Request<'_>,
) -> Result<ReadyAnswer, RunError>
    requires options { AreInRange request.options }
    requires start { ForSome (option_map (λ solution. solution.plan) start) (IsPlanOf problem.instance) }
    ensures problem { IfOk result (λ ready. ready.problem ≡ problem) }
    ensures start { IfOk result (λ ready. ready.start ≡ start) }
    ensures found { IfOk result (λ ready. IsFoundBy request.entry (G.may_stop resources.now.gate.now) problem.instance
        (option_map (λ solution. solution.plan) start) (told_outcome request.entry.seconds ready.outcome)) }
    ensures plan { IfOk result (λ ready. ForSome (told_outcome request.entry.seconds ready.outcome).plan (IsPlanOf problem.instance)) }
    ensures faults { IfErr result (λ fault. fault ≡ RunError.OutOfMemory) }
{
    match find(
        resources,
        &problem.instance,
        plan_of(start.as_ref()),
        &request,
    ) {
        Ok(outcome) => Ok(ReadyAnswer {
            problem,
            start,
            outcome,
        }),
        Err(error) => {
            drop(problem);
            drop(start);
            Err(RunError::from(error))
        }
    }
}
