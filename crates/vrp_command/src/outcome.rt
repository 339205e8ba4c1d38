//! The result of a request for an instance.
ghost use Rattle.std.specs.Option.{ForSome, option_map};
ghost use Rattle.std.specs.Prelude.{◌≡◌, None, Some, IfOk, IsTrue, MatchOption};
ghost use Rattle.vrp_answer.specs.Finding.{told_by};
ghost use Rattle.vrp_model.specs.Route.{IsPlanOf};
ghost use Rattle.vrp_command_request.specs.Options.{AreInRange};
ghost use Rattle.vrp_command.specs.Found.{IsFoundBy, told_of};
ghost use Rattle.vrp_command.specs.Inner.Told.{told_outcome};

use crate::answer::cut_and_solve;
use std::sync::Wait;
use std::thread::Threads;
use vrp_answer::Finding;
use vrp_command_request::Request;
use vrp_model::{Instance, Plan};
use vrp_solver::{Gate, Resources, SolveError, Solved};

/// The result of a request for an instance.
#[derive(Drop)]
pub(crate) enum RequestOutcome {
    /// This start plan is feasible, and was only to be checked.
    Checked(Plan),
    /// The result of a search.
    Searched(Solved),
}

impl RequestOutcome {
    /// The finding to print; with a time limit, with the best bound alone.
    pub(crate) fn finding(&self, seconds: Option<u32>) -> Finding<'_>
        ensures { told_by result ≡ told_outcome seconds self.entry.now }
    {
        match self {
            RequestOutcome::Checked(plan) => Finding::lawful(plan),
            RequestOutcome::Searched(solved) => told(solved, seconds),
        }
    }
}

// The finding of a search's result; with a time limit, with the best bound alone.
fn told<'a>(solved: &'a Solved, seconds: Option<u32>) -> Finding<'a>
    ensures { told_by result ≡ told_of seconds solved.entry.now.answer solved.entry.now.lower_bound }
{
    let finding = Finding::of_solved(solved);
    match seconds {
        Some(_) => finding.by_best_bound(),
        None => finding,
    }
}

/// Finds the result of a request for an instance: that the start plan is feasible, if it is only to be checked, and otherwise
/// the result of a search that begins with it.
pub(crate) fn find<T: Threads + Wait + Sync, G: Gate + Sync>(
    resources: &Resources<'_, T, G>,
    instance: &Instance,
    start: Option<&Plan>,
    request: &Request<'_>,
) -> Result<RequestOutcome, SolveError>
    requires options { AreInRange request.now.options }
    requires start { ForSome (option_map (λ plan. plan.now) start) (IsPlanOf instance.now) }
    ensures found { IfOk result (λ outcome. IsFoundBy request.now (G.may_stop resources.now.gate.now) instance.now
        (option_map (λ plan. plan.now) start.entry) (told_outcome request.now.seconds outcome)) }
    ensures plan { IfOk result (λ outcome. ForSome (told_outcome request.now.seconds outcome).plan (IsPlanOf instance.now)) }
{
    match to_be_checked(request, start) {
        Some(plan) => Ok(RequestOutcome::Checked(plan.copy(resources.alloc)?)),
        None => {
            let solved = cut_and_solve(resources, instance, start, request.options)?;
            Ok(RequestOutcome::Searched(solved))
        }
    }
}

// The start plan, if it is only to be checked.
fn to_be_checked<'a>(request: &Request<'_>, start: Option<&'a Plan>) -> Option<&'a Plan>
    ensures { MatchOption result
        (IsTrue request.now.check → option_map (λ plan. plan.now) start.entry ≡ None)
        (λ plan. IsTrue request.now.check × (option_map (λ plan. plan.now) start.entry ≡ Some plan.now)) }
{
    if request.check { start } else { None }
}
