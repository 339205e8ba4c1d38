//! Writes hints on standard error: more about a fault or an answer, after all other output.
ghost use Rattle.std.specs.Prelude.{◌≡◌};
ghost use Rattle.vrp_model.specs.Problem.{node_of};

use crate::fault::RequestError;
use crate::kept::{Kept, StartText};
use crate::start::StartError;
use std::fmt::Display;
use std::io::Write;
use vrp_command_request::Request;
use vrp_command_streams::{RunError, Status, depot_hint, file_hint, no_plan_hint, start_hint};
use vrp_model::Instance;
use vrp_solver::LEAST_PREPARED_BUDGET;

/// Writes a hint, if there is one, on its own line. If that fails, nothing more is done.
pub(crate) fn tell_hint<H: Display + Drop, E: Write>(hint: Option<H>, errors: &mut E) {
    if let Some(hint) = hint {
        let _ = writeln!(errors, "cvrp: hint: {hint}");
    }
}

/// Writes the hint on a refusal, if there is one.
pub(crate) fn tell_refusal<E: Write>(
    request: &Request<'_>,
    kept: &Kept,
    error: &RequestError,
    errors: &mut E,
) {
    match error {
        RequestError::Run(RunError::Text(refusal)) => {
            tell_hint(file_hint(&kept.input, refusal), errors);
        }
        RequestError::Start(error) => tell_start(request, kept, error, errors),
        _ => {}
    }
}

// Writes the hint on a start plan, if there is one.
fn tell_start<E: Write>(request: &Request<'_>, kept: &Kept, error: &StartError, errors: &mut E) {
    let path = request.start.unwrap_or("");
    match (error, &kept.start) {
        (StartError::Refused(_), Some(StartText::Read(text))) => {
            tell_hint(start_hint(&kept.input, text), errors);
        }
        (StartError::Read, Some(StartText::Unopened(reason))) => {
            let _ = writeln!(errors, "cvrp: hint: {path}: {reason}");
        }
        (StartError::Read, _) => {
            let _ = writeln!(errors, "cvrp: hint: {path} is opened, and can't be read");
        }
        _ => {}
    }
}

/// Writes the hints on the answer to an instance.
pub(crate) fn tell_answer<E: Write>(
    request: &Request<'_>,
    kept: &Kept,
    instance: &Instance,
    status: Status,
    errors: &mut E,
) {
    match status {
        Status::NoPlan => tell_hint(no_plan_hint(instance), errors),
        Status::Open => tell_open(request, errors),
        _ => {}
    }
    if request.options.depot.is_none() {
        tell_hint(depot_hint(&kept.input, depot_of(instance)), errors);
    }
}

// Writes how to continue a search that was left open, unless it had a time limit.
fn tell_open<E: Write>(request: &Request<'_>, errors: &mut E) {
    if request.seconds.is_some() {
        return;
    }
    let hint = if request.options.budget < LEAST_PREPARED_BUDGET {
        "a budget below 1000 leaves out the first plan, prices and useful routes: without --budget they are there"
    } else {
        "the budget is spent: --seconds S goes on for as long, and --workers W shares the work"
    };
    let _ = writeln!(errors, "cvrp: hint: {hint}");
}

// The node of the depot.
fn depot_of(instance: &Instance) -> u16
    ensures { result ≡ node_of instance.now 0 }
{
    // This call shows that each instance has a place, which is its depot.
    let _customers = instance.customers();
    instance.node(0)
}
