//! The output form of a finding.
ghost use Rattle.std.specs.Io.KnownBytes.{Keeps};
ghost use Rattle.std.specs.Option.{ForSome, option_map};
ghost use Rattle.std.specs.Prelude.{◌≡◌, ◌≢◌, ◌⊎◌, ℕ, Option, None, IfOk, IfErr, List, OnOk, string_bytes};
ghost use Rattle.vrp_answer.specs.Finding.{told_by};
ghost use Rattle.vrp_command.specs.Form.{IsFormIn, IsTextAs, WritesPart, WritesText};
ghost use Rattle.vrp_command.specs.Inner.Points.{HasPoints};
ghost use Rattle.vrp_command.specs.Text.{context_of, settings_of};
ghost use Rattle.vrp_plan_text.specs.Json.{context_by};
ghost use Rattle.vrp_model.specs.Route.{IsPlanOf};
ghost use Rattle.vrp_command_request.specs.declared.options.Request.{Request};

use crate::problem::{Beside, Problem};
use std::alloc::Global;
use std::io::Write;
use vrp_answer::Finding;
use vrp_command_request::{Format, Request, VERSION};
use vrp_command_streams::{RunError, Status, report_text, solution_text, write_report};
use vrp_model::{Instance, NoMemory};
use vrp_plan_text::{Context, Points, Settings, json_text, picture_text};

/// A form, and the data that it needs.
#[derive(Clone, Copy)]
pub(crate) enum Form<'a> {
    Report,
    Solution,
    Json(Context<'a>),
    Picture(&'a Points),
}

impl<'a> Form<'a> {
    /// The form with this stated cost of the start plan, or with none.
    pub(crate) fn stating(self, cost: Option<u64>) -> Form<'a>
        ensures { (request : Request) (name : Option (List ℕ))
            → IsFormIn request.format (context_of request name None) self.entry
            → IsFormIn request.format (context_of request name cost) result }
    {
        match self {
            Form::Json(context) => Form::Json(Context {
                stated_cost: cost,
                ..context
            }),
            other => other,
        }
    }
}

/// The form that a request asks for, for this problem. There is no stated cost yet.
pub(crate) fn form_of<'a>(request: &Request<'_>, problem: &'a Problem) -> Form<'a>
    requires { HasPoints request.now.format problem.now }
    ensures { IsFormIn request.now.format
        (context_of request.now (option_map string_bytes problem.now.beside.name) None) result }
{
    match (request.format, &problem.beside.points) {
        (Format::Report, _) => Form::Report,
        (Format::Solution, _) => Form::Solution,
        (Format::Json, _) => Form::Json(context(request, &problem.beside)),
        (Format::Picture, Some(points)) => Form::Picture(points),
        (Format::Picture, None) => unreachable!(),
    }
}

// The context of a finding, without a stated cost.
fn context<'a>(request: &Request<'_>, beside: &'a Beside) -> Context<'a>
    ensures { context_by result ≡ context_of request.now (option_map string_bytes beside.now.name) None }
{
    let name = match &beside.name {
        Some(name) => Some(name.as_str()),
        None => None,
    };
    Context {
        name,
        version: VERSION,
        stated_cost: None,
        asked: settings(request),
    }
}

// The options of the run, as they are printed.
fn settings(request: &Request<'_>) -> Settings
    ensures { result ≡ settings_of request.now }
{
    let budget = if request.states_budget {
        Some(request.options.budget)
    } else {
        None
    };
    Settings {
        workers: request.options.workers,
        pieces: request.options.pieces,
        budget,
        seconds: request.seconds,
        depot: request.options.depot,
        trucks: request.options.trucks,
    }
}

/// Prints a finding in a form, and answers its verdict. On a fault other than `Write` nothing is written; on `Write`, a
/// beginning of the text is. If a solution is requested and there is no plan, the text is empty and `errors` says so.
pub(crate) fn print_finding<W: Write, E: Write>(
    alloc: Global,
    instance: &Instance,
    finding: &Finding<'_>,
    form: Form<'_>,
    output: &mut W,
    errors: &mut E,
) -> Result<Status, RunError>
    requires { ForSome (option_map (λ plan. plan.now) finding.now.plan) (IsPlanOf instance.now) }
    ensures status { IfOk result (λ status. status ≡ finding.now.status) }
    ensures printed { OnOk result (WritesText form.entry instance.now (told_by finding.now)
        (W.contents output.old) (W.contents output.new)) }
    ensures begun { IfErr result (λ fault. fault ≡ RunError.Write → WritesPart form.entry instance.now
        (told_by finding.now) (W.contents output.old) (W.contents output.new)) }
    ensures silent { IfErr result (λ fault. fault ≢ RunError.Write → Keeps
        (W.contents output.old) (W.contents output.new)) }
    ensures faults { IfErr result (λ fault. (fault ≡ RunError.OutOfMemory) ⊎ (fault ≡ RunError.Write)) }
{
    let text = text_of(alloc, instance, finding, form)?;
    write_report(output, text.as_bytes())?;
    tell_missing_plan(finding, form, errors);
    Ok(finding.status)
}

// The text of a finding in a form.
fn text_of(
    alloc: Global,
    instance: &Instance,
    finding: &Finding<'_>,
    form: Form<'_>,
) -> Result<String, NoMemory>
    requires { ForSome (option_map (λ plan. plan.now) finding.now.plan) (IsPlanOf instance.now) }
    ensures { IfOk result (λ text. IsTextAs form.entry instance.now (told_by finding.now) (string_bytes text)) }
{
    // What it says of every instance is needed below.
    let _customers = instance.customers();
    match form {
        Form::Report => Ok(report_text(alloc, instance, finding)?),
        Form::Solution => Ok(solution_text(alloc, finding)?),
        Form::Json(context) => json_text(alloc, instance, finding, context),
        Form::Picture(points) => picture_text(alloc, instance, finding, points),
    }
}

// Writes to `errors` if a solution is requested and there is no plan. If that fails, nothing more is done.
fn tell_missing_plan<E: Write>(finding: &Finding<'_>, form: Form<'_>, errors: &mut E) {
    if let (Form::Solution, None) = (form, finding.plan) {
        let _ = writeln!(errors, "cvrp: no plan to print: {}", finding.status);
    }
}
