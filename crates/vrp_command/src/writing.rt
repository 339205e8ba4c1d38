//! The half of a run that writes. It solves nothing and waits for nothing: each of its calls returns.
ghost use Rattle.std.specs.Io.KnownBytes.{Keeps};
ghost use Rattle.std.specs.Option.{ForSome};
ghost use Rattle.std.specs.Prelude.{◌≡◌, ◌≢◌, ◌⊎◌, Bool, Option, IfOk, IfErr, OnOk};
ghost use Rattle.vrp_model.specs.Route.{IsPlanOf, PricedPlan};
ghost use Rattle.vrp_command.specs.Form.{WritesPart, WritesText};
ghost use Rattle.vrp_command.specs.Found.{IsFoundBy, WritesFound, WritesFoundPart};
ghost use Rattle.vrp_command.specs.Inner.Points.{HasPoints};
ghost use Rattle.vrp_command.specs.Inner.Ready.{context_for};
ghost use Rattle.vrp_command.specs.Inner.Told.{told_outcome};

use crate::form::{Form, form_of, print_finding};
use crate::solving::ReadyAnswer;
use crate::start::{stated_cost_of, tell_stated_cost};
use std::alloc::Global;
use std::io::Write;
use vrp_command_request::Request;
use vrp_command_streams::{RunError, Status};

/// Writes an answer in the form that its request asks for, and answers its verdict. On a fault other than `Write` nothing is
/// written; on `Write`, a beginning of the text is. `errors` gets the message that the start plan's file states a wrong cost.
pub(crate) fn write_answer<W: Write, E: Write>(
    alloc: Global,
    request: &Request<'_>,
    ready: &ReadyAnswer,
    output: &mut W,
    errors: &mut E,
) -> Result<Status, RunError>
    requires plan { ForSome (told_outcome request.now.seconds ready.now.outcome).plan (IsPlanOf ready.now.problem.instance) }
    requires points { HasPoints request.now.format ready.now.problem }
    ensures printed { (may_stop : Bool) (start : Option PricedPlan)
        → IsFoundBy request.now may_stop ready.now.problem.instance start (told_outcome request.now.seconds ready.now.outcome)
        → IfOk result (WritesFound request.now (context_for request.now ready.now) may_stop ready.now.problem.instance start
        (W.contents output.old) (W.contents output.new)) }
    ensures begun { (may_stop : Bool) (start : Option PricedPlan)
        → IsFoundBy request.now may_stop ready.now.problem.instance start (told_outcome request.now.seconds ready.now.outcome)
        → IfErr result (λ fault. fault ≡ RunError.Write
        → WritesFoundPart request.now (context_for request.now ready.now) may_stop ready.now.problem.instance start
        (W.contents output.old) (W.contents output.new)) }
    ensures silent { IfErr result (λ fault. fault ≢ RunError.Write → Keeps
        (W.contents output.old) (W.contents output.new)) }
    ensures faults { IfErr result (λ fault. (fault ≡ RunError.OutOfMemory) ⊎ (fault ≡ RunError.Write)) }
{
    tell_stated_cost(ready.start.as_ref(), errors);
    let form = form_of(request, &ready.problem);
    let stating = form.stating(stated_cost_of(ready.start.as_ref()));
    print_ready(alloc, request.seconds, ready, stating, output, errors)
}

/// Writes an answer in a form, and answers its verdict; with a time limit, with the best bound alone.
pub(crate) fn print_ready<W: Write, E: Write>(
    alloc: Global,
    seconds: Option<u32>,
    ready: &ReadyAnswer,
    form: Form<'_>,
    output: &mut W,
    errors: &mut E,
) -> Result<Status, RunError>
    requires { ForSome (told_outcome seconds ready.now.outcome).plan (IsPlanOf ready.now.problem.instance) }
    ensures status { IfOk result (λ status. status ≡ (told_outcome seconds ready.now.outcome).status) }
    ensures printed { OnOk result (WritesText form.entry ready.now.problem.instance (told_outcome seconds ready.now.outcome)
        (W.contents output.old) (W.contents output.new)) }
    ensures begun { IfErr result (λ fault. fault ≡ RunError.Write → WritesPart form.entry ready.now.problem.instance
        (told_outcome seconds ready.now.outcome) (W.contents output.old) (W.contents output.new)) }
    ensures silent { IfErr result (λ fault. fault ≢ RunError.Write → Keeps
        (W.contents output.old) (W.contents output.new)) }
    ensures faults { IfErr result (λ fault. (fault ≡ RunError.OutOfMemory) ⊎ (fault ≡ RunError.Write)) }
{
    let instance = &ready.problem.instance;
    let finding = ready.outcome.finding(seconds);
    print_finding(alloc, instance, &finding, form, output, errors)
}
