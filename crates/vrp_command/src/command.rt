//! A run: from the bytes of a file to the bytes of a report, or of an answer in another form.
ghost use Rattle.std.specs.Prelude.{◌≡◌, ◌≢◌, ◌+◌, false, IfOk, IfErr};
ghost use Rattle.std.specs.Io.KnownBytes.{Keeps};
ghost use Rattle.vrp_command_request.specs.Options.{AreInRange};
ghost use Rattle.vrp_command.specs.Program.{OnRefusal, OnStartFault, PrintsRequest, PrintsPartOfRequest, RefusesStart, may_stop_by};
ghost use Rattle.vrp_command.specs.Run.{PrintsAnswer, PrintsPart, RefusesInput, OnRefusedFile};
ghost use Rattle.vrp_command_streams.specs.Input.{TakesAtMost};

use crate::answering::answer_timed;
use crate::fault::RequestError;
use crate::form::Form;
use crate::solving::solve_alone;
use crate::start::StartFile;
use crate::writing::print_ready;
use std::alloc::Global;
use std::io::{self, Eprint, Read, Write};
use std::sync::Wait;
use std::thread::Threads;
use std::time::Clock;
use vrp_command_request::{Format, Options, Request};
use vrp_command_streams::{RunError, Status};
use vrp_solver::{Gate, NoGate, Resources};
use vrp_text::MAX_BYTES;

/// Reads a CVRP file, and writes the report of a feasible plan for the problem that it means, with the chosen node as its
/// depot and the trucks of the options. If the status is `Proven`, it is a cheapest plan; if it is `NoPlan`, there is no
/// plan. Reading ends at the end of the input, or after one byte more than a file may have. On a fault other than `Write`
/// nothing is written; on `Write`, a beginning of the report is.
pub fn run<T: Threads + Wait + Sync, R: Read, W: Write>(
    rt: &T,
    alloc: Global,
    options: Options,
    input: &mut R,
    output: &mut W,
) -> Result<Status, RunError>
    requires { AreInRange options }
    ensures printed { IfOk result (PrintsAnswer options false
        (R.remaining input.old) (R.remaining input.new) (W.contents output.old) (W.contents output.new)) }
    ensures refused { IfErr result (λ fault. OnRefusedFile fault (RefusesInput options.depot
        (R.remaining input.old) (R.remaining input.new))) }
    ensures begun { IfErr result (λ fault. fault ≡ RunError.Write → PrintsPart options false
        (R.remaining input.old) (R.remaining input.new) (W.contents output.old) (W.contents output.new)) }
    ensures failed { IfErr result (λ fault. fault ≡ RunError.Read → TakesAtMost MAX_BYTES
        (R.remaining input.old) (R.remaining input.new)) }
    ensures taken { TakesAtMost (MAX_BYTES + 1) (R.remaining input.old) (R.remaining input.new) }
    ensures silent { IfErr result (λ fault. fault ≢ RunError.Write → Keeps
        (W.contents output.old) (W.contents output.new)) }
{
    let resources = Resources::new(rt, alloc, &NoGate);
    let ready = solve_alone(&resources, Request::report(options), input)?;
    // Only a report is printed, so `errors` gets nothing.
    let printed = print_ready(alloc, None, &ready, Form::Report, output, &mut io::sink());
    drop(ready);
    printed
}

/// Answers a request: reads a CVRP file, and a start plan from a second file, if there is one. Then it writes, in the
/// requested form, its finding for the problem: that the start plan is feasible, if it is only to be checked, and otherwise
/// an answer whose plan costs no more. It reads and writes as `run` does. A limit of seconds stops the search, and so may the
/// gate, which hears of each piece first.
///
/// `errors` gets the message that the second file states a wrong cost, the message that there is no plan to print as a
/// solution, and the last line of progress; the system's standard error gets the earlier lines. The contract leaves their
/// texts open.
pub fn run_request<
    T: Threads + Wait + Clock + Eprint + Sync,
    S: Read + Drop,
    R: Read,
    W: Write,
    E: Write,
    G: Gate + Sync,
>(
    resources: &Resources<'_, T, G>,
    request: Request<'_>,
    start: Option<StartFile<S>>,
    input: &mut R,
    output: &mut W,
    errors: &mut E,
) -> Result<Status, RequestError>
    requires { AreInRange request.options }
    ensures printed { IfOk result (PrintsRequest request.entry
        (may_stop_by request.entry.seconds (G.may_stop resources.now.gate.now))
        (λ file. S.remaining file) start (R.remaining input.old) (R.remaining input.new) (W.contents output.old) (W.contents output.new)) }
    ensures refused { IfErr result (λ error. OnRefusal error
        (RefusesInput request.entry.options.depot (R.remaining input.old) (R.remaining input.new))
        (RefusesStart request.entry (λ file. S.remaining file) start (R.remaining input.old) (R.remaining input.new))
        (request.entry.format ≡ Format.Picture)) }
    ensures asked { IfErr result (OnStartFault start) }
    ensures begun { IfErr result (λ error. error ≡ RequestError.Run RunError.Write →
        PrintsPartOfRequest request.entry (may_stop_by request.entry.seconds (G.may_stop resources.now.gate.now))
        (λ file. S.remaining file) start
        (R.remaining input.old) (R.remaining input.new) (W.contents output.old) (W.contents output.new)) }
    ensures failed { IfErr result (λ error. error ≡ RequestError.Run RunError.Read → TakesAtMost MAX_BYTES
        (R.remaining input.old) (R.remaining input.new)) }
    ensures taken { TakesAtMost (MAX_BYTES + 1) (R.remaining input.old) (R.remaining input.new) }
    ensures silent { IfErr result (λ error. error ≢ RequestError.Run RunError.Write → Keeps
        (W.contents output.old) (W.contents output.new)) }
{
    match answer_timed(resources, request, start, input, output, errors) {
        Ok(written) => {
            let status = written.status;
            drop(written);
            Ok(status)
        }
        Err(error) => Err(error),
    }
}
