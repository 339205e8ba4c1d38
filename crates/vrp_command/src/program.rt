//! The program over the arguments of a command line and its streams.
ghost use Rattle.std.specs.Io.KnownBytes.{Keeps};
ghost use Rattle.std.specs.Prelude.{◌≡◌, ◌≤◌, ◌⊎◌, false, is_some};
ghost use Rattle.vrp_command.specs.Line.{AnswersLine, IsRefusing, IsTelling, PrintsLine, TellsHelp};
ghost use Rattle.vrp_command_request.specs.Arguments.{line_code};
ghost use Rattle.vrp_command_request.specs.Options.{AreInRange};

use crate::command::run_request;
use crate::fault::end;
use crate::hints::tell_hint;
use crate::kept::run_kept;
use crate::start::{StartFile, open_start};
use std::io::{Eprint, Read, Write};
use std::rt::Files;
use std::sync::Wait;
use std::thread::Threads;
use std::time::Clock;
use vrp_command_request::{LineFault, Request, argument_hint, line_status, parse_request};
use vrp_solver::{Gate, Resources};

/// Runs the program on the arguments of a command line, without the program's name, and answers the exit status: `parse_request`
/// and then `run_request`, or `end_without_run`. Requested hints follow, and for refused arguments they always do. The report,
/// the help and the version go to `output`; the reason for having no report goes to `errors`, and requested progress to the
/// system's standard error. The contract leaves open which arguments are refused, what the help says, and what a start plan's file has.
pub fn run_arguments<
    T: Threads + Wait + Clock + Eprint + Files + Sync,
    R: Read,
    W: Write,
    E: Write,
    G: Gate + Sync,
>(
    resources: &Resources<'_, T, G>,
    arguments: &[&str],
    input: &mut R,
    output: &mut W,
    errors: &mut E,
) -> u8
    ensures told { IsTelling result → PrintsLine arguments.now (G.may_stop resources.now.gate.now)
        (R.remaining input.old) (R.remaining input.new) (W.contents output.old) (W.contents output.new) result
        ⊎ TellsHelp arguments.now (R.remaining input.old) (R.remaining input.new) result }
    ensures silent { IsRefusing result → Keeps (W.contents output.old) (W.contents output.new) }
{
    let request = match parse_request(resources.alloc, arguments) {
        Ok(request) => request,
        Err(fault) => return refuse(arguments, &fault, output, errors),
    };
    if request.explain || request.strict {
        return run_kept(resources, request, input, output, errors);
    }
    run_opened(resources, request, input, output, errors)
}

// Runs a request, without hints, and answers the exit status.
fn run_opened<
    T: Threads + Wait + Clock + Eprint + Files + Sync,
    R: Read,
    W: Write,
    E: Write,
    G: Gate + Sync,
>(
    resources: &Resources<'_, T, G>,
    request: Request<'_>,
    input: &mut R,
    output: &mut W,
    errors: &mut E,
) -> u8
    requires range { AreInRange request.options }
    requires plain { request.strict ≡ false }
    ensures told { IsTelling result → AnswersLine request.entry (G.may_stop resources.now.gate.now)
        (R.remaining input.old) (R.remaining input.new) (W.contents output.old) (W.contents output.new) result }
    ensures silent { IsRefusing result → Keeps (W.contents output.old) (W.contents output.new) }
{
    let start = named_start(resources.rt, &request);
    let outcome = run_request(resources, request, start, input, output, errors);
    end(resources.alloc, &outcome, errors)
}

// The file of the start plan, if the request names one.
fn named_start<T: Files>(rt: &T, request: &Request<'_>) -> Option<StartFile<T::File>>
    ensures { is_some result ≡ is_some request.now.start }
{
    match request.start {
        Some(path) => Some(open_start(rt, path)),
        None => None,
    }
}

// Ends a run whose arguments give no options, with a hint on them.
fn refuse<W: Write, E: Write>(
    arguments: &[&str],
    fault: &LineFault,
    output: &mut W,
    errors: &mut E,
) -> u8
    ensures status { result ≡ line_code fault.now }
    ensures silent { 2 ≤ result → Keeps (W.contents output.old) (W.contents output.new) }
{
    let status = end_without_run(fault, output, errors);
    if let LineFault::Refused(_) = fault {
        tell_hint(argument_hint(arguments), errors);
    }
    status
}

/// The exit status if the arguments give no options, or if there are none. The help and the version go to `output`, and
/// everything else to `errors`. If writing fails, nothing more is done.
pub fn end_without_run<W: Write, E: Write>(fault: &LineFault, output: &mut W, errors: &mut E) -> u8
    ensures status { result ≡ line_code fault.now }
    ensures silent { 2 ≤ result → Keeps (W.contents output.old) (W.contents output.new) }
{
    let _ = match fault {
        LineFault::Help(text) => output.write_all(text.as_bytes()),
        LineFault::Refused(text) => errors.write_all(text.as_bytes()),
        LineFault::OutOfMemory => errors.write_all(b"cvrp: out of memory\n"),
    };
    line_status(fault)
}
