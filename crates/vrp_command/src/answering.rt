//! Answers a request: one half reads and solves, and has no writer; the other writes, and waits for nothing.
ghost use Rattle.std.specs.Io.KnownBytes.{Keeps};
ghost use Rattle.std.specs.Prelude.{◌≡◌, ◌≢◌, ◌+◌, IfOk, IfErr};
ghost use Rattle.vrp_command_request.specs.Options.{AreInRange};
ghost use Rattle.vrp_command.specs.Inner.Written.{IsWritten};
ghost use Rattle.vrp_command.specs.Program.{OnRefusal, OnStartFault, PrintsPartOfRequest, RefusesStart, may_stop_by};
ghost use Rattle.vrp_command.specs.Run.{RefusesInput};
ghost use Rattle.vrp_command_streams.specs.Input.{TakesAtMost};

use crate::deadline::Deadline;
use crate::fault::RequestError;
use crate::solving::{ReadyAnswer, solve_request};
use crate::start::StartFile;
use crate::writing::write_answer;
use std::io::{Eprint, Read, Write};
use std::sync::Wait;
use std::thread::Threads;
use std::time::Clock;
use vrp_command_request::{Format, Request};
use vrp_command_streams::{Progress, RunError, Status};
use vrp_solver::{Gate, Resources};
use vrp_text::MAX_BYTES;

/// An answer that was written.
#[derive(Drop)]
pub(crate) struct WrittenAnswer {
    pub(crate) status: Status,
    pub(crate) ready: ReadyAnswer,
}

/// Answers a request as `run_request` does, and keeps the answer.
pub(crate) fn answer_timed<
    T: Threads + Wait + Clock + Eprint + Sync,
    S: Read + Drop,
    R: Read,
    W: Write,
    E: Write,
    G: Gate + Sync,
>(
    resources: &Resources<'_, T, G>,
    request: Request<'_>,
    start: Option<StartFile<S>>,
    input: &mut R,
    output: &mut W,
    errors: &mut E,
) -> Result<WrittenAnswer, RequestError>
    requires { AreInRange request.options }
    ensures printed { IfOk result (IsWritten request.entry
        (may_stop_by request.entry.seconds (G.may_stop resources.now.gate.now))
        (λ file. S.remaining file) start (R.remaining input.old) (R.remaining input.new) (W.contents output.old) (W.contents output.new)) }
    ensures refused { IfErr result (λ error. OnRefusal error
        (RefusesInput request.entry.options.depot (R.remaining input.old) (R.remaining input.new))
        (RefusesStart request.entry (λ file. S.remaining file) start (R.remaining input.old) (R.remaining input.new))
        (request.entry.format ≡ Format.Picture)) }
    ensures asked { IfErr result (OnStartFault start) }
    ensures begun { IfErr result (λ error. error ≡ RequestError.Run RunError.Write →
        PrintsPartOfRequest request.entry (may_stop_by request.entry.seconds (G.may_stop resources.now.gate.now))
        (λ file. S.remaining file) start
        (R.remaining input.old) (R.remaining input.new) (W.contents output.old) (W.contents output.new)) }
    ensures failed { IfErr result (λ error. error ≡ RequestError.Run RunError.Read → TakesAtMost MAX_BYTES
        (R.remaining input.old) (R.remaining input.new)) }
    ensures taken { TakesAtMost (MAX_BYTES + 1) (R.remaining input.old) (R.remaining input.new) }
    ensures silent { IfErr result (λ error. error ≢ RequestError.Run RunError.Write → Keeps
        (W.contents output.old) (W.contents output.new)) }
{
    let rt = resources.rt;
    let deadline = Deadline::new(rt, request.seconds, resources.gate);
    let progress = Progress::new(rt, request.progress, &deadline);
    let told = Resources::new(rt, resources.alloc, &progress);
    let outcome = answer_request(&told, request, start, input, output, errors);
    progress.tell_end(status_in(&outcome), errors);
    outcome
}

// The verdict of a request, if it was answered.
fn status_in(outcome: &Result<WrittenAnswer, RequestError>) -> Option<Status> {
    match outcome {
        Ok(written) => Some(written.status),
        Err(_) => None,
    }
}

// Answers a request with a gate that hears of the run and may stop the search: it is solved, and then the answer is written.
fn answer_request<
    T: Threads + Wait + Sync,
    S: Read + Drop,
    R: Read,
    W: Write,
    E: Write,
    G: Gate + Sync,
>(
    resources: &Resources<'_, T, G>,
    request: Request<'_>,
    start: Option<StartFile<S>>,
    input: &mut R,
    output: &mut W,
    errors: &mut E,
) -> Result<WrittenAnswer, RequestError>
    requires { AreInRange request.options }
    ensures printed { IfOk result (IsWritten request.entry (G.may_stop resources.now.gate.now)
        (λ file. S.remaining file) start
        (R.remaining input.old) (R.remaining input.new) (W.contents output.old) (W.contents output.new)) }
    ensures refused { IfErr result (λ error. OnRefusal error
        (RefusesInput request.entry.options.depot (R.remaining input.old) (R.remaining input.new))
        (RefusesStart request.entry (λ file. S.remaining file) start (R.remaining input.old) (R.remaining input.new))
        (request.entry.format ≡ Format.Picture)) }
    ensures asked { IfErr result (OnStartFault start) }
    ensures begun { IfErr result (λ error. error ≡ RequestError.Run RunError.Write →
        PrintsPartOfRequest request.entry (G.may_stop resources.now.gate.now) (λ file. S.remaining file) start
        (R.remaining input.old) (R.remaining input.new) (W.contents output.old) (W.contents output.new)) }
    ensures failed { IfErr result (λ error. error ≡ RequestError.Run RunError.Read → TakesAtMost MAX_BYTES
        (R.remaining input.old) (R.remaining input.new)) }
    ensures taken { TakesAtMost (MAX_BYTES + 1) (R.remaining input.old) (R.remaining input.new) }
    ensures silent { IfErr result (λ error. error ≢ RequestError.Run RunError.Write → Keeps
        (W.contents output.old) (W.contents output.new)) }
{
    match solve_request(resources, request, start, input) {
        Ok(ready) => {
            let written = write_answer(resources.alloc, &request, &ready, output, errors);
            match written {
                Ok(status) => Ok(WrittenAnswer { status, ready }),
                Err(fault) => {
                    drop(ready);
                    Err(RequestError::Run(fault))
                }
            }
        }
        Err(error) => Err(error),
    }
}
