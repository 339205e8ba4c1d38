//! A run that keeps its input: afterwards it writes hints and compares a stated cost with the true one.
ghost use Rattle.std.specs.Io.KnownBytes.{Keeps};
ghost use Rattle.std.specs.Prelude.{◌≡◌, IfOk, is_some};
ghost use Rattle.vrp_command_request.specs.Options.{AreInRange};
ghost use Rattle.vrp_command.specs.Inner.Written.{status_after};
ghost use Rattle.vrp_command.specs.Line.{AnswersLine, IsRefusing, IsTelling};
ghost use Rattle.vrp_command_streams.specs.Input.{IsInput};

use crate::answering::{WrittenAnswer, answer_timed};
use crate::fault::{RequestError, end};
use crate::hints::{tell_answer, tell_refusal};
use crate::start::{StartError, StartFile};
use crate::strict::cost_status;
use std::alloc::Global;
use std::fs;
use std::io::{self, Eprint, Read, Write};
use std::rt::Files;
use std::sync::Wait;
use std::thread::Threads;
use std::time::Clock;
use vrp_command_request::Request;
use vrp_command_streams::{RunError, Status, exit_status, read_input};
use vrp_solver::{Gate, Resources};

/// The input of a run.
#[derive(Drop)]
pub(crate) struct Kept {
    pub(crate) input: Vec<u8>,
    /// The start plan's file, if there is one.
    pub(crate) start: Option<StartText>,
}

/// The start plan's file.
#[derive(Drop)]
pub(crate) enum StartText {
    Read(Vec<u8>),
    /// It can't be opened, for this reason given by the system.
    Unopened(io::Error),
    /// It can't be read.
    Unread,
}

impl Kept {
    // Reads all input of a request.
    fn read<T: Files, R: Read>(
        rt: &T,
        alloc: Global,
        request: &Request<'_>,
        input: &mut R,
    ) -> Result<Kept, RequestError>
        ensures input { IfOk result (λ kept. IsInput (R.remaining input.old) (R.remaining input.new) kept.input.items) }
        ensures start { IfOk result (λ kept. is_some kept.start ≡ is_some request.now.start) }
    {
        let input = match read_input(alloc, input) {
            Ok(input) => input,
            Err(fault) => return Err(RequestError::Run(fault)),
        };
        let start = match request.start {
            Some(path) => Some(read_start(rt, alloc, path)?),
            None => None,
        };
        Ok(Kept { input, start })
    }

    // The text of the start plan's file; empty if there is none.
    fn start_text(&self) -> &[u8] {
        match &self.start {
            Some(StartText::Read(text)) => text.as_slice(),
            _ => &[],
        }
    }

    // The start plan's file, to be read again.
    fn start_file(&self) -> Option<StartFile<&[u8]>>
        ensures { is_some result ≡ is_some self.now.start }
    {
        match &self.start {
            Some(StartText::Read(text)) => Some(StartFile::Opened(text.as_slice())),
            Some(_) => Some(StartFile::Unopened),
            None => None,
        }
    }
}

// The start plan's file at this path.
fn read_start<T: Files>(rt: &T, alloc: Global, path: &str) -> Result<StartText, RequestError> {
    let mut file = match fs::open(rt, path) {
        Ok(file) => file,
        Err(reason) => return Ok(StartText::Unopened(reason)),
    };
    match read_input(alloc, &mut file) {
        Ok(text) => Ok(StartText::Read(text)),
        Err(RunError::OutOfMemory) => Err(RequestError::Start(StartError::OutOfMemory)),
        Err(_) => Ok(StartText::Unread),
    }
}

/// Answers a request as `run_request` does, and answers the exit status. Then it writes hints, if they are requested, and
/// checks the stated cost. What was printed keeps its status, whatever comes after it.
pub(crate) fn run_kept<
    T: Threads + Wait + Clock + Eprint + Files + Sync,
    R: Read,
    W: Write,
    E: Write,
    G: Gate + Sync,
>(
    resources: &Resources<'_, T, G>,
    request: Request<'_>,
    input: &mut R,
    output: &mut W,
    errors: &mut E,
) -> u8
    requires { AreInRange request.options }
    ensures told { IsTelling result → AnswersLine request.entry (G.may_stop resources.now.gate.now)
        (R.remaining input.old) (R.remaining input.new) (W.contents output.old) (W.contents output.new) result }
    ensures silent { IsRefusing result → Keeps (W.contents output.old) (W.contents output.new) }
{
    let alloc = resources.alloc;
    let kept = match Kept::read(resources.rt, alloc, &request, input) {
        Ok(kept) => kept,
        Err(error) => return end(alloc, &Err(error), errors),
    };
    let outcome = answer_timed(
        resources,
        request,
        kept.start_file(),
        &mut kept.input.as_slice(),
        output,
        errors,
    );
    match outcome {
        Ok(written) => end_answered(&request, &kept, &written, errors),
        Err(error) => {
            let status = end(alloc, &Err(error), errors);
            if request.explain {
                tell_refusal(&request, &kept, &error, errors);
            }
            status
        }
    }
}

// The exit status of an answered request: that of its verdict, whatever comes after it, unless a wrong stated cost is to change it.
fn end_answered<E: Write>(
    request: &Request<'_>,
    kept: &Kept,
    written: &WrittenAnswer,
    errors: &mut E,
) -> u8
    ensures { result ≡ status_after request.now written.now }
{
    if request.explain {
        let instance = &written.ready.problem.instance;
        tell_answer(request, kept, instance, written.status, errors);
    }
    match &written.ready.start {
        Some(solution) if request.strict && written.status == Status::Lawful => {
            cost_status(solution, kept.start_text(), errors)
        }
        _ => exit_status(&Ok(written.status)),
    }
}
