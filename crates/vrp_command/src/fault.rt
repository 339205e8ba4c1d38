//! Why a request has no answer, and the exit status of its outcome.
ghost use Rattle.std.specs.Prelude.{◌≡◌, Err};
ghost use Rattle.vrp_command.specs.Program.{request_code};

use crate::start::StartError;
use std::alloc::Global;
use std::io::{self, Write};
use vrp_command_streams::{RunError, Status, exit_status, fault_line};

/// Why a request has no answer. Nothing was written, except that a write fault may leave a beginning of the text.
#[derive(Clone, Copy, Debug, PartialEq, Eq, Drop)]
pub enum RequestError {
    /// The run failed, or the file is refused.
    Run(RunError),
    /// A start plan's file is named, but there is no plan in it.
    Start(StartError),
    /// A picture was requested, and the file has no whole coordinates for each node.
    NoPoints,
}

/// The exit status of an outcome. A fault is written to `errors` as one line. If that fails, nothing more is done.
pub fn end<E: Write>(alloc: Global, outcome: &Result<Status, RequestError>, errors: &mut E) -> u8
    ensures { result ≡ request_code outcome.now }
{
    match outcome {
        Ok(status) => exit_status(&Ok(*status)),
        Err(error) => {
            let _ = tell(alloc, error, errors);
            status_of(error)
        }
    }
}

// Writes why a request has no answer.
fn tell<E: Write>(alloc: Global, error: &RequestError, errors: &mut E) -> io::Result<()> {
    match error {
        RequestError::Run(fault) => {
            let Ok(text) = fault_line(alloc, fault) else {
                return Ok(());
            };
            writeln!(errors, "cvrp: {text}")
        }
        RequestError::Start(error) => writeln!(errors, "cvrp: {error}"),
        RequestError::NoPoints => errors.write_all(
            b"cvrp: no picture: the file has no whole coordinates for each node\n",
        ),
    }
}

// The exit status of a request without an answer.
fn status_of(error: &RequestError) -> u8
    ensures { result ≡ request_code (Err error.now) }
{
    match error {
        RequestError::Run(fault) => exit_status(&Err(*fault)),
        RequestError::Start(StartError::Refused(_) | StartError::TooLong) => 3,
        RequestError::Start(StartError::OutOfMemory) => 4,
        RequestError::Start(StartError::Read) => 5,
        RequestError::NoPoints => 3,
    }
}
