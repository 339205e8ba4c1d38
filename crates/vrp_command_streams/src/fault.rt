//! Why a run failed: the text of each fault, and the exit status of each outcome.
ghost use Rattle.std.specs.Prelude.{◌≡◌, Some, IfOk, Result, string_bytes};
ghost use Rattle.vrp_command_streams.specs.Fault.{fault_text, exit_code, refusal_fault};
ghost use Rattle.vrp_command_streams.specs.declared.fault.RunError.TheVariants.{OutOfMemory};

use crate::refusal::Refusal;
use std::alloc::{AllocError, Global};
use std::error::Error;
use std::fmt;
use vrp_answer::{SolveError, Status};
use vrp_model::NoMemory;
use vrp_text::TextError;

/// Why a run failed. Nothing was written, except that `Write` may leave a beginning of the report.
#[derive(Clone, Copy, Debug, PartialEq, Eq)]
pub enum RunError {
    /// The file is refused. Never used for lack of memory.
    Text(TextError),
    /// An allocation was refused.
    OutOfMemory,
    /// A read failed.
    Read,
    /// A write failed, or the flush at the end.
    Write,
}

impl fmt::Display for RunError {
    ghost output = { λ fault. Some (fault_text fault) };

    fn fmt<W: fmt::Write>(&self, f: &mut fmt::Formatter<W>) -> fmt::Result {
        match self {
            RunError::Text(refusal) => write!(f, "{}", Refusal(*refusal)),
            RunError::OutOfMemory => f.write_str("out of memory"),
            RunError::Read => f.write_str("read fault"),
            RunError::Write => f.write_str("write fault"),
        }
    }
}

impl Error for RunError {}

impl From<AllocError> for RunError {
    ghost from_gives = { λ _ fault. fault ≡ OutOfMemory };

    fn from(_refusal: AllocError) -> RunError {
        RunError::OutOfMemory
    }
}

impl From<SolveError> for RunError {
    ghost from_gives = { λ _ fault. fault ≡ OutOfMemory };

    fn from(fault: SolveError) -> RunError {
        match fault {
            SolveError::OutOfMemory => RunError::OutOfMemory,
        }
    }
}

impl From<NoMemory> for RunError {
    ghost from_gives = { λ _ fault. fault ≡ OutOfMemory };

    fn from(_refusal: NoMemory) -> RunError {
        RunError::OutOfMemory
    }
}

impl From<TextError> for RunError {
    ghost from_gives = { λ refusal fault. fault ≡ refusal_fault refusal };

    fn from(refusal: TextError) -> RunError {
        match refusal {
            TextError::OutOfMemory => RunError::OutOfMemory,
            _ => RunError::Text(refusal),
        }
    }
}

/// The exit status of an outcome: 0 proven, no plan or lawful, 1 open, 3 a refused file, 4 lack of memory, 5 a read or write
/// fault.
pub fn exit_status(outcome: &Result<Status, RunError>) -> u8
    ensures { result ≡ exit_code outcome.now }
{
    match outcome {
        Ok(Status::Proven | Status::NoPlan | Status::Lawful) => 0,
        Ok(Status::Open) => 1,
        Err(RunError::Text(_)) => 3,
        Err(RunError::OutOfMemory) => 4,
        Err(RunError::Read) | Err(RunError::Write) => 5,
    }
}

/// The text of a fault, without the program's name and without a line end.
pub fn fault_line(alloc: Global, fault: &RunError) -> Result<String, NoMemory>
    ensures { IfOk result (λ text. string_bytes text ≡ fault_text fault.now) }
{
    Ok(fault.to_string(alloc)?)
}
