//! The start plan, from a file.
ghost use Rattle.std.specs.Option.{option_and_then, option_map};
ghost use Rattle.std.specs.Prelude.{◌≡◌, IfErr, IfOk, IsSome, OnErr};
ghost use Rattle.vrp_command.specs.Inner.Starts.{BeginsStated, GivesFilePlan, IsTooLongOrUnread, refused_for};
ghost use Rattle.vrp_command.specs.Program.{IsFile, OnRefusedStart, RefusesFile, RefusesStartFile};

use std::alloc::Global;
use std::fs;
use std::io::{Read, Write};
use std::rt::Files;
use vrp_command_streams::{RunError, read_input};
use vrp_model::{Instance, Plan};
use vrp_plan_text::{Solution, SolutionError};
use vrp_text::MAX_BYTES;

/// The file of a start plan.
#[derive(Drop)]
pub enum StartFile<S> {
    /// It can be read.
    Opened(S),
    /// It can't be opened.
    Unopened,
}

/// The start plan's file at this path. No clause says what it contains.
pub fn open_start<T: Files>(rt: &T, path: &str) -> StartFile<T::File> {
    match fs::open(rt, path) {
        Ok(file) => StartFile::Opened(file),
        Err(_) => StartFile::Unopened,
    }
}

/// Why there is no start plan.
#[derive(Clone, Copy, Debug, PartialEq, Eq, Drop, thiserror::Error)]
pub enum StartError {
    /// The file can't be opened or read.
    #[error("start plan: read fault")]
    Read,
    /// The file has more bytes than a file may have.
    #[error("start plan: input too long")]
    TooLong,
    /// The file is not a solution, or not one of a feasible plan. Never used for lack of memory.
    #[error("start plan: {0}")]
    Refused(SolutionError),
    /// An allocation was refused.
    #[error("out of memory")]
    OutOfMemory,
}

/// The start plan, if there is a file for it: the feasible plan that its text gives, with its stated cost.
pub(crate) fn start_plan<S: Read + Drop>(
    alloc: Global,
    instance: &Instance,
    start: Option<StartFile<S>>,
) -> Result<Option<Solution>, StartError>
    ensures begins { IfOk result (BeginsStated instance.now (λ file. S.remaining file) start) }
    ensures refused { IfErr result (λ error. OnRefusedStart error
        (RefusesStartFile instance.now (λ file. S.remaining file) start)) }
    ensures asked { OnErr result (IsSome start) }
{
    match start {
        None => Ok(None),
        Some(StartFile::Unopened) => Err(StartError::Read),
        Some(StartFile::Opened(file)) => Ok(Some(plan_in(alloc, instance, file)?)),
    }
}

/// The plan of a solution, if there is one.
pub(crate) fn plan_of(solution: Option<&Solution>) -> Option<&Plan>
    ensures { option_map (λ plan. plan.now) result ≡ option_map (λ solution. solution.now.plan) solution.entry }
{
    match solution {
        Some(solution) => Some(&solution.plan),
        None => None,
    }
}

/// The cost that a solution states, if there is a solution and it states one.
pub(crate) fn stated_cost_of(solution: Option<&Solution>) -> Option<u64>
    ensures { result ≡ option_and_then (λ solution. solution.now.stated_cost) solution.entry }
{
    match solution {
        Some(solution) => solution.stated_cost,
        None => None,
    }
}

/// Writes to `errors` if the file of a start plan states a wrong cost. If that fails, nobody is told. The contract leaves the
/// message open.
pub(crate) fn tell_stated_cost<E: Write>(solution: Option<&Solution>, errors: &mut E) {
    let Some(solution) = solution else {
        return;
    };
    if solution.states_other_cost {
        let cost = solution.plan.cost();
        let _ = writeln!(
            errors,
            "cvrp: start plan: it states another cost than its true one, {cost}"
        );
    }
}

// The feasible plan that a file gives in CVRPLIB's format.
fn plan_in<S: Read + Drop>(
    alloc: Global,
    instance: &Instance,
    file: S,
) -> Result<Solution, StartError>
    ensures gives { IfOk result (GivesFilePlan instance.now (S.remaining file)) }
    ensures refused { IfErr result (λ error. OnRefusedStart error (RefusesFile instance.now (S.remaining file))) }
{
    let text = read_file(alloc, file)?;
    match Solution::read(alloc, &text, instance) {
        Ok(solution) => Ok(solution),
        Err(refusal) => Err(refused(refusal)),
    }
}

// The reason why there is no start plan, for a refused solution.
fn refused(refusal: SolutionError) -> StartError
    ensures { result ≡ refused_for refusal }
{
    match refusal {
        SolutionError::OutOfMemory => StartError::OutOfMemory,
        _ => StartError::Refused(refusal),
    }
}

// All bytes of a file.
fn read_file<S: Read + Drop>(alloc: Global, mut file: S) -> Result<Vec<u8>, StartError>
    ensures read { IfOk result (λ text. IsFile (S.remaining file) text.items) }
    ensures refused { IfErr result (λ error. IsTooLongOrUnread (S.remaining file) error) }
{
    match read_input(alloc, &mut file) {
        Ok(text) if text.len() <= MAX_BYTES => Ok(text),
        Ok(_) => Err(StartError::TooLong),
        Err(RunError::OutOfMemory) => Err(StartError::OutOfMemory),
        Err(_) => Err(StartError::Read),
    }
}
