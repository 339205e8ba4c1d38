//! Reads the arguments of a command line: the request for a run.
ghost use Rattle.std.specs.Prelude.{◌≡◌, ◌≢◌, ◌≤◌, IfErr, IfOk, IsTrue, codes};
ghost use Rattle.clap.specs.Words.{kind_of};
ghost use Rattle.vrp_command_request.specs.Options.{AreInRange, HasDepotFromOne, HasDepotWithin, IsOtherFormat};
ghost use Rattle.vrp_command_request.specs.Arguments.{AreAskedBy, AreAskedUnderLimit, AsksForHelp, HasArgument, HasArgumentFrom, IsAskedBy, budget_within, line_code};
ghost use Rattle.vrp_command_request.specs.declared.limits.TheConstants.{MAX_BUDGET};

use crate::given::{
    BadValue, budget, count, form, has_argument, has_argument_from, node, value_of, value_of_either,
};
use crate::grammar::command_line;
use crate::limits::{MAX_BUDGET, MAX_SECONDS};
use crate::options::{Options, Request};
use clap::Error;
use clap::error::ErrorKind;
use std::alloc::{AllocError, Global};
use std::io;
use vrp_search_tree::MAX_PIECES;
use vrp_solver::MAX_WORKERS;

// The message for an argument that is not UTF-8.
const NOT_TEXT: &str =
    "error: an argument on the command line is no text (not UTF-8)\n\nFor more information, try '--help'.\n";

// The message for a value that `clap` accepts and `request` doesn't.
const OUT_OF_RANGE: &str = "error: a value is out of range\n";

/// Why the arguments of a command line give no options. The texts end with a line feed.
#[derive(Debug, Drop)]
pub enum LineFault {
    /// The arguments are refused, with this message for standard error.
    Refused(String),
    /// The arguments request the help or the version, with this text for standard output.
    Help(String),
    /// An allocation was refused.
    OutOfMemory,
}

impl From<AllocError> for LineFault {
    fn from(_refusal: AllocError) -> LineFault {
        LineFault::OutOfMemory
    }
}

/// Reads the arguments behind the program's name. Omitted options have their defaults; with a limit of seconds, the default
/// budget is the largest. No clause says which arguments are refused; that is for `clap` to say.
pub fn parse_request<'a>(alloc: Global, arguments: &'a [&'a str]) -> Result<Request<'a>, LineFault>
    ensures asked { IfOk result (IsAskedBy arguments.now) }
    ensures help { IfErr result (λ fault. line_code fault ≡ 0 → AsksForHelp arguments.now) }
    ensures in_range { IfOk result (λ request. AreInRange request.options) }
    ensures some_depot { IfOk result (λ request. HasDepotFromOne request.options) }
    ensures few_depot { IfOk result (λ request. HasDepotWithin request.options) }
    ensures check { IfOk result (λ request. IsTrue request.check → HasArgument arguments.now (codes "--check")) }
    ensures strict { IfOk result (λ request. IsTrue request.strict → HasArgument arguments.now (codes "--strict")) }
    ensures explain { IfOk result (λ request. IsTrue request.explain → HasArgument arguments.now (codes "--explain")) }
    ensures budget { IfOk result (λ request. IsTrue request.states_budget → HasArgumentFrom arguments.now (codes "--budget")) }
    ensures format { IfOk result (λ request. IsOtherFormat request.format → HasArgumentFrom arguments.now (codes "--format")) }
{
    if let Err(error) = accept(alloc, arguments) {
        return Err(line_fault(alloc, arguments, &error));
    }
    match request(arguments) {
        Ok(request) => Ok(request),
        // `clap` has refused such values already, but no clause says so.
        Err(_) => Err(refused(alloc, OUT_OF_RANGE)),
    }
}

/// Reads the arguments behind the program's name, and answers only the options of a run: those of `parse_request`.
pub fn parse_words(alloc: Global, arguments: &[&str]) -> Result<Options, LineFault>
    ensures asked { IfOk result (AreAskedUnderLimit arguments.now) }
    ensures in_range { IfOk result AreInRange }
    ensures some_depot { IfOk result HasDepotFromOne }
    ensures few_depot { IfOk result HasDepotWithin }
{
    Ok(parse_request(alloc, arguments)?.options)
}

/// The fault of a command line whose arguments can't be had: for lack of memory, or because one of them is not UTF-8 and so not
/// text.
pub fn unread_line_fault(alloc: Global, error: &io::Error) -> LineFault
    ensures { line_code result ≢ 0 }
{
    if error.kind() == io::ErrorKind::OutOfMemory {
        return LineFault::OutOfMemory;
    }
    refused(alloc, NOT_TEXT)
}

// The fault of arguments that are refused with this message.
fn refused(alloc: Global, message: &str) -> LineFault
    ensures { line_code result ≢ 0 }
{
    match String::from_str(alloc, message) {
        Ok(text) => LineFault::Refused(text),
        Err(_) => LineFault::OutOfMemory,
    }
}

/// The exit status of a program whose arguments give no options: 0 for the help, 2 for a refusal, 4 for lack of memory.
pub fn line_status(fault: &LineFault) -> u8
    ensures { result ≡ line_code fault.now }
{
    match fault {
        LineFault::Help(_) => 0,
        LineFault::Refused(_) => 2,
        LineFault::OutOfMemory => 4,
    }
}

// Whether `clap` accepts the arguments. No clause says which it accepts.
fn accept(alloc: Global, arguments: &[&str]) -> Result<(), Error> {
    let _accepted = command_line(alloc)?.try_get_matches_from(arguments)?;
    Ok(())
}

// The fault of arguments that `clap` doesn't accept: the help or the version only where they are asked for.
fn line_fault(alloc: Global, arguments: &[&str], error: &Error) -> LineFault
    ensures { line_code result ≡ 0 → AsksForHelp arguments.now }
{
    match argument_fault(alloc, error) {
        LineFault::Help(text) if !asks_for_help(arguments) => LineFault::Refused(text),
        fault => fault,
    }
}

// Whether the arguments ask for the help or the version.
fn asks_for_help(arguments: &[&str]) -> bool
    ensures { IsTrue result → AsksForHelp arguments.now }
{
    has_argument_from(arguments, "-h")
        || has_argument_from(arguments, "--help")
        || has_argument_from(arguments, "-V")
        || has_argument_from(arguments, "--version")
}

/// The fault of arguments that `clap` refuses: its help or version, or its error message. No clause says which of these.
pub fn argument_fault(alloc: Global, error: &Error) -> LineFault
    ensures { kind_of error.now ≡ ErrorKind.OutOfMemory → result ≡ LineFault.OutOfMemory }
{
    if error.kind() == ErrorKind::OutOfMemory {
        return LineFault::OutOfMemory;
    }
    match format!(in alloc; "{error}") {
        Ok(text) if error.use_stderr() => LineFault::Refused(text),
        Ok(text) => LineFault::Help(text),
        Err(_) => LineFault::OutOfMemory,
    }
}

// The request in arguments that `clap` has accepted.
fn request<'a>(arguments: &'a [&'a str]) -> Result<Request<'a>, BadValue>
    ensures asked { IfOk result (IsAskedBy arguments.now) }
    ensures in_range { IfOk result (λ request. AreInRange request.options) }
    ensures some_depot { IfOk result (λ request. HasDepotFromOne request.options) }
    ensures few_depot { IfOk result (λ request. HasDepotWithin request.options) }
{
    let seconds = count(
        value_of_either(arguments, "--seconds", "--time-limit"),
        MAX_SECONDS,
    )?;
    Ok(Request {
        options: options(arguments, default_budget(seconds))?,
        states_budget: value_of(arguments, "--budget").is_some(),
        seconds,
        progress: has_argument(arguments, "--progress"),
        start: value_of(arguments, "--start"),
        check: has_argument(arguments, "--check"),
        strict: has_argument(arguments, "--strict"),
        explain: has_argument(arguments, "--explain"),
        format: form(value_of(arguments, "--format"))?,
    })
}

// The default budget under a limit of seconds, if there is one.
fn default_budget(seconds: Option<u32>) -> u64
    ensures value { result ≡ budget_within seconds }
    ensures some { 1 ≤ result }
    ensures few { result ≤ MAX_BUDGET }
{
    match seconds {
        Some(_) => MAX_BUDGET,
        None => Options::default().budget,
    }
}

// The options of a run in the arguments.
fn options(arguments: &[&str], default_budget: u64) -> Result<Options, BadValue>
    requires some { 1 ≤ default_budget }
    requires few { default_budget ≤ MAX_BUDGET }
    ensures asked { IfOk result (AreAskedBy arguments.now default_budget) }
    ensures in_range { IfOk result AreInRange }
    ensures some_depot { IfOk result HasDepotFromOne }
    ensures few_depot { IfOk result HasDepotWithin }
{
    let default = Options::default();
    let workers = count(
        value_of_either(arguments, "--workers", "--threads"),
        MAX_WORKERS,
    )?;
    let pieces = count(value_of(arguments, "--pieces"), MAX_PIECES)?;
    let budget = budget(value_of(arguments, "--budget"))?;
    let depot = node(value_of(arguments, "--depot"))?;
    let trucks = node(value_of_either(arguments, "--trucks", "--vehicles"))?;
    Ok(Options {
        workers: workers.unwrap_or(default.workers),
        pieces: pieces.unwrap_or(default.pieces),
        budget: budget.unwrap_or(default_budget),
        depot,
        trucks,
    })
}
