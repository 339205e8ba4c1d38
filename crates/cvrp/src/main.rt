//! The program: reads a CVRP file on standard input, and writes the report of a plan to standard output.
#![tactic(auto)]

mod awaited;

use crate::awaited::Awaited;
use std::env::{self, Env};
use std::io::{self, Eprint, IsTerminal, Write};
use std::process::ExitCode;
use std::rt::Files;
use std::sync::Wait;
use std::thread::Threads;
use std::time::Clock;
use vrp_command::{
    LineFault, NoGate, Resources, end_without_run, run_arguments, unread_line_fault,
};

fn main(rt: HostRuntime) -> ExitCode {
    let status = match run_args(&rt, rt.stdin().is_terminal(), &mut rt.stderr()) {
        Ok(status) => status,
        Err(fault) => end_without_run(&fault, &mut io::writer(&rt), &mut rt.stderr()),
    };
    ExitCode::from(status)
}

// The exit status for the arguments behind the program's name, if they can be had. At a terminal the user is told that the file
// is awaited there.
fn run_args<
    R: Env + AllocGlobal + Files + Input + Print + Eprint + Clock + Threads + Wait + Sync,
    E: Write,
>(rt: &R, at_terminal: bool, errors: &mut E) -> Result<u8, LineFault> {
    let args = match env::args(rt) {
        Ok(args) => args,
        Err(error) => return Err(unread_line_fault(rt.alloc(), &error)),
    };
    let args: Vec<String> = args.skip(1).collect(rt.alloc())?;
    let arguments: Vec<&str> = args.iter().map(String::as_str).collect(rt.alloc())?;
    let resources = Resources::new(rt, rt.alloc(), &NoGate);
    Ok(run_arguments(
        &resources,
        &arguments,
        &mut Awaited::new(rt.reader(), at_terminal, rt),
        &mut io::writer(rt),
        errors,
    ))
}
