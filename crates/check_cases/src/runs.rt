//! Runs of the command with known answers. Each line of standard input is a file and the words of a command line. The output
//! has the exit status, the report, and standard error, or `the same` if the report is that of the line before and standard
//! error is empty. So instances with known optima are solved over several cuttings of the tree by several workers and by one,
//! with free trucks and with few; start plans are feasible and refused; and plans are printed in all forms.

use anyhow::{Context, Result};
use std::io::Eprint;
use std::rt::Files;
use std::sync::Wait;
use std::thread::Threads;
use std::time::Clock;
use std::{fs, str};
use vrp_command::{NoGate, Resources, run_arguments};

/// Prints the outcome of the run of each line of standard input.
pub(crate) fn print_runs<
    R: Files + Input + Print + Eprint + AllocGlobal + Clock + Threads + Wait + Sync,
>(rt: &R) -> Result<()> {
    let mut report = Vec::new(rt.alloc());
    for line in rt.lines(rt.alloc()) {
        report = print_run(rt, line?.as_str(), report)?;
    }
    Ok(())
}

// Prints the outcome of a run, and answers its report.
fn print_run<R: Files + Print + Eprint + AllocGlobal + Clock + Threads + Wait + Sync>(
    rt: &R,
    line: &str,
    before: Vec<u8>,
) -> Result<Vec<u8>> {
    let words: Vec<&str> = line.split_whitespace().collect(rt.alloc())?;
    let (name, words) = words.split_first().context("no file")?;
    let file = fs::read(rt, *name)?;
    let mut output = Vec::new(rt.alloc());
    let mut errors = Vec::new(rt.alloc());
    let resources = Resources::new(rt, rt.alloc(), &NoGate);
    let status = run_arguments(
        &resources,
        words,
        &mut file.as_slice(),
        &mut output,
        &mut errors,
    );
    let report = if errors.is_empty() && output == before {
        None
    } else {
        Some(output.as_slice())
    };
    print_outcome(rt, line, status, report, &errors)?;
    Ok(output)
}

// Prints the exit status of a run, its report, if it differs from the last one, and standard error.
fn print_outcome<R: Print>(
    rt: &R,
    line: &str,
    status: u8,
    report: Option<&[u8]>,
    errors: &[u8],
) -> Result<()> {
    let Some(report) = report else {
        println!(rt; "{line}: {status}, the same")?;
        return Ok(());
    };
    println!(rt; "{line}: {status}")?;
    print!(rt; "{}{}", str::from_utf8(report)?, str::from_utf8(errors)?)?;
    Ok(())
}
