//! The benches. The first word of the command line names one of them: `search`, `heuristic`, `prices`, `partition` or `passes`.
//! The other words are the bench's own, and its module says what they are. Without any words, each line of standard input is such a
//! command line, and the lines are run in turn. Results go to standard output, and times to standard error.
#![tactic(auto)]

mod heuristic;
mod instance;
mod partition;
mod passed;
mod passes;
mod prices;
mod search;
mod times;

use anyhow::{Context, Result, bail};
use std::env;
use std::rt::{Clock, Files};
use std::thread::Threads;

fn main(rt: HostRuntime) -> Result<()> {
    let args: Vec<String> = env::args(&rt)?.skip(1).collect(rt.alloc())?;
    let words: Vec<&str> = args.iter().map(String::as_str).collect(rt.alloc())?;
    if words.is_empty() {
        run_lines(&rt)
    } else {
        run_arguments(&rt, &words)
    }
}

// Runs the bench of each line of standard input.
fn run_lines<R: Files + Input + Clock + Print + Eprint + AllocGlobal + Threads + Sync>(
    rt: &R,
) -> Result<()> {
    for line in rt.lines(rt.alloc()) {
        run_line(rt, line?.as_str())?;
    }
    Ok(())
}

// Runs the bench that a line names.
fn run_line<R: Files + Clock + Print + Eprint + AllocGlobal + Threads + Sync>(
    rt: &R,
    line: &str,
) -> Result<()> {
    let words: Vec<&str> = line.split_whitespace().collect(rt.alloc())?;
    run_arguments(rt, &words)
}

// Runs the bench that the first word names, with the other words.
fn run_arguments<R: Files + Clock + Print + Eprint + AllocGlobal + Threads + Sync>(
    rt: &R,
    words: &[&str],
) -> Result<()> {
    let (bench, words) = words.split_first().context("no bench is named")?;
    match *bench {
        "search" => search::run(rt, words),
        "heuristic" => heuristic::run(rt, words),
        "prices" => prices::run(rt, words),
        "partition" => partition::run(rt, words),
        "passes" => passes::run(rt, words),
        other => bail!("no bench has the name {other}"),
    }
}
