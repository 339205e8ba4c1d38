//! Checks of the command on files. Each word of the command line is one check:
//!
//! - `P-n16-k8.vrp:450`, a larger file and its optimum: whether that lies between the bound and the cost that the command prints
//!   when it searches little (`ranges`).
//! - `slow:three-nodes.vrp`, or `slow:three-nodes.vrp/1`, a file, or a file and a number of trucks: whether the command prints
//!   what a plain slow evaluator computes (`slow`).
//! - `cut:three-nodes.vrp`: the same for a file that is cut off after each of its bytes in turn.
//! - `metrics`: whether the command's metrics are those of the slow evaluator.
//!
//! Then each line of standard input is a run of the command, whose answer is known and is printed (`runs`).
#![tactic(auto)]

mod ranges;
mod runs;
mod slow;

use anyhow::{Context, Result};
use std::env;
use std::rt::Files;
use std::sync::Wait;
use std::thread::Threads;

// The check that a word of the command line asks for.
#[derive(Clone, Copy, Debug)]
enum Check<'a> {
    Range { name: &'a str, optimum: u64 },
    // Without a number of trucks there is no limit on them.
    Slow { name: &'a str, trucks: Option<u16> },
    Cut { name: &'a str },
    Metrics,
}

impl<'a> Check<'a> {
    // The check of a word.
    fn parse(word: &'a str) -> Result<Check<'a>> {
        if word == "metrics" {
            return Ok(Check::Metrics);
        }
        if let Some(name) = word.strip_prefix("cut:") {
            return Ok(Check::Cut { name });
        }
        if let Some(name) = word.strip_prefix("slow:") {
            return Ok(Check::slow(name));
        }
        let (name, optimum) = word.split_once(':').context("no optimum")?;
        let optimum = optimum.parse::<u64>()?;
        Ok(Check::Range { name, optimum })
    }

    // The slow check of a file. A number behind the last slash is that of trucks; where there is none, the slash is a folder's.
    fn slow(word: &'a str) -> Check<'a> {
        if let Some((name, behind)) = word.rsplit_once('/') {
            if let Ok(trucks) = behind.parse::<u16>() {
                let trucks = Some(trucks);
                return Check::Slow { name, trucks };
            }
        }
        Check::Slow {
            name: word,
            trucks: None,
        }
    }
}

fn main(rt: HostRuntime) -> Result<()> {
    for word in env::args(&rt)?.skip(1) {
        print_check(&rt, word.as_str())?;
    }
    runs::print_runs(&rt)
}

// Prints what the check of a word finds.
fn print_check<R: Files + Print + AllocGlobal + Threads + Wait + Sync>(
    rt: &R,
    word: &str,
) -> Result<()> {
    match Check::parse(word)? {
        Check::Range { name, optimum } => ranges::print_ranges(rt, name, optimum)?,
        Check::Slow { name, trucks } => {
            let finding = slow::compare(rt, name, trucks)?;
            println!(rt; "{word}: {finding}")?;
        }
        Check::Cut { name } => {
            let finding = slow::compare_cuts(rt, name)?;
            println!(rt; "{word}: {finding}")?;
        }
        Check::Metrics => println!(rt; "{word}: {}", slow::compare_metrics())?,
    }
    Ok(())
}
