//! Whether the optimum of a larger file lies between the bound and the cost that the command prints when it searches little.

use anyhow::{Context, Result, ensure};
use std::rt::Files;
use std::sync::Wait;
use std::thread::Threads;
use std::{fs, str};
use vrp_command::{MAX_PIECES, Options, run};

// The numbers of pieces: the whole tree, the smallest cut, and a plain run's.
const CUTTINGS: [u32; 3] = [1, 2, 64];

// A budget for each piece so small that the larger instances end soon.
const LITTLE: u64 = 100;

// The least budget with which the heuristic plan is made with all effort.
const ENOUGH_FOR_PLANS: u64 = 1_000;

// What a report says about the cost of a cheapest plan.
#[derive(Clone, Copy)]
struct Range {
    lower: u64,
    cost: u64,
}

/// Prints for each number of pieces whether the optimum of a file lies in the printed range, and the cost of the plan when
/// little is searched and the heuristic plan is made with all effort.
pub(crate) fn print_ranges<R: Files + Print + AllocGlobal + Threads + Wait + Sync>(
    rt: &R,
    name: &str,
    optimum: u64,
) -> Result<()> {
    let file = fs::read(rt, name)?;
    for pieces in CUTTINGS {
        let range = range_of(rt, &file, pieces, LITTLE)?;
        let lies = if range.lower <= optimum && optimum <= range.cost {
            "lies"
        } else {
            "doesn't lie"
        };
        println!(rt; "{name}, {pieces} pieces: {optimum} {lies} between the bound and the cost")?;
    }
    let range = range_of(rt, &file, 1, ENOUGH_FOR_PLANS)?;
    println!(rt;
        "{name}, a budget of {ENOUGH_FOR_PLANS}: Cost {}",
        range.cost
    )?;
    Ok(())
}

// The range in the report on a file by one worker, with this many pieces and this budget for each.
fn range_of<R: AllocGlobal + Threads + Wait + Sync>(
    rt: &R,
    mut file: &[u8],
    pieces: u32,
    budget: u64,
) -> Result<Range> {
    ensure!(1 <= pieces && pieces <= MAX_PIECES, "{pieces} pieces");
    ensure!(
        1 <= budget && budget <= ENOUGH_FOR_PLANS,
        "a budget of {budget}"
    );
    let options = Options {
        workers: 1,
        pieces,
        budget,
        depot: None,
        trucks: None,
    };
    let mut report = Vec::new(rt.alloc());
    run(rt, rt.alloc(), options, &mut file, &mut report)?;
    read_range(str::from_utf8(&report)?)
}

// The range in a report: the cost of its plan, and its bound. For a proven plan both are its cost.
fn read_range(report: &str) -> Result<Range> {
    let (_, behind) = report.split_once("Cost ").context("no cost")?;
    let (cost, verdict) = behind.split_once('\n').context("no verdict")?;
    let cost = cost.parse::<u64>()?;
    let verdict = verdict.trim_end();
    if verdict == "Proven" {
        return Ok(Range { lower: cost, cost });
    }
    let lower = verdict.strip_prefix("Open ").context("no bound")?;
    Ok(Range {
        lower: lower.parse::<u64>()?,
        cost,
    })
}
