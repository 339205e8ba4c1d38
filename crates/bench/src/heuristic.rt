//! The cost of heuristic plans for instances with known optima. The words are WORKERS MOVES [CASE ..]: the number of workers,
//! the moves of a run, and cases. A case is a file and its optimum, such as `P-n16-k8.vrp:450`, or `none`; the file may be
//! followed by a number of trucks, as in `P-n16-k8.vrp/8:450`. Each line of output has a case and the cost of the heuristic
//! plan. The cost of the plan by savings and the times go to standard error.
ghost use Rattle.std.specs.Prelude.{◌≤◌};

use crate::instance::read;
use anyhow::{Context, Result, bail, ensure};
use std::alloc::Global;
use std::rt::{Clock, Files};
use std::thread::Threads;
use std::time::Instant;
use vrp_heuristic::{heuristic_plan, savings_plan};
use vrp_model::{Crew, Instance, MAX_NODES, Plan, Unhurried};

/// Makes the heuristic plans of the cases that the words name, and prints their costs.
pub(crate) fn run<R: Files + Clock + Print + Eprint + AllocGlobal + Threads + Sync>(
    rt: &R,
    words: &[&str],
) -> Result<()> {
    let [workers, moves, cases @ ..] = words else {
        bail!("the words of heuristic are WORKERS MOVES [CASE ..]");
    };
    let workers = workers.parse::<u16>()?;
    ensure!(workers >= 1, "no worker");
    let moves = moves.parse::<u32>()?;
    for case in cases {
        run_case(rt, case, workers, moves)?;
    }
    Ok(())
}

// Makes the heuristic plan of a case, and prints its cost.
fn run_case<R: Files + Clock + Print + Eprint + AllocGlobal + Threads + Sync>(
    rt: &R,
    case: &str,
    workers: u16,
    moves: u32,
) -> Result<()>
    requires { 1 ≤ workers }
{
    let instance = read_case(rt, case)?;
    let crew = Crew {
        rt,
        alloc: rt.alloc(),
        workers,
        watch: &Unhurried,
    };
    print_costs(&crew, &instance, case, moves)
}

// The instance of a case, with the number of trucks that the case names.
fn read_case<R: Files + AllocGlobal>(rt: &R, case: &str) -> Result<Instance> {
    let (file, _) = case.split_once(':').context("no cost")?;
    match file.split_once('/') {
        Some((name, trucks)) => limited(rt, name, trucks.parse::<u16>()?),
        None => read(rt, file),
    }
}

// The instance in a file with this many trucks.
fn limited<R: Files + AllocGlobal>(rt: &R, name: &str, trucks: u16) -> Result<Instance> {
    ensure!(1 <= trucks && trucks <= MAX_NODES, "{trucks} trucks");
    Ok(read(rt, name)?.with_trucks(trucks))
}

// Prints the costs of the heuristic plans of an instance, and the times they took.
fn print_costs<R: Clock + Print + Eprint + AllocGlobal + Threads + Sync>(
    crew: &Crew<'_, R, Unhurried>,
    instance: &Instance,
    case: &str,
    moves: u32,
) -> Result<()> {
    let (rt, alloc) = (crew.rt, crew.alloc);
    let start = Instant::now(rt)?;
    let savings = cost(alloc, savings_plan(alloc, instance)?)?;
    let by_savings = start.elapsed(rt)?;
    let start = Instant::now(rt)?;
    let first = cost(alloc, heuristic_plan(crew, instance, moves)?.plan)?;
    let by_moves = start.elapsed(rt)?;
    println!(rt; "{case}: {first}")?;
    let (by_savings, by_moves) = (by_savings.as_millis(), by_moves.as_millis());
    eprintln!(rt; "{case}: savings {savings}, {by_savings} and {by_moves} milliseconds")?;
    Ok(())
}

// The cost of a plan, as text.
fn cost(alloc: Global, plan: Option<Plan>) -> Result<String> {
    match plan {
        Some(plan) => Ok(plan.cost().to_string(alloc)?),
        None => Ok(String::from_str(alloc, "none")?),
    }
}
