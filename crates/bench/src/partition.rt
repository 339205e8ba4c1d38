//! How fast the cheapest choice among the routes of a pool is found. The words are FILE COST BUDGET [WORKERS]: a file with the
//! pool; the known cost, of which a cheaper choice is sought, 0 standing for the file's; the budget of the search; and the
//! number of workers (1).
mod counted;
mod pool;

use self::counted::{Counted, Counts, print_counts};
use self::pool::{Pool, read_pool};
use crate::times::print_time;
use anyhow::{Result, bail, ensure};
use std::fs;
use std::rt::{Clock, Files};
use std::thread::Threads;
use std::time::Instant;
use vrp_model::{Crew, FleetView, Unhurried};
use vrp_partition::{Found, Task, all_fit, cheapest_choice};
use vrp_simplex::ProgramGuide;

/// Seeks the cheapest choice in the pool that the words name, and prints what was found.
pub(crate) fn run<R: Files + Clock + Print + Eprint + AllocGlobal + Threads + Sync>(
    rt: &R,
    words: &[&str],
) -> Result<()> {
    let [name, cost, budget, options @ ..] = words else {
        bail!("the words of partition are FILE COST BUDGET [WORKERS]");
    };
    let cost = cost.parse::<u64>()?;
    let budget = budget.parse::<u64>()?;
    let workers = match options.first() {
        Some(word) => word.parse::<u16>()?,
        None => 1,
    };
    let mut pool = read(rt, name)?;
    if cost > 0 {
        pool.known_cost = cost;
    }
    choose(rt, name, pool, budget, workers)
}

// The pool in a file.
fn read<R: Files + AllocGlobal>(rt: &R, name: &str) -> Result<Pool> {
    let text = fs::read_to_string(rt, name)?;
    read_pool(rt.alloc(), text.as_str())
}

// Seeks the cheapest choice, and prints what was found and how long it took.
fn choose<R: Clock + Print + Eprint + AllocGlobal + Threads + Sync>(
    rt: &R,
    name: &str,
    pool: Pool,
    budget: u64,
    workers: u16,
) -> Result<()> {
    let count = pool.routes.len();
    let counts = Counts::new();
    ensure!(workers > 0, "no worker");
    let crew = Crew {
        rt,
        alloc: rt.alloc(),
        workers,
        watch: &Unhurried,
    };
    let start = Instant::now(rt)?;
    let found = search(&crew, pool, budget, &counts)?;
    let time = start.elapsed(rt)?;
    print_found(rt, name, count, found)?;
    print_counts(rt, &counts)?;
    print_time(rt, "choice", time)
}

// Prints what was found among so many routes.
fn print_found(rt: &impl Print, name: &str, count: usize, found: Found) -> Result<()> {
    match found {
        Found::Cheapest(chosen) => {
            let (cost, few) = (chosen.cost, chosen.routes.len());
            println!(rt; "{name}: {count} routes, {cost} by {few}")?;
        }
        Found::Unfinished { lower_bound, .. } => {
            println!(rt; "{name}: {count} routes, open, at least {lower_bound}")?;
        }
    }
    Ok(())
}

// The cheapest choice of a pool, by a guide whose nodes are counted.
fn search<R: Threads + Sync>(
    crew: &Crew<'_, R, Unhurried>,
    pool: Pool,
    budget: u64,
    counts: &Counts,
) -> Result<Found> {
    let Pool {
        demands,
        customers,
        capacity,
        known_cost,
        routes,
    } = pool;
    ensure!(known_cost <= 1 << 32, "the cost {known_cost}");
    ensure!(
        all_fit(routes.as_slice(), &demands, capacity),
        "a route is too heavy"
    );
    let fleet = FleetView {
        demands: &demands,
        capacity,
        trucks: u8::MAX,
    };
    let known_routes = Vec::new(crew.alloc);
    let guide = ProgramGuide::new(crew.alloc, fleet, known_routes, &Unhurried);
    let guide = Counted { guide, counts };
    let task = Task {
        fleet,
        customers,
        least_routes: 0,
        incumbent: known_cost,
    };
    let mut budget = budget;
    let found = cheapest_choice(crew, guide, &task, routes, &mut budget)?;
    Ok(found)
}
