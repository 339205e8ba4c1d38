//! The quality of prices that ascent finds, aiming at the cost of a heuristic plan: the lower bound by them. The words are FILE STEPS
//! NEAR: the steps for finding prices, and the number of customers near each place.
ghost use Rattle.std.specs.Prelude.{◌≡◌, ◌≤◌, IfOk};
ghost use Rattle.vrp_model.specs.declared.ng_sets.TheConstants.{MOST_NEAR};
ghost use Rattle.vrp_model.specs.Problem.{place_count};

use crate::instance::{plan_by_one, read};
use crate::times::print_time;
use anyhow::{Context, Result, bail, ensure};
use std::rt::{Clock, Files};
use std::thread::Threads;
use std::time::Instant;
use vrp_bound_prices::{FoundPrices, MAX_BOUND_TABLE, find_prices};
use vrp_model::{Instance, MOST_NEAR, Unhurried};

// How prices are found.
#[derive(Clone, Copy)]
struct Setup {
    near: usize,
    steps: u64,
}

/// Finds prices for the instance that the words name, and prints the lower bound by them.
pub(crate) fn run<R: Files + Clock + Print + Eprint + AllocGlobal + Threads + Sync>(
    rt: &R,
    words: &[&str],
) -> Result<()> {
    let [name, steps, near] = words else {
        bail!("the words of prices are FILE STEPS NEAR");
    };
    let setup = Setup {
        near: near.parse::<usize>()?,
        steps: steps.parse::<u64>()?,
    };
    ensure!(
        setup.near <= MOST_NEAR,
        "more than {MOST_NEAR} customers near a place"
    );
    let instance = read(rt, name)?;
    let cost = plan_by_one(rt, &instance)?.cost();
    let found = timed_prices(rt, &instance, cost, setup)?;
    let bound = found
        .relaxation
        .lower_bound(rt.alloc(), &found.ng_sets, MAX_BOUND_TABLE)?;
    let bound = bound.context("no tours")?;
    println!(rt; "{name}: first plan {cost}, no plan costs less than {bound}")?;
    Ok(())
}

// Finds prices, and prints the time it took.
fn timed_prices<'a, R: Clock + Eprint + AllocGlobal>(
    rt: &R,
    instance: &'a Instance,
    cost: u64,
    setup: Setup,
) -> Result<FoundPrices<'a>>
    requires { setup.near ≤ MOST_NEAR }
    ensures relaxation { IfOk result (λ found. found.relaxation.problem ≡ instance.now) }
    ensures ng_sets { IfOk result (λ found. found.ng_sets.places ≡ place_count instance.now) }
{
    let Setup { near, steps } = setup;
    let start = Instant::now(rt)?;
    let found = find_prices(rt.alloc(), instance, cost, near, steps, &Unhurried)?;
    print_time(rt, "prices", start.elapsed(rt)?)?;
    found.context("no prices")
}
