//! The speed of the search: searches the tree of an instance until its budget is spent. The words are FILE BUDGET [PLAN
//! [PIECES [TABLES]]]. PLAN is the heuristic plan: `singles`, or `savings` as in the command. PIECES is the number of pieces
//! (1). TABLES are those that a piece is searched with: `all` as in the command, or `own`.
ghost use Rattle.std.specs.Prelude.{◌≡◌, ◌≤◌, IfOk};
ghost use Rattle.std.specs.Option.{ForSome};
ghost use Rattle.vrp_model.specs.Problem.{customers};
ghost use Rattle.vrp_bound.specs.Tables.{tables_over};
ghost use Rattle.vrp_model.specs.Route.{IsPlanOf};
ghost use Rattle.vrp_search_tree.specs.declared.cutting.TheConstants.{MAX_PIECES};

mod pieces;

use self::pieces::{Effort, Whose, search_pieces};
use crate::instance::read;
use crate::times::{print_rate, print_time};
use anyhow::{Context, Result, bail, ensure};
use std::alloc::Global;
use std::rt::{Clock, Files};
use std::time::Instant;
use vrp_bound::Tables;
use vrp_heuristic::savings_plan;
use vrp_model::{Instance, NoMemory, Plan};
use vrp_search_tree::{Cutting, Local, MAX_PIECES};

// How an instance is searched.
#[derive(Clone, Copy)]
struct Setup {
    by_savings: bool,
    pieces: u32,
    effort: Effort,
}

/// Searches the instance that the words name, and prints the results.
pub(crate) fn run<R: Files + Clock + Print + Eprint + AllocGlobal>(
    rt: &R,
    words: &[&str],
) -> Result<()> {
    let [name, budget, options @ ..] = words else {
        bail!("the words of search are FILE BUDGET [PLAN [PIECES [TABLES]]]");
    };
    let budget = budget.parse::<u64>()?;
    ensure!(budget >= 1, "the budget is 0");
    let by_savings = options.first().is_some_and(|word| *word == "savings");
    let pieces = match options.get(1) {
        Some(word) => word.parse::<u32>()?,
        None => 1,
    };
    ensure!(pieces <= MAX_PIECES, "{pieces} pieces");
    let whose = match options.get(2) {
        Some(&"own") => Whose::Own,
        _ => Whose::All,
    };
    let instance = read(rt, name)?;
    let setup = Setup {
        by_savings,
        pieces,
        effort: Effort { whose, budget },
    };
    measure(rt, name, &instance, setup)
}

// The plan that the search starts with, if there is one: one truck for each customer, or a plan by savings.
fn heuristic_plan(
    alloc: Global,
    instance: &Instance,
    by_savings: bool,
) -> Result<Option<Plan>, NoMemory>
    ensures { IfOk result (λ plan. ForSome plan (IsPlanOf instance.now)) }
{
    if by_savings {
        savings_plan(alloc, instance)
    } else {
        Plan::singles(alloc, instance)
    }
}

// Searches an instance, and prints the results.
fn measure<R: Clock + Print + Eprint + AllocGlobal>(
    rt: &R,
    name: &str,
    instance: &Instance,
    setup: Setup,
) -> Result<()>
    requires budget { 1 ≤ setup.effort.budget }
    requires pieces { setup.pieces ≤ MAX_PIECES }
{
    let start = Instant::now(rt)?;
    let tables = Tables::over_all(rt.alloc(), instance)?;
    let tables_time = start.elapsed(rt)?;
    measure_search(rt, name, instance, &tables, setup)?;
    print_time(rt, "tables", tables_time)
}

// Searches an instance with these tables, and prints the results.
fn measure_search<R: Clock + Print + Eprint + AllocGlobal>(
    rt: &R,
    name: &str,
    instance: &Instance,
    tables: &Tables<'_>,
    setup: Setup,
) -> Result<()>
    requires tables { tables.now ≡ tables_over instance.now (customers instance.now) }
    requires budget { 1 ≤ setup.effort.budget }
    requires pieces { setup.pieces ≤ MAX_PIECES }
{
    let mut board = Local::open(heuristic_plan(rt.alloc(), instance, setup.by_savings)?);
    let start = Instant::now(rt)?;
    let looked = search_all(rt.alloc(), instance, tables, setup, &mut board)?;
    let time = start.elapsed(rt)?;
    let cost = board.plan().context("no plan")?.cost();
    println!(rt; "{name}: {looked} partial plans looked at, cost {cost}")?;
    print_rate(rt, looked, time)
}

// Cuts the tree and searches all pieces, and answers the number of partial plans looked at.
fn search_all(
    alloc: Global,
    instance: &Instance,
    tables: &Tables<'_>,
    setup: Setup,
    board: &mut Local,
) -> Result<u64, NoMemory>
    requires tables { tables.now ≡ tables_over instance.now (customers instance.now) }
    requires board { ForSome board.old (IsPlanOf instance.now) }
    requires budget { 1 ≤ setup.effort.budget }
    requires pieces { setup.pieces ≤ MAX_PIECES }
{
    let mut cutting = Cutting::whole(alloc, instance)?;
    cutting.at_least(alloc, instance, setup.pieces)?;
    search_pieces(alloc, instance, tables, &cutting, setup.effort, board)
}
