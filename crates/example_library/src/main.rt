//! How to use the solver as a library: reads a CVRP file on standard input, solves it with two workers, and prints the plan
//! with its cost and its verdict. The contract of `solve` says that no plan costs less than that of a `Proven` answer.
#![tactic(auto)]

use anyhow::Result;
use std::io::Read;
use vrp_answer::Finding;
use vrp_model::Plan;
use vrp_search_tree::Cutting;
use vrp_solver::{NoGate, solve};

const WORKERS: u32 = 2;

// The budget of partial plans for a piece of the search tree, before a worker leaves it open.
const BUDGET: u64 = 100_000_000;

fn main(rt: HostRuntime) -> Result<()> {
    let mut file = Vec::new(rt.alloc());
    rt.reader().read_to_end(&mut file)?;
    let instance = vrp_text::read(rt.alloc(), &file, None)?;
    let whole = Cutting::whole(rt.alloc(), &instance)?;
    let answer = solve(&rt, rt.alloc(), &instance, whole, WORKERS, BUDGET, &NoGate)?;
    let finding = Finding::of_answer(&answer);
    if let Some(plan) = finding.plan {
        print_plan(&rt, plan)?;
    }
    println!(rt; "{}", finding.status)?;
    Ok(())
}

// Prints the customers of each route, and the total cost.
fn print_plan(rt: &impl Print, plan: &Plan) -> Result<()> {
    for index in 0..plan.routes() {
        println!(rt; "Route {}: {:?}", index + 1, plan.route(index))?;
    }
    println!(rt; "Cost {}", plan.cost())?;
    Ok(())
}
