//! A plan is improved as long as there is time: by a population, or by a run of ruin and recreate of each worker.
ghost use Rattle.std.specs.Prelude.{◌≡◌, ◌≤◌, IfOk};
ghost use Rattle.vrp_model.specs.Route.{IsPlanOf};

use crate::generations::{Span, evolved};
use crate::heuristic::first_threshold;
use crate::runs::{Round, run_all};
use crate::surroundings::Surroundings;
use crate::threshold::{Length, Threshold};
use std::thread::Threads;
use vrp_model::{Crew, Instance, NoMemory, Plan, Watch};
use vrp_search_tree::cheaper_plan;

// Up to this many customers a population goes on finding better plans, where a single run comes to an end.
const MOST_FOR_POPULATION: u16 = 250;

// The number of the first run; the runs of a heuristic plan have lower ones.
const FIRST_RUN: u64 = 100;

/// The plan, or a better one. With up to 250 customers and no limit on trucks the workers keep a population of good plans, and improve
/// children of these. Otherwise each worker makes one run of ruin and recreate from the plan, whose number seeds its chances; the run
/// takes all the time that is left, and its threshold falls to 0 in that time. The answer is the best of all their plans, by cost and
/// then by word.
///
/// The watch is asked before each 16th move, and hears of each cheaper cost. If it has no time, the plan is answered as it is. The contract
/// leaves open which feasible plan is answered.
pub fn improved_plan<R: Threads + Sync, W: Watch + Sync>(
    crew: &Crew<'_, R, W>,
    instance: &Instance,
    plan: &Plan,
) -> Result<Plan, NoMemory>
    requires { IsPlanOf instance.now plan.now }
    ensures lawful { IfOk result (IsPlanOf instance.now) }
    ensures no_costlier { IfOk result (λ found. found.cost ≤ plan.now.cost) }
{
    let best = plan.copy(crew.alloc)?;
    let Some(milliseconds) = crew.watch.milliseconds_left() else {
        return Ok(best);
    };
    if instance.customers() == 0 {
        return Ok(best);
    }
    let setting = Surroundings::new(crew.alloc, instance)?;
    if instance.customers() <= MOST_FOR_POPULATION && instance.trucks().is_none() {
        return evolved(crew, &setting, best, Span::Half(milliseconds / 2));
    }
    let round = Round {
        first: FIRST_RUN,
        runs: crew.workers,
        threshold: Threshold {
            start: first_threshold(instance),
            length: Length::Time {
                first: milliseconds,
                last: 0,
            },
        },
        gathers: 0,
        recombines: false,
    };
    best_of_round(crew, instance, &setting, round, best)
}

/// The plan, or a better one, by a population and about so many moves. The answer is the same for any number of workers, unless the watch
/// stops the runs. With a limit on trucks, or more than 250 customers, the plan is answered as it is. The contract leaves open which feasible
/// plan is answered.
pub fn evolved_plan<R: Threads + Sync, W: Watch + Sync>(
    crew: &Crew<'_, R, W>,
    instance: &Instance,
    plan: Plan,
    moves: u64,
) -> Result<Plan, NoMemory>
    requires { IsPlanOf instance.now plan }
    ensures lawful { IfOk result (IsPlanOf instance.now) }
    ensures no_costlier { IfOk result (λ found. found.cost ≤ plan.cost) }
{
    let customers = instance.customers();
    if customers == 0 || customers > MOST_FOR_POPULATION || instance.trucks().is_some() {
        return Ok(plan);
    }
    let setting = Surroundings::new(crew.alloc, instance)?;
    evolved(crew, &setting, plan, Span::Moves(moves))
}

// The best of a plan and the plans that a round makes of it.
fn best_of_round<R: Threads + Sync, W: Watch + Sync>(
    crew: &Crew<'_, R, W>,
    instance: &Instance,
    setting: &Surroundings<'_>,
    round: Round,
    plan: Plan,
) -> Result<Plan, NoMemory>
    requires { IsPlanOf instance.now plan }
    ensures lawful { IfOk result (IsPlanOf instance.now) }
    ensures no_costlier { IfOk result (λ found. found.cost ≤ plan.cost) }
{
    let runs = run_all(crew, setting, round, plan.word())?;
    let mut best = plan;
    for run in runs {
        best = cheaper_plan(crew.alloc, instance, &run.word?, best)?;
    }
    Ok(best)
}
