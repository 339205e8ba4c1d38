//! The heuristic plan: the best of the plan by savings and the plans that runs of ruin and recreate make of it.
ghost use Rattle.std.specs.Prelude.{IfOk, IfSome};
ghost use Rattle.vrp_model.specs.Route.{IsPlanOf};

use crate::recombined::{BUDGET, distinct_routes, recombined, some_routes};
use crate::runs::{Round, Run, run_all};
use crate::savings::savings_plan;
use crate::surroundings::Surroundings;
use crate::threshold::{Length, Threshold};
use std::alloc::Global;
use std::thread::Threads;
use vrp_model::{Crew, Instance, MOST_CUSTOMERS, NoMemory, Plan, Watch};
use vrp_search_tree::{cheaper_plan, lawful_plan};

/// With this many moves a run finds the cheapest plan of most instances of some 60 customers.
pub const ENOUGH_MOVES: u32 = 20_000;

const RUNS: u16 = 4;

// The number of runs with more than enough moves and not many customers, which are requested if each unit of cost counts.
const RUNS_OF_MORE: u16 = 8;

// The number of the first run. With these numbers the runs end well on the instances that the method was tuned on.
const FIRST_RUN: u64 = 49;

// From this many customers on there are four runs of twice as many moves, and routes aren't recombined.
const MANY_CUSTOMERS: u16 = 126;

// The most symbols of routes that a run gathers: mostly all that it finds.
const MOST_GATHERED: usize = 1 << 20;

/// The average number of positions that a run looks at for each move, at most.
const POSITIONS_A_MOVE: u64 = 2_000;

/// What a search for a near-optimal plan finds.
#[derive(Debug, Drop)]
pub struct HeuristicPlan {
    /// The best plan, if there is one.
    pub plan: Option<Plan>,
    /// The stops of some routes of good plans that were found on the way, no two with the same customers. No clause pins them.
    pub routes: Vec<Vec<u16>>,
}

/// A near-optimal plan by ruin and recreate (Christiaens and Vanden Berghe 2020). A move removes strings of customers from a few nearby
/// routes and puts each customer back where it costs least. The new plan is kept if it costs less than the last one plus a threshold,
/// which falls to 0. There are four runs of this many moves, and eight if that is more than `ENOUGH_MOVES`; with 126 customers and more
/// there are four runs of twice as many moves in any case. There are fewer moves if they look at more than 2,000 positions on average.
/// Each run starts from the plan by savings, and the workers share the runs. The answer is the best of all these plans, by cost and then
/// by word. It is the same at each call and for any number of workers, unless the watch stops the runs; the watch is asked before each
/// 16th move, and hears of each cheaper cost.
///
/// With more than `ENOUGH_MOVES` and at most 255 customers, the routes of good plans are gathered too. With fewer than 126 customers the
/// cheapest plan over these routes is taken if it costs less, as far as a search of a few seconds finds it.
///
/// With a limit on trucks no route is opened beyond it. If savings find no plan within the limit, the runs start with nobody served;
/// customers without a place are tried again in each move, and a move that leaves more of them unserved is undone.
///
/// There is no plan if no feasible one was found. The contract leaves open which feasible plan is answered, and when there is none.
pub fn heuristic_plan<R: Threads + Sync, W: Watch + Sync>(
    crew: &Crew<'_, R, W>,
    instance: &Instance,
    moves: u32,
) -> Result<HeuristicPlan, NoMemory>
    ensures { IfOk result (λ found. IfSome found.plan (IsPlanOf instance.now)) }
{
    let best = savings_plan(crew.alloc, instance)?;
    if moves == 0 || instance.customers() == 0 {
        return Ok(HeuristicPlan {
            plan: best,
            routes: Vec::new(crew.alloc),
        });
    }
    let setting = Surroundings::new(crew.alloc, instance)?;
    let round = round_of(instance, moves);
    best_of_round(crew, instance, &setting, round, best)
}

// The runs for this many moves.
fn round_of(instance: &Instance, moves: u32) -> Round {
    let many = instance.customers() >= MANY_CUSTOMERS;
    let wants_more = moves > ENOUGH_MOVES;
    let gathers = wants_more && instance.customers() <= MOST_CUSTOMERS;
    let moves = u64::from(moves) * if many { 2 } else { 1 };
    Round {
        first: FIRST_RUN,
        runs: if wants_more && !many {
            RUNS_OF_MORE
        } else {
            RUNS
        },
        threshold: Threshold {
            start: first_threshold(instance),
            length: Length::Work {
                moves,
                positions: moves * POSITIONS_A_MOVE,
            },
        },
        gathers: if gathers { MOST_GATHERED } else { 0 },
        recombines: wants_more && !many,
    }
}

// The best of a plan, if there is one, of the plans that a round makes of it, and of a plan over the routes gathered meanwhile.
fn best_of_round<R: Threads + Sync, W: Watch + Sync>(
    crew: &Crew<'_, R, W>,
    instance: &Instance,
    setting: &Surroundings<'_>,
    round: Round,
    plan: Option<Plan>,
) -> Result<HeuristicPlan, NoMemory>
    requires { IfSome plan (IsPlanOf instance.now) }
    ensures { IfOk result (λ found. IfSome found.plan (IsPlanOf instance.now)) }
{
    let word = match &plan {
        Some(plan) => plan.word(),
        None => &[],
    };
    let runs = run_all(crew, setting, round, word)?;
    let mut best = plan;
    let mut gathered = Vec::new(crew.alloc);
    for run in runs {
        let Run {
            word,
            gathered: routes,
            ..
        } = run;
        gathered.extend_from_slice(routes.word())?;
        best = better(crew.alloc, instance, &word?, best)?;
    }
    with_routes(crew, instance, &gathered, best)
}

// The best plan so far or a cheaper one over gathered routes, and some of these routes.
fn with_routes<R: Threads + Sync, W: Watch + Sync>(
    crew: &Crew<'_, R, W>,
    instance: &Instance,
    gathered: &[u16],
    best: Option<Plan>,
) -> Result<HeuristicPlan, NoMemory>
    requires { IfSome best (IsPlanOf instance.now) }
    ensures { IfOk result (λ found. IfSome found.plan (IsPlanOf instance.now)) }
{
    let listed = distinct_routes(crew.alloc, instance, gathered)?;
    let routes = some_routes(crew.alloc, gathered, &listed)?;
    let plan = match best {
        Some(plan) if instance.customers() < MANY_CUSTOMERS => Some(recombined(
            crew, instance, gathered, &listed, plan, BUDGET,
        )?),
        other => other,
    };
    Ok(HeuristicPlan { plan, routes })
}

// The plan of a word if it is before the best so far, otherwise that one.
fn better(
    alloc: Global,
    instance: &Instance,
    word: &[u16],
    best: Option<Plan>,
) -> Result<Option<Plan>, NoMemory>
    requires { IfSome best (IsPlanOf instance.now) }
    ensures { IfOk result (λ plan. IfSome plan (IsPlanOf instance.now)) }
{
    match best {
        None => Ok(lawful_plan(alloc, instance, word)?),
        Some(best) => Ok(Some(cheaper_plan(alloc, instance, word, best)?)),
    }
}

/// The threshold of the first move: a third of the average cost of a route to one customer, or less with many customers.
pub(crate) fn first_threshold(instance: &Instance) -> u64 {
    let customers = instance.customers();
    let mut arcs: u64 = 0;
    for customer in 1..customers + 1 {
        let there = instance.weight(0, customer);
        arcs = arcs.saturating_add(there + instance.weight(customer, 0));
    }
    let parts = 3 + u64::from(customers) / 60;
    (arcs / (u64::from(customers).max(1) * parts)).max(1)
}
