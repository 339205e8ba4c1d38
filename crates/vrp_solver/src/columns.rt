//! The canonical plan by column generation, for instances whose customers fit a set: dual prices of routes leave a pool of the routes that
//! may be in it, and the first of the cheapest choices among them is that plan.
ghost use Rattle.std.specs.Prelude.{◌≡◌, ◌≤◌, IfOk, IfSome};
ghost use Rattle.vrp_canonical.specs.Ending.{IfBetter, IfBound, IfCanonical};
ghost use Rattle.vrp_model.specs.declared.customers.customer_set.TheConstants.{PLACES};
ghost use Rattle.vrp_model.specs.Cheapest.{NoneCheaper, cost_of};
ghost use Rattle.vrp_model.specs.Order.{IsCanonical};
ghost use Rattle.vrp_model.specs.Problem.{Problem, place_count};
ghost use Rattle.vrp_model.specs.Route.{IsPlanOf};
ghost use Rattle.vrp_model.specs.declared.limits.TheConstants.{NO_COST};
ghost use Rattle.vrp_priced_routes.specs.Priced.{BoundsPlans};
ghost use Rattle.vrp_column_generation.specs.Pools.{ArePools};

use crate::cheaper_plans::cheaper_plan;
use crate::choice::chosen_plan;
use crate::guesses::plan_by_guesses;
use crate::look::LEAST_PREPARED_BUDGET;
use crate::stage_watch::{StageWatch, crew_of};
use crate::stages::{MANY_CUSTOMERS, share_of};
use std::alloc::Global;
use std::thread::Threads;
use vrp_answer::{Event, Gate, Shared, Stage};
use vrp_bound::LowerBound;
use vrp_canonical::RoutesOutcome;
use vrp_column_generation::{Generation, Settings, generate_routes};
use vrp_model::{Instance, NoMemory, Plan, canonical_is_cheapest, plans_cost_less};
use vrp_routes::can_list;

// The most labels of a pricing and of a pass: with more, a round takes too long.
const MOST_LABELS: usize = 3_000_000;

// The most routes that a list goes through, in labels: they take less than half a gigabyte.
const MOST_LISTED: u32 = 5_000_000;

// A list of so many labels takes about a second, and the choice among its routes two or three.
const ENOUGH_LISTED: u32 = 300_000;

// The rounds of column generation: as many as it takes.
const ALL_ROUNDS: u32 = 400;

// So many come before cheaper plans are sought, if there are many customers.
const FIRST_ROUNDS: u32 = 8;

// The most subset rows: each lengthens the closing of labels.
const MOST_ROWS: usize = 240;

// Two leaves are worth their time if the gap is so many thousandths of the known cost.
const WORTH_LEAVES: u16 = 3;

/// The canonical plan, by column generation, which begins with these routes of heuristic plans. It isn't found without a start plan, with a
/// budget below `LEAST_PREPARED_BUDGET`, or if a limit is met first: there are too many customers or labels, the budget is spent, or the gate
/// stops the search. Each label of a pricing, and each reduced cost that the choice looks at, counts as a partial plan. There are 1 to 64
/// workers. The only error is lack of memory.
pub(crate) fn plan_by_columns<R: Threads + Sync, G: Gate + Sync>(
    shared: &Shared<'_, R, G>,
    routes: &[Vec<u16>],
    workers: u32,
) -> Result<RoutesOutcome, NoMemory>
    requires some_worker { 1 ≤ workers }
    requires few_workers { workers ≤ 64 }
    ensures canonical { IfOk result (IfCanonical (IsCanonical shared.now.problem)) }
    ensures better { IfOk result (IfBetter (IsPlanOf shared.now.problem)) }
    ensures bound { IfOk result (IfBound (NoneCheaper shared.now.problem)) }
    ensures no_costlier { IfOk result (IfCanonical (λ plan. plan.cost ≤ cost_of shared.now.start_plan)) }
{
    let Some(known) = shared.start_plan else {
        return Ok(nothing());
    };
    if shared.budget < LEAST_PREPARED_BUDGET {
        return Ok(nothing());
    }
    canonical_is_cheapest();
    plan_from(shared, routes, workers, known)
}

// The canonical plan, sought with a known plan.
fn plan_from<R: Threads + Sync, G: Gate + Sync>(
    shared: &Shared<'_, R, G>,
    routes: &[Vec<u16>],
    workers: u32,
    known: &Plan,
) -> Result<RoutesOutcome, NoMemory>
    requires some_worker { 1 ≤ workers }
    requires few_workers { workers ≤ 64 }
    requires known { IsPlanOf shared.now.problem known.now }
    ensures canonical { IfOk result (IfCanonical (IsCanonical shared.now.problem)) }
    ensures better { IfOk result (IfBetter (IsPlanOf shared.now.problem)) }
    ensures bound { IfOk result (IfBound (NoneCheaper shared.now.problem)) }
{
    if !can_list(shared.instance) {
        return Ok(nothing());
    }
    // A plan costs less than none.
    plans_cost_less();
    let _customers = shared.instance.customers();
    let rounds = first_rounds(shared);
    let first = generated(shared, routes, workers, known, rounds)?;
    if first.pools.is_some() || has_later_stage(shared) {
        return chosen_from(shared, workers, known, known.cost(), first);
    }
    let known_again = known.copy(shared.alloc)?;
    let best = cheaper_plan(shared, workers, &first.routes, known_again)?;
    let outcome = chosen_again(shared, workers, known, &best, first);
    Ok(with_plan(outcome?, best))
}

// Whether cheaper plans are sought in a stage of their own.
fn has_later_stage<R, G: Gate>(shared: &Shared<'_, R, G>) -> bool {
    shared.instance.customers() >= MANY_CUSTOMERS && shared.gate.milliseconds_left().is_some()
}

// How many rounds come before cheaper plans are sought. With many customers a plan that is too dear makes each round longer.
fn first_rounds<R, G: Gate>(shared: &Shared<'_, R, G>) -> u32 {
    if shared.instance.customers() < MANY_CUSTOMERS || has_later_stage(shared) {
        ALL_ROUNDS
    } else {
        FIRST_ROUNDS
    }
}

// The canonical plan, sought with a plan that is as cheap as the known one, or cheaper. If it is cheaper, or rounds are left, column generation
// begins again from the routes that it found.
fn chosen_again<R: Threads + Sync, G: Gate + Sync>(
    shared: &Shared<'_, R, G>,
    workers: u32,
    known: &Plan,
    best: &Plan,
    first: Generation<'_>,
) -> Result<RoutesOutcome, NoMemory>
    requires few { place_count shared.now.problem ≤ PLACES }
    requires some_worker { 1 ≤ workers }
    requires few_workers { workers ≤ 64 }
    requires best { IsPlanOf shared.now.problem best.now }
    requires bound { BoundsPlans shared.now.problem known.now.cost first.bound }
    requires pools { IfSome first.pools (ArePools shared.now.problem known.now.cost) }
    requires prices { IfSome first.prices (λ prices. prices ≡ record { problem = shared.now.problem; limit = known.now.cost }) }
    ensures canonical { IfOk result (IfCanonical (IsCanonical shared.now.problem)) }
    ensures better { IfOk result (IfBetter (IsPlanOf shared.now.problem)) }
    ensures bound { IfOk result (IfBound (NoneCheaper shared.now.problem)) }
{
    if best.cost() >= known.cost() && first_rounds(shared) == ALL_ROUNDS {
        return chosen_from(shared, workers, best, known.cost(), first);
    }
    let bound = bound_on_all(shared.instance, known.cost(), first.bound);
    plans_cost_less();
    let _customers = shared.instance.customers();
    let again = generated(shared, &first.routes, workers, best, ALL_ROUNDS);
    drop(first);
    let outcome = chosen_from(shared, workers, best, best.cost(), again?)?;
    Ok(with_bound(outcome, bound))
}

// The canonical plan among the routes that column generation has left.
fn chosen_from<R: Threads + Sync, G: Gate + Sync>(
    shared: &Shared<'_, R, G>,
    workers: u32,
    known: &Plan,
    limit: u64,
    made: Generation<'_>,
) -> Result<RoutesOutcome, NoMemory>
    requires few { place_count shared.now.problem ≤ PLACES }
    requires some_worker { 1 ≤ workers }
    requires few_workers { workers ≤ 64 }
    requires bound { BoundsPlans shared.now.problem limit made.bound }
    requires pools { IfSome made.pools (ArePools shared.now.problem limit) }
    requires prices { IfSome made.prices (λ prices. prices ≡ record { problem = shared.now.problem; limit = limit }) }
    ensures canonical { IfOk result (IfCanonical (IsCanonical shared.now.problem)) }
    ensures better { IfOk result (IfBetter (IsPlanOf shared.now.problem)) }
    ensures bound { IfOk result (IfBound (NoneCheaper shared.now.problem)) }
{
    let Generation {
        bound,
        pools,
        prices,
        ..
    } = made;
    let bound = bound_on_all(shared.instance, limit, bound);
    shared
        .gate
        .on_event(Event::Bound(LowerBound::of_cost(bound)));
    if let Some(pools) = pools {
        let outcome = chosen_plan(shared, pools, prices.as_ref(), limit, known, workers);
        drop(prices);
        return Ok(with_bound(outcome?, bound));
    }
    match prices {
        Some(prices) => {
            let outcome = plan_by_guesses(shared, workers, known, &prices, limit, bound);
            drop(prices);
            outcome
        }
        None => Ok(RoutesOutcome::Unfinished {
            better: None,
            lower_bound: bound,
        }),
    }
}

// The outcome with the cheaper one of its better plan and this plan, if it is unfinished.
fn with_plan(outcome: RoutesOutcome, plan: Plan) -> RoutesOutcome
    ensures canonical { (p : Problem) → IfCanonical (IsCanonical p) outcome → IfCanonical (IsCanonical p) result }
    ensures better { (p : Problem) → IfBetter (IsPlanOf p) outcome → IsPlanOf p plan → IfBetter (IsPlanOf p) result }
    ensures bound { (p : Problem) → IfBound (NoneCheaper p) outcome → IfBound (NoneCheaper p) result }
{
    match outcome {
        RoutesOutcome::Canonical(canonical) => RoutesOutcome::Canonical(canonical),
        RoutesOutcome::Unfinished {
            better: Some(better),
            lower_bound,
        } if better.cost() <= plan.cost() => RoutesOutcome::Unfinished {
            better: Some(better),
            lower_bound,
        },
        RoutesOutcome::Unfinished { lower_bound, .. } => RoutesOutcome::Unfinished {
            better: Some(plan),
            lower_bound,
        },
    }
}

// A bound on all plans, from one on those that cost no more than a limit: it says nothing of the others.
fn bound_on_all(instance: &Instance, limit: u64, bound: u64) -> u64
    requires { BoundsPlans instance.now limit bound }
    ensures { NoneCheaper instance.now result }
{
    bound.min(limit)
}

// The outcome with the higher of its bound and this one, if it is unfinished.
fn with_bound(outcome: RoutesOutcome, bound: u64) -> RoutesOutcome
    ensures canonical { (p : Problem) → IfCanonical (IsCanonical p) outcome → IfCanonical (IsCanonical p) result }
    ensures better { (p : Problem) → IfBetter (IsPlanOf p) outcome → IfBetter (IsPlanOf p) result }
    ensures bound { (p : Problem) → IfBound (NoneCheaper p) outcome → NoneCheaper p bound → IfBound (NoneCheaper p) result }
{
    match outcome {
        RoutesOutcome::Canonical(plan) => RoutesOutcome::Canonical(plan),
        RoutesOutcome::Unfinished {
            better,
            lower_bound,
        } => RoutesOutcome::Unfinished {
            better,
            lower_bound: lower_bound.max(bound),
        },
    }
}

// Column generation for plans that cost no more than a known one, from its routes and these.
fn generated<'a, R: Threads + Sync, G: Gate + Sync>(
    shared: &Shared<'a, R, G>,
    routes: &[Vec<u16>],
    workers: u32,
    known: &Plan,
    most_rounds: u32,
) -> Result<Generation<'a>, NoMemory>
    requires few { place_count shared.now.problem ≤ PLACES }
    requires limit { known.now.cost ≤ NO_COST }
    requires some_worker { 1 ≤ workers }
    requires few_workers { workers ≤ 64 }
    ensures bound { IfOk result (λ made. BoundsPlans shared.now.problem known.now.cost made.bound) }
    ensures pools { IfOk result (λ made. IfSome made.pools (ArePools shared.now.problem known.now.cost)) }
    ensures prices { IfOk result (λ made. IfSome made.prices (λ prices. prices ≡ record { problem = shared.now.problem; limit = known.now.cost })) }
{
    shared.gate.on_event(Event::Begins(Stage::Columns));
    let settings = Settings {
        most_rounds,
        ..settings_of(shared)
    };
    let first = first_routes(shared.alloc, known, routes)?;
    let watch = StageWatch::of_stage(shared, Stage::Columns);
    let crew = crew_of(shared, workers, &watch);
    let made = generate_routes(&crew, shared.instance, known.cost(), &first, settings);
    drop(first);
    made
}

/// What column generation may use, and what is enough for it.
pub(crate) fn settings_of<R, G: Gate>(shared: &Shared<'_, R, G>) -> Settings {
    let share = share_of(Stage::Columns, shared.instance.customers(), shared.budget);
    Settings {
        most_rounds: ALL_ROUNDS,
        most_labels: MOST_LABELS,
        most_priced: share.work_for(shared.budget_in_all()),
        most_listed: MOST_LISTED,
        enough_listed: ENOUGH_LISTED,
        most_rows: MOST_ROWS,
        worth_leaves: WORTH_LEAVES,
    }
}

// The routes of a plan, and others.
fn first_routes(
    alloc: Global,
    plan: &Plan,
    others: &[Vec<u16>],
) -> Result<Vec<Vec<u16>>, NoMemory> {
    let mut routes = Vec::new(alloc);
    for index in 0..plan.routes() {
        routes.push(Vec::from_slice(alloc, plan.route(index))?)?;
    }
    for route in others {
        routes.push(Vec::from_slice(alloc, route)?)?;
    }
    Ok(routes)
}

// No plan was found, and nothing is known.
fn nothing() -> RoutesOutcome
    ensures canonical { IfCanonical (λ _. ⊥) result }
    ensures better { IfBetter (λ _. ⊥) result }
    ensures bound { IfBound (λ bound. bound ≡ 0) result }
{
    RoutesOutcome::Unfinished {
        better: None,
        lower_bound: 0,
    }
}
