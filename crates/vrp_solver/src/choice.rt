//! The canonical plan as a choice among useful routes: the first of the cheapest choices.
ghost use Rattle.std.specs.Prelude.{◌≤◌, IfOk};
ghost use Rattle.vrp_canonical.specs.Ending.{IfBetter, IfBound, IfCanonical};
ghost use Rattle.vrp_model.specs.declared.customers.customer_set.TheConstants.{PLACES};
ghost use Rattle.vrp_model.specs.Cheapest.{NoneCheaper};
ghost use Rattle.vrp_model.specs.Order.{IsCanonical};
ghost use Rattle.vrp_model.specs.Problem.{place_count};
ghost use Rattle.vrp_model.specs.Route.{IsPlanOf};
ghost use Rattle.vrp_column_generation.specs.Pools.{ArePools};

use crate::stage_watch::{StageWatch, crew_of};
use crate::stages::share_of;
use std::thread::Threads;
use vrp_answer::{Event, Gate, Shared, Stage};
use vrp_canonical::{
    LeafGuides, LeafPool, RoutesOutcome, canonical_plan, canonical_plan_of_leaves,
};
use vrp_column_generation::{LastPrices, LeafPools, Pools};
use vrp_model::{Crew, Fleet, Instance, NoMemory, Plan, Watch, route_sets};
use vrp_simplex::ProgramGuide;

/// The first of the cheapest choices of pools, which were listed for a limit up to the cost of the known plan, by all workers, with the
/// prices of linear programs as their guide: of one pool, or of both leaves. The programs begin with the last prices of column generation,
/// if there are any. If no plan costs as little as the limit, the outcome's lower bound is above it.
pub(crate) fn chosen_plan<R: Threads + Sync, G: Gate + Sync>(
    shared: &Shared<'_, R, G>,
    pools: Pools,
    prices: Option<&LastPrices<'_>>,
    limit: u64,
    known: &Plan,
    workers: u32,
) -> Result<RoutesOutcome, NoMemory>
    requires few { place_count shared.now.problem ≤ PLACES }
    requires some_worker { 1 ≤ workers }
    requires few_workers { workers ≤ 64 }
    requires pools { ArePools shared.now.problem limit pools }
    ensures canonical { IfOk result (IfCanonical (IsCanonical shared.now.problem)) }
    ensures better { IfOk result (IfBetter (IsPlanOf shared.now.problem)) }
    ensures bound { IfOk result (IfBound (NoneCheaper shared.now.problem)) }
{
    shared
        .gate
        .on_event(Event::UsefulRoutes(pools.route_count() as u64));
    shared.gate.on_event(Event::Begins(Stage::Choice));
    let share = share_of(Stage::Choice, shared.instance.customers(), shared.budget);
    // The labels were taken from the same budget.
    let left = shared
        .budget_in_all()
        .saturating_sub(pools.label_count() as u64);
    let mut budget = share.work_for(left);
    let watch = StageWatch::of_stage(shared, Stage::Choice).within(limit);
    let crew = crew_of(shared, workers, &watch);
    let fleet = Fleet::of_instance(shared.alloc, shared.instance)?;
    let sets = route_sets(shared.alloc, known)?;
    let mut few = ProgramGuide::new(shared.alloc, fleet.lent(), sets.clone()?, &watch);
    let mut many = ProgramGuide::new(shared.alloc, fleet.lent(), sets, &watch);
    if let Some(prices) = prices {
        few.begin_with(prices.duals())?;
        many.begin_with(prices.other_duals().unwrap_or(prices.duals()))?;
    }
    let guides = LeafGuides {
        few: &few,
        many: &many,
    };
    let found = plan_among(&crew, shared.instance, pools, limit, guides, &mut budget);
    drop(few);
    drop(many);
    drop(fleet);
    found
}

// The canonical plan from pools.
fn plan_among<R: Threads + Sync, W: Watch + Sync>(
    crew: &Crew<'_, R, W>,
    instance: &Instance,
    pools: Pools,
    limit: u64,
    guides: LeafGuides<'_, ProgramGuide<'_, W>>,
    budget: &mut u64,
) -> Result<RoutesOutcome, NoMemory>
    requires few { place_count instance.now ≤ PLACES }
    requires pools { ArePools instance.now limit pools }
    ensures canonical { IfOk result (IfCanonical (IsCanonical instance.now)) }
    ensures better { IfOk result (IfBetter (IsPlanOf instance.now)) }
    ensures bound { IfOk result (IfBound (NoneCheaper instance.now)) }
{
    match pools {
        Pools::Whole(pool) => {
            let found = canonical_plan(crew, instance, &pool, limit, guides.few, budget);
            drop(pool);
            found
        }
        Pools::Leaves(LeafPools { leaves, few, many }) => {
            let few = LeafPool {
                range: leaves.few,
                pool: few,
            };
            let many = LeafPool {
                range: leaves.many,
                pool: many,
            };
            canonical_plan_of_leaves(crew, instance, few, many, limit, guides, budget)
        }
    }
}
