//! Plans found from the pool listed for a limit.

use crate::guides::Answering;
use crate::passes::{Setup, leaf_by_pass, pool_by_pass};
use std::alloc::Global;
use std::process::Abort;
use std::thread::Threads;
use vrp_canonical::{LeafGuides, RoutesOutcome, canonical_plan, canonical_plan_of_leaves};
use vrp_model::{Crew, Instance, NO_COST, NoMemory};
use vrp_partition::Guide;
use vrp_routes::{PlanRange, can_list};

/// The effort that a search may spend.
#[derive(Clone, Copy)]
pub(crate) struct Effort {
    pub(crate) watch: Answering,
    pub(crate) budget: u64,
}

/// More than a search among the routes of small instances needs.
pub(crate) const UNHURRIED: Effort = Effort {
    watch: Answering {
        should_continue: true,
    },
    budget: 1_000_000,
};

/// The result of two workers for a limit, with this guide and effort. The routes are listed by prices of 0.
pub(crate) fn found_plan<R: Abort + Threads + Sync, P: Guide + Send>(
    rt: &R,
    alloc: Global,
    instance: &Instance,
    limit: u64,
    guide: &P,
    effort: Effort,
) -> Result<RoutesOutcome, NoMemory> {
    assert!(rt; can_list(instance));
    let prices = vec![in alloc; 0i64; usize::from(instance.customers()) + 1]?;
    let setup = Setup {
        scale: 1,
        prices: &prices,
        near: 2,
        workers: 2,
    };
    let pool = pool_by_pass(rt, alloc, instance, setup, limit);
    let mut left = effort.budget;
    let crew = Crew {
        rt,
        alloc,
        workers: 2,
        watch: &effort.watch,
    };
    canonical_plan(&crew, instance, &pool, limit, guide, &mut left)
}

/// The same where the plans with at most so many routes are one leaf, and those with more another.
pub(crate) fn found_by_leaf<R: Abort + Threads + Sync, P: Guide + Send>(
    rt: &R,
    alloc: Global,
    instance: &Instance,
    limit: u64,
    fewer: u16,
    guide: &P,
) -> Result<RoutesOutcome, NoMemory> {
    assert!(rt; can_list(instance) && limit <= NO_COST);
    let prices = vec![in alloc; 0i64; usize::from(instance.customers()) + 1]?;
    let setup = Setup {
        scale: 1,
        prices: &prices,
        near: 2,
        workers: 2,
    };
    let leaves = PlanRange::within(limit).split(fewer);
    let few = leaf_by_pass(rt, alloc, instance, setup, limit, leaves.few);
    let many = leaf_by_pass(rt, alloc, instance, setup, limit, leaves.many);
    let mut left = UNHURRIED.budget;
    let crew = Crew {
        rt,
        alloc,
        workers: 2,
        watch: &UNHURRIED.watch,
    };
    let guides = LeafGuides {
        few: guide,
        many: guide,
    };
    canonical_plan_of_leaves(&crew, instance, few, many, limit, guides, &mut left)
}
