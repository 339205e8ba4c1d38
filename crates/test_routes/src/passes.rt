//! Pools of routes listed by dual prices.
ghost use Rattle.std.specs.Prelude.{◌≡◌};
ghost use Rattle.vrp_model.specs.Problem.{Problem};
ghost use Rattle.vrp_routes.specs.Listing.{IfPool};
ghost use Rattle.vrp_routes.specs.Pool.{IsPool, IsPoolIn};
ghost use Rattle.vrp_routes.specs.Range.{IsPart, plans_within};
ghost use Rattle.vrp_routes.specs.declared.plan_range.PlanRange.{PlanRange};

use std::alloc::Global;
use std::process::Abort;
use std::thread::Threads;
use vrp_canonical::LeafPool;
use vrp_duals::Duals;
use vrp_model::{Crew, Instance, NO_COST, Unhurried};
use vrp_priced_routes::{AliveArcs, Pass, Passed, nearest_sets, run_pass};
use vrp_routes::{Listed, PlanRange, RoutePool, can_list};

// More labels than those of the small instances here.
const MOST_LABELS: usize = 1_000_000;

/// The dual prices of an instance: the price units in a unit of cost, and the price of each place, the depot's 0 first. Then the number of
/// near customers that a label can remember, and the number of workers.
#[derive(Clone, Copy)]
pub(crate) struct Setup<'a> {
    pub(crate) scale: u32,
    pub(crate) prices: &'a [i64],
    pub(crate) near: usize,
    pub(crate) workers: u16,
}

/// The pool that one pass gives, for plans that cost no more than a limit.
pub(crate) fn pool_by_pass<R: Abort + Threads + Sync>(
    rt: &R,
    alloc: Global,
    instance: &Instance,
    setup: Setup<'_>,
    limit: u64,
) -> RoutePool
    ensures { IsPool instance.now limit result }
{
    assert!(rt; can_list(instance) && limit <= NO_COST);
    let arcs = AliveArcs::all(alloc, instance, limit).expect(rt, "memory");
    pool_along(rt, alloc, setup, &arcs)
}

/// The pool of one leaf that one pass gives, for plans that cost no more than a limit.
pub(crate) fn leaf_by_pass<R: Abort + Threads + Sync>(
    rt: &R,
    alloc: Global,
    instance: &Instance,
    setup: Setup<'_>,
    limit: u64,
    range: PlanRange,
) -> LeafPool
    requires { IsPart range (plans_within limit) }
    ensures range { result.range ≡ range }
    ensures pool { IsPoolIn instance.now range result.pool }
{
    assert!(rt; can_list(instance) && limit <= NO_COST);
    let arcs = AliveArcs::all(alloc, instance, limit).expect(rt, "memory");
    let part = arcs.part(alloc, range).expect(rt, "memory");
    let pool = pool_along(rt, alloc, setup, &part);
    LeafPool { range, pool }
}

// The pool that one pass along these arcs gives.
fn pool_along<R: Abort + Threads + Sync>(
    rt: &R,
    alloc: Global,
    setup: Setup<'_>,
    arcs: &AliveArcs<'_>,
) -> RoutePool
    ensures { IsPoolIn arcs.now.problem arcs.now.range result }
{
    let Setup {
        scale,
        prices,
        near,
        workers,
    } = setup;
    let instance = arcs.instance();
    assert!(rt; can_list(instance) && 0 < workers);
    let prices = Vec::from_slice(alloc, prices).expect(rt, "memory");
    let made = Duals::new(instance, scale, prices, Vec::new(alloc), Vec::new(alloc));
    let duals = made.expect(rt, "prices");
    let sets = nearest_sets(alloc, instance, near).expect(rt, "memory");
    let crew = Crew {
        rt,
        alloc,
        workers,
        watch: &Unhurried,
    };
    let passed = run_pass(&crew, arcs, &duals, &sets, 0, MOST_LABELS).expect(rt, "memory");
    let Passed::Closed(pass) = passed else {
        panic!(rt; "no pass")
    };
    let Pass { arcs: _, labels } = pass;
    let listed = labels.list_routes(&crew, u32::MAX).expect(rt, "memory");
    pool_of(rt, listed)
}

/// The pool, if no limit was met.
pub(crate) fn pool_of(rt: &impl Abort, listed: Listed) -> RoutePool
    ensures { (p : Problem) (range : PlanRange) → IfPool listed (IsPoolIn p range) → IsPoolIn p range result }
{
    match listed {
        Listed::Pool(pool) => pool,
        Listed::Met(limit) => panic!(rt; "{limit:?} was met"),
    }
}
