//! From an instance and a limit on the cost of a plan to a pool of its useful routes, or to prices that list them for lower limits.
ghost use Rattle.std.specs.Prelude.{◌≡◌, ◌≤◌, IfOk, IfSome, None};
ghost use Rattle.vrp_model.specs.declared.customers.customer_set.TheConstants.{PLACES};
ghost use Rattle.vrp_model.specs.Problem.{Problem, place_count};
ghost use Rattle.vrp_model.specs.declared.limits.TheConstants.{NO_COST};
ghost use Rattle.vrp_priced_routes.specs.Priced.{BoundsPlans, BoundsPlansIn};
ghost use Rattle.vrp_column_generation.specs.Pools.{ArePools};
ghost use Rattle.vrp_routes.specs.Pool.{IsPool};
ghost use Rattle.vrp_routes.specs.Range.{plans_within};

use crate::guide::{Guide, Settings};
use crate::last_prices::LastPrices;
use crate::leaves::generate_leaves;
use crate::pools::Pools;
use crate::progress::Progress;
use crate::rounds::{AfterRounds, RoundLimits, run_rounds};
use std::thread::Threads;
use vrp_duals::MAX_SCALE;
use vrp_model::{Crew, CustomerSet, Instance, NoMemory, Watch};
use vrp_priced_routes::{AliveArcs, nearest_sets};
use vrp_routes::RoutePool;

/// What column generation leaves.
#[derive(Drop)]
pub struct Generation<'a> {
    /// No feasible plan within the limit costs less.
    pub bound: u64,
    /// The routes that may be in the canonical plan, if that costs no more than the limit: there if their list is short.
    pub pools: Option<Pools>,
    /// The last prices: a choice among the pools begins with them, and without pools they list the routes for lower limits. None if no pass
    /// was made by final prices: the caller stopped it, a limit was met, or pricing can't use the instance's demands.
    pub prices: Option<LastPrices<'a>>,
    /// The stops of the program's routes, from which column generation may begin again. A route may visit a customer twice. No clause pins
    /// them.
    pub routes: Vec<Vec<u16>>,
}

// The number of customers that a label remembers at most.
const NEAR: usize = 8;

// The cost of a plan is at most this many price units: 2 ^ 26.
const MOST_UNITS: u64 = 67_108_864;

// The number of price units in a unit of cost.
fn scale_for(limit: u64) -> u32 {
    let fits = (MOST_UNITS / limit.max(1)).clamp(1, u64::from(MAX_SCALE));
    fits as u32
}

/// Finds dual prices of an instance by column generation, makes passes by them, and lists the routes after the last one: those that may be in
/// the canonical plan, if that costs no more than the limit. Where their list would be long, it leaves the prices. Where the number of routes
/// in a solution isn't whole, it branches: plans with fewer routes and plans with more get prices of their own. The program begins with
/// `routes`, those of heuristic plans. The contract leaves open how high the bound is, and whether there are pools or prices. The only error
/// is lack of memory.
pub fn generate_routes<'a, R: Threads + Sync, W: Watch + Sync>(
    crew: &Crew<'_, R, W>,
    instance: &'a Instance,
    limit: u64,
    routes: &[Vec<u16>],
    settings: Settings,
) -> Result<Generation<'a>, NoMemory>
    requires few { place_count instance.now ≤ PLACES }
    requires limit { limit ≤ NO_COST }
    ensures bound { IfOk result (λ made. BoundsPlans instance.now limit made.bound) }
    ensures pools { IfOk result (λ made. IfSome made.pools (ArePools instance.now limit)) }
    ensures prices { IfOk result (λ made. IfSome made.prices (λ prices. prices ≡ record { problem = instance.now; limit = limit })) }
{
    let alloc = crew.alloc;
    let near = nearest_sets(alloc, instance, NEAR)?;
    let scale = scale_for(limit);
    let arcs = AliveArcs::all(alloc, instance, limit)?;
    let guide = Guide::new(alloc, instance, scale, limit, &near, routes, settings)?;
    let Some(mut guide) = guide else {
        drop(arcs);
        return Ok(Generation {
            bound: 0,
            pools: None,
            prices: None,
            routes: Vec::new(alloc),
        });
    };
    guide.limit_trucks(instance)?;
    let made = generate(crew, instance, arcs, &mut guide, near);
    drop(guide);
    made
}

// What column generation by this guide leaves, along these arcs.
fn generate<'a, R: Threads + Sync, W: Watch + Sync>(
    crew: &Crew<'_, R, W>,
    instance: &'a Instance,
    arcs: AliveArcs<'a>,
    guide: &mut Guide,
    near: Vec<CustomerSet>,
) -> Result<Generation<'a>, NoMemory>
    requires few { place_count instance.now ≤ PLACES }
    requires problem { arcs.problem ≡ instance.now }
    requires all { arcs.range ≡ plans_within arcs.range.limit }
    ensures bound { IfOk result (λ made. BoundsPlansIn arcs.entry.problem arcs.entry.range made.bound) }
    ensures pools { IfOk result (λ made. IfSome made.pools (ArePools arcs.entry.problem arcs.entry.range.limit)) }
    ensures prices { IfOk result (λ made. IfSome made.prices (λ prices.
        prices ≡ record { problem = arcs.entry.problem; limit = arcs.entry.range.limit })) }
{
    let limits = RoundLimits::of_root(guide.most_rounds());
    let last = run_rounds(crew, instance, Progress::new(arcs), guide, &near, limits)?;
    let AfterRounds {
        progress,
        pool,
        branch,
    } = last;
    match branch {
        Some(fewer) => {
            drop(pool);
            generate_leaves(crew, instance, progress, guide, near, fewer)
        }
        None => {
            let routes = guide.routes()?;
            Ok(progress.generation(pool, near, routes))
        }
    }
}

impl<'a> Progress<'a> {
    /// What column generation leaves after the last pass: the pool, or the last prices with the ng-sets of a pass by them.
    pub(crate) fn generation(
        self,
        pool: Option<RoutePool>,
        near: Vec<CustomerSet>,
        routes: Vec<Vec<u16>>,
    ) -> Generation<'a>
        requires { self.arcs.range ≡ plans_within self.arcs.range.limit }
        ensures bound { BoundsPlansIn self.entry.arcs.problem self.entry.arcs.range result.bound }
        ensures pools { (p : Problem) → IfSome pool (IsPool p self.entry.arcs.range.limit) → IfSome result.pools (ArePools p self.entry.arcs.range.limit) }
        ensures prices { IfSome result.prices (λ prices.
            prices ≡ record { problem = self.entry.arcs.problem; limit = self.entry.arcs.range.limit }) }
    {
        let bound = self.bound;
        let pools = match pool {
            Some(pool) => Some(Pools::Whole(pool)),
            None => None,
        };
        let prices = match self.leaf_prices() {
            Some(leaf) => Some(LastPrices::new(leaf, None, near)),
            None => None,
        };
        Generation {
            bound,
            pools,
            prices,
            routes,
        }
    }
}
