//! The last prices of one leaf: of plans in a range.
ghost use Rattle.std.specs.Prelude.{◌≡◌, ◌≤◌, IfOk, IfSome};
ghost use Rattle.vrp_duals.specs.Duals.{AreDualsOf};
ghost use Rattle.vrp_priced_routes.specs.Priced.{BoundsPlansIn};
ghost use Rattle.vrp_routes.specs.Pool.{IsPoolIn};

use crate::guide::Settings;
use std::thread::Threads;
use vrp_duals::Duals;
use vrp_model::{Crew, CustomerSet, NoMemory, Watch};
use vrp_priced_routes::{AliveArcs, Passed, PricedLabels, run_pass};
use vrp_routes::{Listed, PlanRange, RoutePool};

/// Dual prices, the arcs that plans in the range use, and what each such plan costs at least.
#[derive(Drop)]
pub(crate) struct LeafPrices<'a> {
    pub(crate) arcs: AliveArcs<'a>,
    duals: Duals,
    bound: u64,
    // How far below 0, in price units, the cost of a route is guessed to be.
    guess: u64,
    ghost priced: { AreDualsOf arcs.problem duals },
    ghost bounds: { BoundsPlansIn arcs.problem arcs.range bound },
}

impl<'a> LeafPrices<'a> {
    /// The prices for arcs, a bound, and a guess of how far below 0 the cost of a route may be.
    pub(crate) fn new(arcs: AliveArcs<'a>, duals: Duals, bound: u64, guess: u64) -> LeafPrices<'a>
        requires duals { AreDualsOf arcs.problem duals }
        requires bound { BoundsPlansIn arcs.problem arcs.range bound }
        ensures { result.arcs ≡ arcs.entry }
    {
        LeafPrices {
            arcs,
            duals,
            bound,
            guess,
        }
    }

    /// The prices.
    pub(crate) fn duals(&self) -> &Duals {
        &self.duals
    }

    /// The plans of the leaf that cost no more than this.
    pub(crate) fn range_within(&self, limit: u64) -> PlanRange
        ensures { result ≡ record self.now.arcs.range { limit = limit } }
    {
        PlanRange {
            limit,
            ..self.arcs.range()
        }
    }

    /// The routes that may be in the canonical plan, if that is in the range and costs no more than this: by a pass along the arcs that are
    /// left, where labels can remember these customers. None if a limit on labels is met or the crew's watch stops it.
    pub(crate) fn routes_within<R: Threads + Sync, W: Watch + Sync>(
        &self,
        crew: &Crew<'_, R, W>,
        limit: u64,
        near: &[CustomerSet],
        settings: Settings,
    ) -> Result<Option<RoutePool>, NoMemory>
        requires { limit ≤ self.now.arcs.range.limit }
        ensures { IfOk result (λ pool. IfSome pool (IsPoolIn self.now.arcs.problem (record self.now.arcs.range { limit = limit }))) }
    {
        if limit < self.bound {
            return Ok(Some(RoutePool::empty(crew.alloc)));
        }
        let arcs = self.arcs.part(crew.alloc, self.range_within(limit))?;
        let passed = run_pass(
            crew,
            &arcs,
            &self.duals,
            near,
            self.guess,
            settings.most_labels,
        )?;
        match passed {
            Passed::Closed(pass) => pool_of(crew, pass.labels, settings.most_listed),
            _ => Ok(None),
        }
    }
}

/// The list of the labels' routes, if it has no more labels than this.
pub(crate) fn pool_of<R: Threads + Sync, W: Watch + Sync>(
    crew: &Crew<'_, R, W>,
    labels: PricedLabels<'_, '_>,
    most_listed: u32,
) -> Result<Option<RoutePool>, NoMemory>
    ensures { IfOk result (λ pool. IfSome pool (IsPoolIn labels.entry.priced.problem labels.entry.priced.range)) }
{
    match labels.list_routes(crew, most_listed)? {
        Listed::Pool(pool) => Ok(Some(pool)),
        Listed::Met(_) => Ok(None),
    }
}
