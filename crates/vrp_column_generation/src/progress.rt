//! How far the passes have come: the arcs that are left, the best lower bound, and the last prices.
ghost use Rattle.std.specs.Prelude.{◌≡◌, IfOk, IfSome};
ghost use Rattle.std.specs.Option.{ForSome};
ghost use Rattle.vrp_column_generation.specs.Progress.{AreFor};
ghost use Rattle.vrp_duals.specs.Duals.{AreDualsOf};
ghost use Rattle.vrp_priced_routes.specs.Priced.{BoundsPlansIn};
ghost use Rattle.vrp_routes.specs.Pool.{IsPoolIn};
ghost use Rattle.vrp_routes.specs.Range.{IsPart};

use crate::guide::Prices;
use crate::leaf_prices::{LeafPrices, pool_of};
use std::alloc::Global;
use std::thread::Threads;
use vrp_duals::Duals;
use vrp_model::{Crew, CustomerSet, NoMemory, Watch};
use vrp_priced_routes::{AliveArcs, Pass, Passed, run_pass};
use vrp_routes::{PlanRange, RoutePool};

/// The arcs that plans in a range use, what each such plan costs at least, and the last final prices that a pass was made by.
#[derive(Drop)]
pub(crate) struct Progress<'a> {
    pub(crate) arcs: AliveArcs<'a>,
    pub(crate) bound: u64,
    duals: Option<Duals>,
    // How far below 0 a route may cost by them, in price units. Nothing rests on it.
    depth: u64,
    ghost bounds: { BoundsPlansIn arcs.problem arcs.range bound },
    ghost priced: { ForSome duals (AreDualsOf arcs.problem) },
}

/// What comes of a pass: the progress, and the pool of useful routes if a list was wanted and short enough.
#[derive(Drop)]
pub(crate) struct AfterPass<'a> {
    pub(crate) progress: Progress<'a>,
    pub(crate) pool: Option<RoutePool>,
}

/// What a pass may use.
#[derive(Clone, Copy, Debug)]
pub(crate) struct PassLimits {
    // How far below 0, in price units, the cost of a route is guessed to be.
    pub(crate) guess: u64,
    pub(crate) most_labels: usize,
    // The most labels of a list, 0 if none is wanted.
    pub(crate) most_listed: u32,
}

impl<'a> Progress<'a> {
    /// No pass yet.
    pub(crate) fn new(arcs: AliveArcs<'a>) -> Progress<'a>
        ensures { result.arcs ≡ arcs.entry }
    {
        Progress {
            arcs,
            bound: 0,
            duals: None,
            depth: 0,
        }
    }

    /// The same for a part of the plans, before a pass by prices of its own.
    pub(crate) fn part(&self, alloc: Global, range: PlanRange) -> Result<Progress<'a>, NoMemory>
        requires { IsPart range self.now.arcs.range }
        ensures { IfOk result (λ part. AreFor self.now.arcs.problem range part.arcs) }
    {
        Ok(Progress {
            arcs: self.arcs.part(alloc, range)?,
            bound: self.bound,
            duals: None,
            depth: 0,
        })
    }

    /// Makes a pass by these prices, where labels can remember these customers, and lists the routes after it if that is wanted. If the pass
    /// meets a limit, all is as before.
    pub(crate) fn pass<R: Threads + Sync, W: Watch + Sync>(
        self,
        crew: &Crew<'_, R, W>,
        duals: &Duals,
        near: &[CustomerSet],
        limits: PassLimits,
    ) -> Result<AfterPass<'a>, NoMemory>
        requires { AreDualsOf self.arcs.problem duals.now }
        ensures arcs { IfOk result (λ after. AreFor self.entry.arcs.problem self.entry.arcs.range after.progress.arcs) }
        ensures pool { IfOk result (λ after. IfSome after.pool (IsPoolIn self.entry.arcs.problem self.entry.arcs.range)) }
    {
        let passed = run_pass(
            crew,
            &self.arcs,
            duals,
            near,
            limits.guess,
            limits.most_labels,
        )?;
        let pass = match passed {
            Passed::Closed(pass) => pass,
            _ => {
                return Ok(AfterPass {
                    progress: self,
                    pool: None,
                });
            }
        };
        let Pass { arcs, labels } = pass;
        let lower_bound = labels.lower_bound();
        let bound = if lower_bound > self.bound {
            lower_bound
        } else {
            self.bound
        };
        let pool = if limits.most_listed == 0 {
            None
        } else {
            pool_of(crew, labels, limits.most_listed)?
        };
        let progress = Progress {
            arcs,
            bound,
            duals: self.duals,
            depth: self.depth,
        };
        Ok(AfterPass { progress, pool })
    }

    /// Keeps the prices of a pass, if they are final.
    pub(crate) fn keep(self, prices: Prices) -> Progress<'a>
        requires { AreDualsOf self.arcs.problem prices.duals }
        ensures { result.arcs ≡ self.entry.arcs }
    {
        if !prices.are_final {
            return self;
        }
        Progress {
            arcs: self.arcs,
            bound: self.bound,
            duals: Some(prices.duals),
            depth: prices.depth,
        }
    }

    /// The prices that were kept last.
    pub(crate) fn leaf_prices(self) -> Option<LeafPrices<'a>>
        ensures { IfSome result (λ prices. prices.arcs ≡ self.entry.arcs) }
    {
        let Progress {
            arcs,
            bound,
            duals,
            depth,
        } = self;
        match duals {
            Some(duals) => Some(LeafPrices::new(arcs, duals, bound, depth)),
            None => None,
        }
    }
}
