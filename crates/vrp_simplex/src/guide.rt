//! The guide of a search: it answers with prices and with customers to branch on, by the linear program.
use crate::fixed_point::UNIT;
use crate::inherited::Inherited;
use crate::node::{NO_BOUND, Node};
use crate::program::RouteProgram;
use crate::progress::Progress;
use crate::scope::Scope;
use crate::start::{Start, first_program};
use std::alloc::{AllocError, Global};
use vrp_duals::Duals;
use vrp_model::{CustomerSet, FleetView, Watch};
use vrp_partition::{Guide, PriceOffer, Route, SCALE, Task};

/// A guide by the linear program over the routes of a node. It keeps its program from node to node; a watch may stop it.
#[derive(Debug, Drop)]
pub struct ProgramGuide<'a, W: Watch> {
    alloc: Global,
    fleet: FleetView<'a>,
    watch: &'a W,
    // The sets of routes that have columns from the start.
    known: Vec<CustomerSet>,
    program: Option<RouteProgram>,
    // The last offer.
    last: Option<Inherited>,
    progress: Progress,
}

impl<'a, W: Watch> ProgramGuide<'a, W> {
    /// A new guide. The routes of a known plan have columns from the start; they are given as sets of customers, and may be empty.
    pub fn new(alloc: Global, fleet: FleetView<'a>, known: Vec<CustomerSet>, watch: &'a W) -> Self {
        ProgramGuide {
            alloc,
            fleet,
            watch,
            known,
            program: None,
            last: None,
            progress: Progress::new(true),
        }
    }

    /// The guide begins with the prices and the rows that column generation left for the same routes.
    pub fn begin_with(&mut self, duals: &Duals) -> Result<(), AllocError> {
        self.last = Some(Inherited::of_duals(self.alloc, duals)?);
        Ok(())
    }

    /// The numbers of primal and dual steps of the program so far; no clause pins them.
    pub fn steps(&self) -> (u64, u64) {
        match &self.program {
            Some(program) => (program.primal_steps, program.dual_steps),
            None => (0, 0),
        }
    }

    // A node with the program over its pool.
    fn node(&mut self, pool: &[Route], task: &Task<'_>) -> Result<Node<'a, W>, AllocError> {
        let scope = Scope::of_task(task);
        let limit = task.incumbent.saturating_sub(1);
        let mut program = match self.program.take() {
            Some(program) if program.scope == scope => program,
            other => self.first_program(pool, task, other)?,
        };
        let names = program.align(pool)?;
        let (best, best_bound) = match self.last.take() {
            Some(last) if last.holds_for(&scope, pool.len()) => (Some(last.prices), last.bound),
            _ => (None, NO_BOUND),
        };
        Ok(Node {
            alloc: self.alloc,
            watch: self.watch,
            fleet: self.fleet,
            program,
            names,
            reduced: Vec::new(self.alloc),
            limit: i64::try_from(limit.saturating_mul(SCALE)).unwrap_or(i64::MAX / 4),
            progress: self.progress,
            best,
            best_bound,
            own_bound: NO_BOUND,
        })
    }

    // The first program over a pool, after one for another task.
    fn first_program(
        &mut self,
        pool: &[Route],
        task: &Task<'_>,
        other: Option<RouteProgram>,
    ) -> Result<RouteProgram, AllocError> {
        self.progress = Progress::new(true);
        let mut likely = match &other {
            Some(program) => program.used_sets()?,
            None => self.known.clone()?,
        };
        likely.sort_unstable();
        let last = self.last.as_ref();
        let likely = likely.as_slice();
        let start = Start {
            scope: Scope::of_task(task),
            pool,
            likely,
            last,
            limit: task.incumbent.saturating_sub(1),
        };
        first_program(self.alloc, &self.fleet, &start)
    }
}

impl<W: Watch> Guide for ProgramGuide<'_, W> {
    fn should_continue(&self) -> bool {
        self.watch.should_continue()
    }

    fn offer(&mut self, pool: &[Route], task: &Task<'_>) -> Result<PriceOffer, AllocError> {
        if pool.is_empty() {
            return PriceOffer::zeros(self.alloc);
        }
        if !self.progress.is_paused {
            self.progress = Progress::new(false);
        }
        let mut node = self.node(pool, task)?;
        let before = node.program.looked_at;
        node.run(pool)?;
        self.keep(node, before, pool.len())
    }

    fn group(&mut self, pool: &[Route]) -> Result<CustomerSet, AllocError> {
        match &self.program {
            // With an empty group the first branch has all routes, and the second none: the rounds continue with the routes that are left.
            Some(_) if self.progress.is_paused => Ok(CustomerSet::empty()),
            Some(program) => program.pair(pool),
            None => Ok(CustomerSet::empty()),
        }
    }

    fn fork(&self) -> Result<Self, AllocError> {
        let program = match &self.program {
            Some(program) if !self.progress.is_paused => Some(program.copy()?),
            _ => None,
        };
        let last = match &self.last {
            Some(last) => Some(last.clone()?),
            None => None,
        };
        Ok(ProgramGuide {
            alloc: self.alloc,
            fleet: self.fleet,
            watch: self.watch,
            known: self.known.clone()?,
            program,
            last,
            progress: Progress::new(false),
        })
    }
}

impl<'a, W: Watch> ProgramGuide<'a, W> {
    // Keeps a node's program and its prices for the next node, and offers the prices. A bound can't fall from a pool to a part of it: if the
    // program's bound did, the program is stuck, and the next node begins with a new one.
    fn keep(
        &mut self,
        node: Node<'a, W>,
        before: u64,
        count: usize,
    ) -> Result<PriceOffer, AllocError> {
        let Node {
            program,
            limit,
            progress,
            best,
            best_bound,
            own_bound,
            ..
        } = node;
        let work = program.looked_at.saturating_sub(before);
        let scope = program.scope;
        let is_stuck = own_bound < best_bound.saturating_sub(UNIT) && !progress.is_root;
        self.progress = progress;
        self.program = if is_stuck { None } else { Some(program) };
        let Some(prices) = best else {
            return PriceOffer::zeros(self.alloc);
        };
        let offer = prices.offer(self.alloc, work)?;
        // With a bound above the limit the search leaves the node; if it asks again, the bound was wrong.
        let bound = if best_bound > limit {
            NO_BOUND
        } else {
            best_bound
        };
        self.last = Some(Inherited {
            scope,
            count,
            bound,
            prices,
        });
        Ok(offer)
    }
}
