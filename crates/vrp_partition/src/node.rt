//! A node of the search: its routes, a guide for them, and the outcome of a look at it.
ghost use Rattle.std.specs.Prelude.{◌≡◌, ◌≤◌, ◌^◌, [], IfOk, length};
ghost use Rattle.vrp_partition.specs.Branching.{AreLeftBranches, CanLook, IsEnd, IsLookedAt, IsUnlooked};
ghost use Rattle.vrp_partition.specs.Outcome.{IsLeft};
ghost use Rattle.vrp_partition.specs.Prices.{AllFit};

use crate::bounding::{Chosen, NodeOutcome, OpenRoutes, price_node};
use crate::guide::Guide;
use crate::pool::{apart, together};
use crate::route::Route;
use crate::task::Task;
use std::alloc::{AllocError, Global};
use std::marker::Model;

/// The outcome of a node: it is solved, or it is branched on.
#[derive(Drop)]
pub(crate) enum NodeEnd {
    Solved(Chosen),
    Branched(Branches),
}

/// The routes of both branches, and a lower bound on each choice of the node.
#[derive(Drop)]
pub(crate) struct Branches {
    // One route serves a group of customers together.
    pub joint: Vec<Route>,
    // No route does.
    pub parted: Vec<Route>,
    pub lower_bound: u64,
}

/// A node of the search.
#[derive(Drop)]
pub(crate) struct Node<P: Guide> {
    pub pool: Vec<Route>,
    // A lower bound on each choice of the pool.
    pub lower_bound: u64,
    pub guide: P,
    // An error before the node is looked at.
    pub end: Result<NodeEnd, AllocError>,
    // The guide of the second branch, if there is one.
    pub other: Option<P>,
    // The work of the guide.
    pub work: u64,
}

impl<P: Guide> Model for Node<P> {
    ghost use Rattle.vrp_partition.specs.Branching.{NodeState};

    ghost Value = { NodeState };

    ghost view = { λ n. record { pool = n.pool.items; lower_bound = n.lower_bound; end = n.end } };
}

impl<P: Guide> Node<P> {
    /// A new node, not looked at yet.
    pub(crate) fn new(pool: Vec<Route>, lower_bound: u64, guide: P) -> Self
        ensures { IsUnlooked pool.items lower_bound result }
    {
        Node {
            pool,
            lower_bound,
            guide,
            end: Err(AllocError),
            other: None,
            work: 0,
        }
    }

    /// Looks at the node. If memory is refused, its outcome is that error.
    pub(crate) fn look(&mut self, alloc: Global, task: &Task<'_>)
        requires { CanLook task.now self.old }
        ensures { IsLookedAt task.now self.old self.new }
    {
        self.end = self.bounded(alloc, task);
    }

    // The outcome of the node by the guide's prices.
    fn bounded(&mut self, alloc: Global, task: &Task<'_>) -> Result<NodeEnd, AllocError>
        requires { CanLook task.now self.old }
        ensures pool { self.new.pool ≡ self.old.pool }
        ensures bound { self.new.lower_bound ≡ self.old.lower_bound }
        ensures end { IfOk result (IsEnd self.old.pool task.now.customers task.now.fleet.trucks task.now.least_routes task.now.incumbent) }
    {
        let offer = self.guide.offer(self.pool.as_slice(), task)?;
        self.work = offer.work;
        let outcome = price_node(alloc, offer, task, self.pool.as_slice())?;
        match outcome {
            NodeOutcome::Solved(chosen) => Ok(NodeEnd::Solved(chosen)),
            NodeOutcome::Open(left) => Ok(NodeEnd::Branched(self.branches(alloc, left)?)),
        }
    }

    // The branches of the routes that are left, by the group that the guide chooses.
    fn branches(&mut self, alloc: Global, left: OpenRoutes) -> Result<Branches, AllocError>
        ensures pool { self.new.pool ≡ self.old.pool }
        ensures bound { self.new.lower_bound ≡ self.old.lower_bound }
        ensures branches { IfOk result (AreLeftBranches left) }
    {
        let routes = left.routes.as_slice();
        let group = self.guide.group(routes)?;
        let joint = together(alloc, routes, group)?;
        let parted = apart(alloc, routes, group)?;
        self.other = Some(self.guide.fork()?);
        Ok(Branches {
            joint,
            parted,
            lower_bound: left.lower_bound,
        })
    }
}
