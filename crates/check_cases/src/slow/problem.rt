//! The problem that a file states.

use crate::slow::fault::Fault;
use crate::slow::weights::{Weights, find};

/// The statements of a file. The first of the depots is the one used.
#[derive(Debug, Drop)]
pub(crate) struct Problem {
    pub nodes: i64,
    pub capacity: i64,
    /// Each node, and its demand.
    pub demands: Vec<(i64, i64)>,
    pub depots: Vec<i64>,
    pub weights: Weights,
    /// The number of trucks; `None` for no limit. No file states it.
    pub trucks: Option<u16>,
}

impl Problem {
    /// The demand of a node.
    pub(crate) fn demand(&self, node: i64) -> i64 {
        find(&self.demands, node).unwrap_or(0)
    }

    /// Whether a node is one of the depots.
    pub(crate) fn is_depot(&self, node: i64) -> bool {
        self.depots.iter().any(|depot| *depot == node)
    }

    /// The depot from which the trucks start.
    pub(crate) fn depot(&self) -> i64 {
        self.depots.first().copied().unwrap_or(0)
    }

    /// Whether there are trucks for this many routes.
    pub(crate) fn has_trucks_for(&self, routes: usize) -> bool {
        self.trucks
            .is_none_or(|trucks| routes <= usize::from(trucks))
    }

    /// The lowest depot with a demand, or else the lowest customer who demands more than the capacity.
    pub(crate) fn fault(&self) -> Option<Fault> {
        for node in 1..=self.nodes {
            if self.is_depot(node) && self.demand(node) != 0 {
                return Some(Fault::DepotDemand(node));
            }
        }
        for node in 1..=self.nodes {
            if !self.is_depot(node) && self.demand(node) > self.capacity {
                return Some(Fault::DemandOverCapacity(node));
            }
        }
        None
    }
}
