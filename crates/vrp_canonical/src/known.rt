//! The known choice: it answers a question by itself if it is in the part.
ghost use Rattle.std.specs.Prelude.{IfOk, IsTrue};
ghost use Rattle.std.specs.List.{Contains};
ghost use Rattle.vrp_canonical.specs.Reaching.{Reaches};

use crate::residual::Residual;
use std::alloc::{AllocError, Global};
use vrp_model::CustomerSet;
use vrp_partition::Route;

/// Whether routes are a choice of the part for the residual problem. `false` claims nothing.
pub fn is_choice(part: &[Route], routes: &[Route], rest: &Residual) -> bool
    ensures { IsTrue result → Reaches part.now rest.now.unserved rest.now.trucks rest.now.most }
{
    let mut left = *rest;
    for route in routes {
        if !has_route(part, route) {
            return false;
        }
        let Some(next) = left.without(route) else {
            return false;
        };
        left = next;
    }
    left.unserved.is_empty()
}

// Whether a route is in the part.
fn has_route(part: &[Route], route: &Route) -> bool
    ensures { IsTrue result → Contains part.now route.now }
{
    for other in part {
        if other.set == route.set && other.cost == route.cost {
            return true;
        }
    }
    false
}

/// The routes that have only unserved customers. The contract leaves open that none is left out.
pub fn routes_inside(
    alloc: Global,
    routes: &[Route],
    unserved: CustomerSet,
) -> Result<Vec<Route>, AllocError> {
    routes
        .iter()
        .copied()
        .filter(|route| route.set.is_subset(unserved))
        .collect(alloc)
}
