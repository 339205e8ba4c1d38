//! The reach of each customer: the distance of its near neighbours.
ghost use Rattle.std.specs.Prelude.{◌≡◌, ◌<◌, IfOk, vec_len};
ghost use Rattle.vrp_model.specs.Problem.{place_count};

use std::alloc::Global;
use vrp_model::{Instance, NoMemory};

/// The number of near neighbours of each customer. Joining to more of them seldom gains anything, and sorting them would take most of
/// the time.
const MOST_NEAR: usize = 40;

/// An arc to a place; arcs are compared by weight and then by place.
#[derive(Clone, Copy, PartialEq, Eq, PartialOrd, Ord)]
struct ReachArc {
    weight: u64,
    to: u16,
}

/// For each place the arc to the farthest of its near neighbours.
#[derive(Drop)]
pub(crate) struct Reach {
    farthest: Vec<ReachArc>,
}

impl Reach {
    /// The reach of each customer of an instance.
    pub(crate) fn new(alloc: Global, instance: &Instance) -> Result<Reach, NoMemory>
        ensures { IfOk result (λ reach. vec_len reach.farthest ≡ place_count instance.now) }
    {
        let places = instance.customers() + 1;
        let mut farthest = Vec::with_capacity(alloc, usize::from(places))?;
        let mut arcs = Vec::with_capacity(alloc, usize::from(places))?;
        for from in 0..places {
            list_arcs(instance, from, &mut arcs)?;
            arcs.sort_unstable();
            farthest.push(farthest_near(&arcs, from))?;
        }
        Ok(Reach { farthest })
    }

    /// Whether a customer is a near neighbour of another.
    pub(crate) fn is_near(&self, instance: &Instance, from: u16, to: u16) -> bool
        requires reach { vec_len self.now.farthest ≡ place_count instance.now }
        requires from_within { from < place_count instance.now }
        requires to_within { to < place_count instance.now }
    {
        let arc = ReachArc {
            weight: instance.weight(from, to),
            to,
        };
        arc <= self.farthest[usize::from(from)]
    }
}

// Replaces the contents of a list by the arcs from a place to all customers but itself.
fn list_arcs(instance: &Instance, from: u16, arcs: &mut Vec<ReachArc>) -> Result<(), NoMemory>
    requires { from < place_count instance.now }
{
    arcs.clear();
    for to in 1..instance.customers() + 1 {
        if to != from {
            let weight = instance.weight(from, to);
            arcs.push(ReachArc { weight, to })?;
        }
    }
    Ok(())
}

// The last near arc among arcs in order; an arc to the place itself if there is none.
fn farthest_near(arcs: &[ReachArc], from: u16) -> ReachArc {
    let near = arcs.len().min(MOST_NEAR);
    if near == 0 {
        return ReachArc {
            weight: 0,
            to: from,
        };
    }
    arcs[near - 1]
}
