//! The least weight of an arc into each place.
ghost use Rattle.std.specs.Prelude.{◌≡◌, ◌*◌, ◌≤◌, ◌<◌, IfOk, length, vec_len};
ghost use Rattle.vrp_model.specs.Inner.LeastArcs.{AreLeastIn, IsLeastArc};

use crate::limits::MAX_NODES;
use std::alloc::{AllocError, Global};

/// For each place the least weight of an arc into it from another one; 0 if there is no other.
pub(crate) fn least_arcs(
    alloc: Global,
    weights: &[u32],
    places: usize,
) -> Result<Vec<u32>, AllocError>
    requires square { length weights.now ≡ places * places }
    requires few { places ≤ MAX_NODES }
    ensures all { IfOk result (λ least. vec_len least ≡ places) }
    ensures each { IfOk result (λ least. AreLeastIn weights.now places least.items) }
{
    let mut least = Vec::with_capacity(alloc, places)?;
    for to in 0..places {
        least.push(least_arc(weights, places, to))?;
    }
    Ok(least)
}

// The least weight of an arc into a place from another one; 0 if there is no other.
fn least_arc(weights: &[u32], places: usize, to: usize) -> u32
    requires square { length weights.now ≡ places * places }
    requires within { to < places }
    requires few { places ≤ MAX_NODES }
    ensures { IsLeastArc weights.now places to result }
{
    let mut least = None;
    for from in 0..places {
        if from != to {
            let weight = weights[from * places + to];
            least = Some(weight.min(least.unwrap_or(weight)));
        }
    }
    least.unwrap_or(0)
}
