//! Whether an arc and its reverse always cost the same.
ghost use Rattle.std.specs.Prelude.{◌≡◌, ◌↔◌, ◌*◌, ◌≤◌, ◌<◌, ◌+◌, IsTrue, length};
ghost use Rattle.vrp_model.specs.Inner.Symmetry.{IsSameBack, IsSymmetricSquare};

use crate::limits::MAX_NODES;

/// Whether a square of weights is symmetric.
pub(crate) fn is_symmetric(weights: &[u32], places: usize) -> bool
    requires square { length weights.now ≡ places * places }
    requires few { places ≤ MAX_NODES }
    ensures { IsTrue result ↔ IsSymmetricSquare weights.now places }
{
    for from in 0..places {
        if !is_same_back(weights, places, from) {
            return false;
        }
    }
    true
}

// Whether the weights between a place and each one before it are symmetric.
fn is_same_back(weights: &[u32], places: usize, from: usize) -> bool
    requires square { length weights.now ≡ places * places }
    requires few { places ≤ MAX_NODES }
    requires within { from < places }
    ensures { IsTrue result ↔ IsSameBack weights.now places from }
{
    for to in 0..from {
        if weights[from * places + to] != weights[to * places + from] {
            return false;
        }
    }
    true
}
