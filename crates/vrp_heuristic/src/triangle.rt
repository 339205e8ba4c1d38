//! Whether a detour is never shorter than the direct arc, as far as a look at near places tells.
ghost use Rattle.std.specs.Prelude.{◌≡◌, ◌<◌};

use crate::arcs::Arcs;
use crate::near::{NEARBY, Near};

// Weights that were rounded may break the triangle inequality by this much.
const ROUNDING: u64 = 1;

/// Whether the arcs between near places obey the triangle inequality. It guides alone, so no clause pins the answer.
pub(crate) fn obeys_triangle(arcs: &Arcs, near: &Near, places: u16) -> bool
    requires arcs { arcs.now ≡ places }
    requires near { near.now ≡ places }
{
    for place in 0..places {
        if has_shortcut(arcs, near, place, places) {
            return false;
        }
    }
    true
}

// Whether a way by a place, between two of its near places or between one of them and the depot, is shorter than the direct arc.
fn has_shortcut(arcs: &Arcs, near: &Near, place: u16, places: u16) -> bool
    requires arcs { arcs.now ≡ places }
    requires near { near.now ≡ places }
    requires place { place < places }
{
    let mut last = place;
    for rank in 0..NEARBY.min(places) {
        let next = near.nearest(place, rank);
        let is_shorter = is_shortcut(arcs, last, place, next)
            || is_shortcut(arcs, next, place, last)
            || is_shortcut(arcs, 0, place, next)
            || is_shortcut(arcs, next, place, 0);
        if is_shorter {
            return true;
        }
        last = next;
    }
    false
}

// Whether the way from a place to another by a third is shorter than the direct arc.
fn is_shortcut(arcs: &Arcs, from: u16, by: u16, to: u16) -> bool
    requires from { from < arcs.now }
    requires by { by < arcs.now }
    requires to { to < arcs.now }
{
    let detour = u64::from(arcs.weight(from, by)) + u64::from(arcs.weight(by, to));
    detour + ROUNDING < u64::from(arcs.weight(from, to))
}
