//! The least of some arcs.
ghost use Rattle.std.specs.Prelude.{◌≡◌, ◌≤◌, ◌<◌, ◌∷◌, All, vec_len, vec_capacity};
ghost use Rattle.std.specs.List.Sorted.{IsPermutation};

use crate::arc::Arc;

/// Removes an arc of the least weight; the order of the others may change.
#[inline(always)]
pub fn take_least(arcs: &mut Vec<Arc>) -> Arc
    requires { 0 < vec_len arcs.old }
    ensures taken { IsPermutation arcs.old.items (result ∷ arcs.new.items) }
    ensures least { All (λ arc. result.weight ≤ arc.weight) arcs.old.items }
    ensures capacity { vec_capacity arcs.new ≡ vec_capacity arcs.old }
{
    let mut least = 0;
    for index in 1..arcs.len() {
        if arcs[index].weight < arcs[least].weight {
            least = index;
        }
    }
    arcs.swap_remove(least)
}
