//! Whether memories of rows are wider than others.
ghost use Rattle.std.specs.Prelude.{◌≡◌, ◌≤◌, ◌<◌, ◌↔◌, ℕ, IsTrue, length};
ghost use Rattle.std.specs.Int.{bit_at};
ghost use Rattle.vrp_labels.specs.Widening.{AreWider, IsWiderAt};

use vrp_duals::{FoldedDuals, RowSet};

/// Whether each row is remembered at its own customers, and these memories, one for each place, have what those of the prices have.
pub fn are_wider(folded: &FoldedDuals, memories: &[RowSet]) -> bool
    requires { length memories.now ≡ folded.now.places }
    ensures { IsTrue result ↔ AreWider folded.now memories.now }
{
    for place in 0..folded.places() {
        if !is_wider_at(folded, place, memories[usize::from(place)]) {
            return false;
        }
    }
    true
}

// Whether so it is at one place.
fn is_wider_at(folded: &FoldedDuals, place: u16, memory: RowSet) -> bool
    requires { place < folded.now.places }
    ensures { IsTrue result ↔ IsWiderAt folded.now place memory }
{
    let kept = folded.memories(place);
    is_within(folded.members(place), kept) && is_within(kept, memory)
}

// Whether one set has all rows of another.
fn is_within(rows: RowSet, of: RowSet) -> bool
    ensures { IsTrue result ↔ ((row : ℕ) → bit_at rows row ≤ bit_at of row) }
{
    rows.symmetric_difference(rows.intersection(of)).is_empty()
}
