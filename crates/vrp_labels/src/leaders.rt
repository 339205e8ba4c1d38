//! The places from which arcs are alive, as the graph has those to which they are.
ghost use Rattle.std.specs.Prelude.{◌≡◌, ◌<◌, ℕ, IfOk, slice_index};
ghost use Rattle.std.specs.Int.{bit_at};
ghost use Rattle.vrp_labels.specs.Reversal.{AreLeaders};

use crate::graph::RouteGraph;
use std::alloc::{AllocError, Global};
use vrp_model::CustomerSet;

impl RouteGraph {
    /// For each place, those from which the arc to it is alive. The only error is lack of memory.
    pub(crate) fn leaders(&self, alloc: Global) -> Result<Vec<CustomerSet>, AllocError>
        ensures { IfOk result (λ sets. AreLeaders self.now sets.items) }
    {
        let places = self.places();
        let mut sets = Vec::with_capacity(alloc, usize::from(places))?;
        for place in 0..places {
            sets.push(self.leaders_of(place))?;
        }
        Ok(sets)
    }

    // The places from which the arc to one is alive.
    fn leaders_of(&self, place: u16) -> CustomerSet
        requires { place < self.now.folded.places }
        ensures { (from : ℕ) → from < self.now.folded.places → bit_at result from ≡ bit_at (slice_index self.now.followers from) place }
    {
        let mut set = CustomerSet::empty();
        for from in 0..self.places() {
            if self.follows(from, place) {
                set = set.with(from);
            }
        }
        set
    }
}
