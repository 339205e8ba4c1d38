//! What steps go by, and how large the tables may be for it.
ghost use Rattle.std.specs.Prelude.{◌≤◌};

use crate::ascent::size::Size;
use vrp_model::Instance;

/// The largest tables for a single look, by the steps that fill them. That takes up to ten seconds, and nothing can stop it; so these
/// steps are a small part of all steps.
pub const MAX_BOUND_TABLE: u64 = 4_000_000_000;

// The largest table of the tours, by the steps that fill it: vrp_bound makes no larger one.
const MAX_TOURS_TABLE: u64 = 200_000_000;

// The most steps that tables of walks with ng-sets may take if steps go by the tours: beyond that, more rounds gain more.
const MAX_NG_TABLE: u64 = 400_000_000;

// If rounds are over a sparse graph, only one is over all arcs. It, and the bounding table, may take one part in this many of all steps:
// nothing can stop them, and steps of the table take several times as long as others.
const PARTS_FOR_ALL_ARCS: u64 = 12;

const LEAST_ROUNDS_BY_TOURS: u64 = 20;

/// The most rounds; few instances take as many.
pub(crate) const MOST_ROUNDS: u32 = 20_000;

// A sparse graph has about this many arcs: with more there are fewer rounds, and with fewer the last round loses more.
const SPARSE_ARCS: usize = 45_000;

/// What steps go by.
#[derive(Clone, Copy)]
pub(crate) enum Guide {
    /// The least route through each customer: costs are symmetric. Rounds are over a sparse graph if there are many customers.
    Routes,
    /// The least tours: costs are not symmetric.
    Tours,
}

impl Guide {
    /// The guide for an instance.
    pub(crate) fn of(instance: &Instance) -> Guide {
        if instance.symmetric() {
            Guide::Routes
        } else {
            Guide::Tours
        }
    }

    /// The fewest rounds over all arcs for which the steps must suffice.
    pub(crate) fn least_rounds(self) -> u64
        ensures { 1 ≤ result }
    {
        match self {
            Guide::Routes => PARTS_FOR_ALL_ARCS,
            Guide::Tours => LEAST_ROUNDS_BY_TOURS,
        }
    }

    /// Whether tables of this size are small enough for this many steps in all.
    pub(crate) fn allows(self, size: Size, steps: u64) -> bool {
        let most = steps / self.least_rounds();
        size.steps() <= most
            && bound_table(size) <= MAX_BOUND_TABLE.min(most)
            && size.whole.saturating_mul(size.room) <= MAX_TOURS_TABLE
    }

    /// The number of near customers of each place, at most this many, and no more than there are other customers: as many as keep the
    /// bounding table within the steps of a round over all arcs.
    pub(crate) fn near_customers(self, size: Size, most: usize, steps: u64) -> usize
        ensures { result ≤ most }
    {
        let most_steps = match self {
            Guide::Routes => MAX_BOUND_TABLE,
            Guide::Tours => MAX_NG_TABLE,
        };
        let allowed = most_steps.min(steps / self.least_rounds());
        let most = most.min(size.places.saturating_sub(2) as usize);
        let mut table = bound_table(size);
        for near in 0..most {
            table = table.saturating_mul(2);
            if table > allowed {
                return near;
            }
        }
        most
    }
}

/// The number of nearest places to which each place keeps an arc in a sparse graph. `None` if these would be most of all places: then
/// rounds over all arcs are as short.
pub(crate) fn sparse_neighbors(places: usize) -> Option<usize> {
    let neighbors = SPARSE_ARCS / places.max(1);
    if neighbors < places / 3 {
        Some(neighbors)
    } else {
        None
    }
}

// The number of steps that fill the bounding table, without ng-sets.
fn bound_table(size: Size) -> u64 {
    size.places
        .saturating_mul(size.places)
        .saturating_mul(size.room.saturating_add(1))
}
