//! The routes of the good plans that a run finds.
ghost use Rattle.std.specs.Prelude.{◌≡◌};
ghost use Rattle.vrp_model.specs.Problem.{place_count};

use crate::routes::Routes;
use std::alloc::Global;
use vrp_model::{Instance, NoMemory};

// A good plan costs at most one part in this many more than the cheapest one so far.
const PARTS: u64 = 100;

/// The routes of good plans as one word: the stops of each route, followed by 0. They only guide, so no clause pins them.
#[derive(Debug, Drop)]
pub struct Gathered {
    word: Vec<u16>,
    // The most symbols that are gathered.
    most: usize,
}

impl Gathered {
    /// No routes, with room for this many symbols; no clause says so.
    pub fn new(alloc: Global, most: usize) -> Gathered {
        Gathered {
            word: Vec::new(alloc),
            most,
        }
    }

    /// The word of the routes; no clause pins it.
    pub fn word(&self) -> &[u16] {
        self.word.as_slice()
    }

    /// Adds the routes of a plan, if that is a good one compared with the cheapest so far. If there is no room for them, the routes gathered
    /// before are dropped: later plans are better.
    pub(crate) fn note(
        &mut self,
        instance: &Instance,
        routes: &Routes,
        cheapest: u64,
    ) -> Result<(), NoMemory>
        requires { routes.now ≡ place_count instance.now }
    {
        let room = 2 * usize::from(instance.customers());
        let is_good = routes.cost().saturating_sub(cheapest) <= cheapest / PARTS;
        if self.most < room || routes.unserved() > 0 || !is_good {
            return Ok(());
        }
        if self.most - room < self.word.len() {
            self.word.clear();
        }
        routes.append_word(instance, &mut self.word)
    }
}
