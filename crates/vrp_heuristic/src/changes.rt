//! What a move has changed: the places, or the routes, that are to be copied after it.
ghost use Rattle.std.specs.Prelude.{◌≡◌, ◌<◌, IfOk};
ghost use Rattle.std.specs.List.{All};
ghost use Rattle.vrp_heuristic.specs.Inner.Tables.{IsPlace};

use std::alloc::Global;
use std::marker::Model;
use vrp_model::NoMemory;

/// The numbers of what has changed, in the order of the changes; a number may be listed several times. There is room for as many as there
/// are places: with more changes it takes less time to copy all.
#[derive(Debug, Drop)]
pub(crate) struct Changes {
    places: u16,
    list: Vec<u16>,
}

impl Model for Changes {
    ghost use Rattle.std.specs.Prelude.{ℕ};
    ghost use Rattle.std.specs.List.{All};
    ghost use Rattle.vrp_heuristic.specs.Inner.Tables.{IsPlace};

    // The number of places.
    ghost Value = { ℕ };

    ghost view = { λ a. a.places };

    ghost invariant = { λ a. All (IsPlace a.places) a.list.items };
}

impl Changes {
    /// No changes of this many places.
    pub(crate) fn new(alloc: Global, places: u16) -> Result<Changes, NoMemory>
        ensures { IfOk result (λ changes. changes ≡ places) }
    {
        let list = Vec::with_capacity(alloc, usize::from(places))?;
        Ok(Changes { places, list })
    }

    /// Notes that a place has changed, if there is room.
    #[inline(always)]
    pub(crate) fn note(&mut self, place: u16)
        requires { place < self.old }
        ensures { self.new ≡ self.old }
    {
        if self.list.len() < self.list.capacity() {
            self.list.push_reserved(place);
        }
    }

    /// Whether there is no more room, so that changes may be missing.
    pub(crate) fn is_full(&self) -> bool {
        self.list.len() == self.list.capacity()
    }

    /// What has changed, as far as there was room.
    pub(crate) fn list(&self) -> &[u16]
        ensures { All (IsPlace self.now) result.now }
    {
        self.list.as_slice()
    }

    /// Forgets all changes.
    pub(crate) fn clear(&mut self)
        ensures { self.new ≡ self.old }
    {
        self.list.clear();
    }
}
