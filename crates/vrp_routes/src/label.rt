//! The label of a partial route.
ghost use Rattle.std.specs.Prelude.{◌≡◌, ◌==◌, if◌then◌else◌};

use vrp_model::CustomerSet;

/// The label of a beginning of a route, which the field calls a partial path from the depot.
// Wider fields come first, and loads are at most MAX_CAPACITY: both keep labels small.
#[derive(Clone, Copy, Debug)]
pub struct Label<X> {
    pub set: CustomerSet,
    pub cost: u64,
    // What a completion test counts.
    pub resources: X,
    pub load: u32,
    // The label, one customer shorter, that this one extends.
    pub parent: u32,
    // 0 if there is none.
    pub first: u16,
    pub last: u16,
}

impl<X> Label<X> {
    // The first customer after one more is added.
    #[inline(always)]
    pub fn first_with(&self, stop: u16) -> u16
        ensures { result ≡ (if self.now.first == 0 then stop else self.now.first) }
    {
        if self.first == 0 { stop } else { self.first }
    }
}
