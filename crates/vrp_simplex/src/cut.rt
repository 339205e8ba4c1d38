//! Cuts of the program, by the sets of their customers.
use vrp_linear_program::Sense;
use vrp_model::CustomerSet;

/// The kind of a cut: its statement about the routes of a choice.
#[derive(Clone, Copy, Debug, PartialEq, Eq)]
pub(crate) enum CutKind {
    /// At most one of them has two of three customers.
    SubsetRow,
    /// At least this many come to the set.
    Capacity(u32),
    /// There are at most this many.
    Trucks(u32),
}

/// A cut.
#[derive(Clone, Copy, Debug, PartialEq, Eq)]
pub(crate) struct Cut {
    pub(crate) set: CustomerSet,
    pub(crate) kind: CutKind,
}

impl Cut {
    /// Whether a route counts in the cut's row.
    #[inline(always)]
    pub(crate) fn has(&self, route: CustomerSet) -> bool {
        match self.kind {
            CutKind::SubsetRow => route.intersection(self.set).has_two(),
            CutKind::Capacity(_) => !route.is_disjoint(self.set),
            CutKind::Trucks(_) => true,
        }
    }

    /// The row's right-hand side, as a number of routes.
    pub(crate) fn side(&self) -> i64 {
        match self.kind {
            CutKind::SubsetRow => 1,
            CutKind::Capacity(least) => i64::from(least),
            CutKind::Trucks(most) => i64::from(most),
        }
    }

    /// Whether the row is at least, or at most, its right-hand side.
    pub(crate) fn sense(&self) -> Sense {
        match self.kind {
            CutKind::Capacity(_) => Sense::AtLeast,
            _ => Sense::AtMost,
        }
    }

    /// The size of a price, 0 if its sign does not fit the cut.
    pub(crate) fn size(&self, price: i64) -> u64 {
        match self.kind {
            CutKind::Capacity(_) => price.max(0).unsigned_abs(),
            _ => price.min(0).unsigned_abs(),
        }
    }
}
