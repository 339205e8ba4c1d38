//! Separation: cuts that the solution violates.
use crate::cut::{Cut, CutKind};
use crate::program::RouteProgram;
use std::alloc::AllocError;
use vrp_model::{CustomerSet, FleetView, PLACES};

/// A route that the solution uses, and its value.
#[derive(Clone, Copy)]
pub(crate) struct Used {
    pub(crate) set: CustomerSet,
    pub(crate) value: i64,
}

/// A cut, and its violation.
#[derive(Clone, Copy)]
pub(crate) struct Broken {
    pub(crate) excess: i64,
    pub(crate) cut: Cut,
}

// The most cuts added at once, the most before capacity cuts are left out, and the most subset rows with one customer.
const MOST_AT_ONCE: usize = 30;

const MOST_BEFORE_CAPACITY: usize = 20;

const MOST_WITH_A_CUSTOMER: u8 = 5;

impl RouteProgram {
    /// Adds violated cuts: subset rows, and capacity cuts. Returns their number; no clause pins it.
    pub(crate) fn add_broken_cuts(&mut self, fleet: &FleetView<'_>) -> Result<usize, AllocError> {
        let used = self.used()?;
        let mut broken = Vec::new(self.alloc);
        crate::subset_rows::push_broken(
            self.alloc,
            self.scope.customers,
            used.as_slice(),
            &mut broken,
        )?;
        crate::capacity_cuts::push_broken(
            self.alloc,
            self.scope.customers,
            used.as_slice(),
            fleet,
            &mut broken,
        )?;
        broken.sort_by_key(|found| found.excess.saturating_neg())?;
        let mut counts = [0; PLACES];
        let mut added = 0usize;
        for found in &broken {
            if added < MOST_AT_ONCE && self.is_taken(&found.cut, &mut counts, added) {
                self.add_cut(found.cut)?;
                added = added.saturating_add(1);
            }
        }
        Ok(added)
    }

    // Whether a cut is added after this many others. If so, a subset row is counted for its customers.
    fn is_taken(&self, cut: &Cut, counts: &mut [u8; PLACES], added: usize) -> bool {
        if self.cuts.contains(cut) {
            return false;
        }
        match cut.kind {
            CutKind::SubsetRow => is_counted(cut.set, counts),
            _ => added <= MOST_BEFORE_CAPACITY,
        }
    }
}

// Counts a subset row for its customers, if none has too many.
fn is_counted(set: CustomerSet, counts: &mut [u8; PLACES]) -> bool {
    for customer in set.iter() {
        if counts[usize::from(customer)] >= MOST_WITH_A_CUSTOMER {
            return false;
        }
    }
    for customer in set.iter() {
        let count = &mut counts[usize::from(customer)];
        *count = count.saturating_add(1);
    }
    true
}
