//! The rows of the linear program beside those of the customers.
use vrp_duals::{EntryRow, SubsetRow};
use vrp_linear_program::Sense;
use vrp_model::{CustomerSet, PLACES};

/// A row: routes enter a set at least or at most so often, or have at most so many pairs of a row's customers. Its own price isn't used.
#[derive(Clone, Copy, Debug)]
pub(crate) enum ProgramRow {
    CapacityCut(EntryRow),
    /// There are at most, or at least, so many routes: a limit on trucks, or what a leaf allows.
    AtMost(EntryRow),
    AtLeast(EntryRow),
    Subset(SubsetRow),
}

impl ProgramRow {
    /// Whether the row may go where it is slack: one that limits the number of routes stays.
    pub(crate) fn may_go(&self) -> bool {
        matches!(self, ProgramRow::CapacityCut(_) | ProgramRow::Subset(_))
    }

    /// Whether the row bounds from below or from above.
    pub(crate) fn sense(&self) -> Sense {
        match self {
            ProgramRow::CapacityCut(_) | ProgramRow::AtLeast(_) => Sense::AtLeast,
            ProgramRow::AtMost(_) | ProgramRow::Subset(_) => Sense::AtMost,
        }
    }

    /// The right-hand side.
    pub(crate) fn side(&self) -> i64 {
        match self {
            ProgramRow::CapacityCut(row) | ProgramRow::AtMost(row) | ProgramRow::AtLeast(row) => {
                i64::from(row.count)
            }
            ProgramRow::Subset(row) => i64::from(row.customers.len() / 2),
        }
    }

    /// How often a route with these stops counts.
    pub(crate) fn count(&self, stops: &[u16]) -> u32 {
        match self {
            ProgramRow::CapacityCut(row) | ProgramRow::AtMost(row) | ProgramRow::AtLeast(row) => {
                entries(row.customers, stops)
            }
            ProgramRow::Subset(row) => pairs(row, stops),
        }
    }
}

// Whether a place is in a set.
#[inline(always)]
fn has(set: CustomerSet, place: u16) -> bool {
    usize::from(place) < PLACES && set.contains(place)
}

// How often a route enters a set.
fn entries(set: CustomerSet, stops: &[u16]) -> u32 {
    let mut count = 0u32;
    let mut is_inside = false;
    for &stop in stops {
        let enters = has(set, stop);
        if enters && !is_inside {
            count = count.saturating_add(1);
        }
        is_inside = enters;
    }
    count
}

// How often a route comes to a second customer of a row before it leaves the row's memory.
fn pairs(row: &SubsetRow, stops: &[u16]) -> u32 {
    let mut count = 0u32;
    let mut is_odd = false;
    for &stop in stops {
        if !has(row.memory, stop) {
            is_odd = false;
        }
        if has(row.customers, stop) {
            if is_odd {
                count = count.saturating_add(1);
            }
            is_odd = !is_odd;
        }
    }
    count
}
