//! The table of the least walks home, by load, by ng-set, and by starting place.
use crate::ascent::near_looks::{BITS, NearLook};
use std::alloc::Global;
use vrp_model::NoMemory;

/// The mark for "no walk".
pub(crate) const FAR: i64 = 2_000_000_000_000_000_000;

/// More than the cost of any walk; the mark for "no walk" is no less.
pub const NO_WALK: i64 = 1_000_000_000_000_000_000;

/// The least walks home.
#[derive(Debug, Drop)]
pub(crate) struct WalkCells {
    places: usize,
    // The number of ng-sets.
    masks: usize,
    // By load, then by ng-set, then by place: the least of the walks home that carry this load behind the place and remember
    // no more than the ng-set there. At the depot a tour, without ng-sets.
    cells: Vec<i64>,
}

impl WalkCells {
    /// No walks yet.
    pub(crate) fn new(
        alloc: Global,
        loads: usize,
        masks: usize,
        places: usize,
    ) -> Result<WalkCells, NoMemory> {
        let rows = loads.saturating_mul(masks);
        Ok(WalkCells {
            places,
            masks,
            cells: vec![in alloc; FAR; rows.saturating_mul(places)]?,
        })
    }

    /// Enters only the walks without load: they go straight home by these arcs.
    pub(crate) fn begin(&mut self, arcs: &[i64]) {
        self.cells.as_mut_slice().fill(FAR);
        if let Some(row) = self.cells.as_mut_slice().get_mut(0..self.places) {
            lower(row, arcs, 0);
        }
    }

    /// Lets the walks of a load that remember less also count for larger ng-sets.
    pub(crate) fn widen(&mut self, load: usize) {
        let size = self.masks.saturating_mul(self.places);
        let start = load.saturating_mul(size);
        let end = start.saturating_add(size);
        if let Some(rows) = self.cells.as_mut_slice().get_mut(start..end) {
            for ng_set in 1..self.masks {
                widen_row(rows, ng_set, self.places);
            }
        }
    }

    /// The walks of a load, by ng-set and by place, and the tables of all larger loads, one after another.
    pub(crate) fn split(&mut self, load: usize) -> Option<(&[i64], &mut [i64])> {
        let start = load.saturating_mul(self.of_load());
        let end = start.saturating_add(self.of_load());
        if end > self.cells.len() {
            return None;
        }
        let (walks, larger) = self.cells.as_mut_slice().split_at_mut(end);
        Some((walks.get(start..)?, larger))
    }

    /// The number of cells of each load.
    pub(crate) fn of_load(&self) -> usize {
        self.masks.saturating_mul(self.places)
    }

    /// The least cost of a walk home from a place that carries this load behind it and remembers no more than this ng-set
    /// there.
    pub(crate) fn cell(&self, load: usize, place: usize, ng_set: usize) -> i64 {
        let row = load.saturating_mul(self.masks).saturating_add(ng_set);
        let cell = row.saturating_mul(self.places).saturating_add(place);
        self.cells.get(cell).copied().unwrap_or(FAR)
    }

    /// The beginning of a load's row for the greatest ng-set.
    pub(crate) fn most_row(&self) -> usize {
        self.most().saturating_mul(self.places)
    }

    /// The greatest ng-set.
    pub(crate) fn most(&self) -> usize {
        self.masks.saturating_sub(1)
    }
}

// Lowers each cell of an ng-set to those that remember one customer less.
fn widen_row(rows: &mut [i64], ng_set: usize, places: usize) {
    let start = ng_set.saturating_mul(places);
    if start > rows.len() {
        return;
    }
    let (lesser, more) = rows.split_at_mut(start);
    let Some(row) = more.get_mut(0..places) else {
        return;
    };
    for bit in BITS {
        if ng_set & bit != 0 {
            let first = (ng_set & !bit).saturating_mul(places);
            if let Some(less) = lesser.get(first..first.saturating_add(places)) {
                lower(row, less, 0);
            }
        }
    }
}

/// Lowers each cell to the walk by its arc, if that costs less. Nearly all of the time is spent here: without a branch, the
/// loop handles several cells at once.
#[inline(always)]
pub(crate) fn lower(row: &mut [i64], arcs: &[i64], cost: i64) {
    for (cell, &arc) in row.iter_mut().zip(arcs) {
        *cell = cost.wrapping_add(arc).min(*cell);
    }
}

/// Lowers the cells of a load to the walks by these looks before a stop, if they cost less. They continue with the walks from
/// the stop, which have the load without the stop.
pub(crate) fn lower_near(
    rows: &mut [i64],
    looks: &[NearLook],
    arcs: &[i64],
    walks: &[i64],
    stop: usize,
) {
    let places = arcs.len();
    for look in looks {
        let at = usize::from(look.at);
        let walk = usize::from(look.most)
            .wrapping_mul(places)
            .wrapping_add(stop);
        let cell = usize::from(look.ng_set)
            .wrapping_mul(places)
            .wrapping_add(at);
        if let (Some(&cost), Some(&arc), Some(cell)) = (
            walks.get(walk),
            arcs.get(at),
            rows.get_mut(cell),
        ) {
            *cell = cost.wrapping_add(arc).min(*cell);
        }
    }
}
