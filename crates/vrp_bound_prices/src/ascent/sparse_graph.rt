//! A sparse graph: each place and its nearest neighbors. Tables are filled over its arcs in a fraction of the time (granular
//! neighborhoods, Toth and Vigo 2003).
use crate::ascent::near_looks::NearLooks;
use crate::ascent::walks::{at, row_of};
use std::alloc::Global;
use vrp_model::NoMemory;

// A look at an arc of a sparse graph takes about as long as this many looks along a row of all arcs.
const LOOKS_IN_ROW: u64 = 4;

/// The arcs between neighbors, in both directions.
#[derive(Debug, Drop)]
pub(crate) struct SparseGraph {
    // The neighbors of each place, one place after another.
    neighbors: Vec<u16>,
    // The arcs from them, in the same order.
    arcs: Vec<i64>,
    // Where the neighbors of each place begin, and finally where all end.
    starts: Vec<usize>,
}

impl SparseGraph {
    /// The graph in which each place has these neighbors. There are no arcs until they are entered.
    pub(crate) fn new(alloc: Global, nearness: &Nearness<'_>) -> Result<SparseGraph, NoMemory> {
        let mut neighbors = Vec::new(alloc);
        let mut starts = Vec::with_capacity(alloc, nearness.places.saturating_add(1))?;
        for place in 0..nearness.places {
            starts.push(neighbors.len())?;
            nearness.list_neighbors(place, &mut neighbors)?;
        }
        starts.push(neighbors.len())?;
        let arcs = vec![in alloc; 0; neighbors.len()]?;
        Ok(SparseGraph {
            neighbors,
            arcs,
            starts,
        })
    }

    /// Enters the arcs into a place. They are given from every place.
    pub(crate) fn enter(&mut self, to: usize, arcs: &[i64]) {
        let (start, end) = self.bounds(to);
        if let (Some(entered), Some(neighbors)) = (
            self.arcs.as_mut_slice().get_mut(start..end),
            self.neighbors.as_slice().get(start..end),
        ) {
            for (arc, &from) in entered.iter_mut().zip(neighbors) {
                *arc = at(arcs, usize::from(from));
            }
        }
    }

    /// The neighbors of a place.
    pub(crate) fn neighbors(&self, place: usize) -> &[u16] {
        let (start, end) = self.bounds(place);
        self.neighbors.as_slice().get(start..end).unwrap_or(&[])
    }

    /// Lowers the cell of each neighbor of a stop to the walk over the stop, if that costs less. The walk costs this much from the
    /// stop.
    #[inline(always)]
    pub(crate) fn lower(&self, row: &mut [i64], stop: usize, cost: i64) {
        let (start, end) = self.bounds(stop);
        if let (Some(neighbors), Some(arcs)) = (
            self.neighbors.as_slice().get(start..end),
            self.arcs.as_slice().get(start..end),
        ) {
            for (&neighbor, &arc) in neighbors.iter().zip(arcs) {
                if let Some(cell) = row.get_mut(usize::from(neighbor)) {
                    *cell = cost.wrapping_add(arc).min(*cell);
                }
            }
        }
    }

    /// How many looks along rows of all arcs take as long as one at each arc here.
    pub(crate) fn looks(&self) -> u64 {
        (self.neighbors.len() as u64).saturating_mul(LOOKS_IN_ROW)
    }

    // Where the neighbors of a place begin and end.
    fn bounds(&self, place: usize) -> (usize, usize) {
        let start = self.starts.get(place).copied().unwrap_or(0);
        let end = self.starts.get(place.saturating_add(1)).copied();
        (start, end.unwrap_or(0))
    }
}

/// Which places are neighbors.
#[derive(Drop)]
pub(crate) struct Nearness<'a> {
    places: usize,
    // The weight of the arc into each place, from each.
    weights: &'a [i64],
    looks: &'a NearLooks,
    // The greatest weight of an arc between each place and those nearest to it.
    reach: Vec<i64>,
}

impl<'a> Nearness<'a> {
    /// Each place is a neighbor of this many nearest ones by these weights, which are symmetric. The depot is a neighbor of all
    /// places, and so are two places between which ng-sets matter.
    pub(crate) fn new(
        alloc: Global,
        weights: &'a [i64],
        looks: &'a NearLooks,
        places: usize,
        count: usize,
    ) -> Result<Nearness<'a>, NoMemory> {
        let mut reach = Vec::with_capacity(alloc, places)?;
        let mut sorted = Vec::with_capacity(alloc, places)?;
        for place in 0..places {
            sorted.clear();
            sorted.extend_from_slice(row_of(weights, places, place))?;
            sorted.sort_unstable();
            reach.push(at(&sorted, count.saturating_sub(1)))?;
        }
        Ok(Nearness {
            places,
            weights,
            looks,
            reach,
        })
    }

    // Adds the neighbors of a place.
    fn list_neighbors(&self, place: usize, neighbors: &mut Vec<u16>) -> Result<(), NoMemory> {
        for other in 0..self.places {
            if self.are_neighbors(place, other) {
                neighbors.push(u16::try_from(other).unwrap_or(0))?;
            }
        }
        Ok(())
    }

    fn are_neighbors(&self, place: usize, other: usize) -> bool {
        if place == other {
            return false;
        }
        let arc = place.saturating_mul(self.places).saturating_add(other);
        let reach = at(&self.reach, place).max(at(&self.reach, other));
        place == 0
            || other == 0
            || at(self.weights, arc) <= reach
            || !self.looks.is_far(other, place)
    }
}
