//! The arcs with prices and cut prices, and how walks grow by them.
ghost use Rattle.std.specs.Prelude.{◌<◌};
ghost use Rattle.vrp_model.specs.Problem.{place_count};

use crate::ascent::cells::{FAR, lower, lower_near};
use crate::ascent::near_looks::{NearLook, NearLooks};
use crate::ascent::sparse_graph::{Nearness, SparseGraph};
use crate::ascent::walks::row_of;
use std::alloc::Global;
use vrp_model::{Instance, NoMemory};

/// The arcs between all places, and where ng-sets matter on them.
#[derive(Debug, Drop)]
pub(crate) struct Growth {
    places: usize,
    // The scaled weight of the arc into each place, from each; a mark from a place to itself.
    weights: Vec<i64>,
    // The arcs with prices and cut prices, in the same order.
    arcs: Vec<i64>,
    // The arcs with prices and cut prices, and a mark where ng-sets matter.
    far_arcs: Vec<i64>,
    looks: NearLooks,
    // Present if walks grow over a sparse graph.
    sparse: Option<SparseGraph>,
}

impl Growth {
    /// Arcs without prices, and these looks where ng-sets matter.
    pub(crate) fn new(
        alloc: Global,
        instance: &Instance,
        scale: u64,
        looks: NearLooks,
    ) -> Result<Growth, NoMemory> {
        let places = usize::from(instance.customers()) + 1;
        let square = places.saturating_mul(places);
        Ok(Growth {
            places,
            weights: scaled_weights(alloc, instance, scale)?,
            arcs: vec![in alloc; FAR; square]?,
            far_arcs: vec![in alloc; FAR; square]?,
            looks,
            sparse: None,
        })
    }

    /// The arcs into a place, and their scaled weights.
    pub(crate) fn arcs_into(&mut self, to: usize) -> Option<(&mut [i64], &[i64])> {
        let start = to.saturating_mul(self.places);
        let end = start.saturating_add(self.places);
        let arcs = self.arcs.as_mut_slice().get_mut(start..end)?;
        let weights = self.weights.as_slice().get(start..end)?;
        Some((arcs, weights))
    }

    /// From now on walks grow only between each place and this many nearest ones, from and to the depot, and where ng-sets
    /// matter.
    pub(crate) fn keep_nearest(&mut self, alloc: Global, count: usize) -> Result<(), NoMemory> {
        let nearness = Nearness::new(alloc, &self.weights, &self.looks, self.places, count)?;
        self.sparse = Some(SparseGraph::new(alloc, &nearness)?);
        Ok(())
    }

    /// From now on walks grow over all arcs.
    pub(crate) fn keep_all(&mut self) {
        self.sparse = None;
    }

    /// The neighbors of a place, if walks grow over a sparse graph.
    pub(crate) fn neighbors(&self, place: usize) -> Option<&[u16]> {
        let sparse = self.sparse.as_ref()?;
        Some(sparse.neighbors(place))
    }

    /// How many looks along rows of arcs the walks of one load take.
    pub(crate) fn arcs_looked_at(&self) -> u64 {
        match &self.sparse {
            Some(sparse) => sparse.looks(),
            None => self.arcs.len() as u64,
        }
    }

    /// Copies the entered arcs, without those where ng-sets matter.
    pub(crate) fn mark_near(&mut self) {
        let arcs = self.arcs.iter().zip(self.looks.far());
        for (far_arc, (&arc, &is_far)) in self.far_arcs.iter_mut().zip(arcs) {
            *far_arc = if is_far { arc } else { FAR };
        }
        if let Some(sparse) = &mut self.sparse {
            enter_all(sparse, &self.far_arcs, self.places);
        }
    }

    /// The arcs home.
    pub(crate) fn arcs_home(&self) -> &[i64] {
        row_of(&self.arcs, self.places, 0)
    }

    /// The cost of an arc.
    pub(crate) fn arc(&self, from: usize, to: usize) -> i64 {
        let cell = to.saturating_mul(self.places).saturating_add(from);
        self.arcs.get(cell).copied().unwrap_or(FAR)
    }

    /// The looks before a stop where ng-sets matter.
    pub(crate) fn near_looks(&self, stop: usize) -> &[NearLook] {
        self.looks.of(stop)
    }

    /// Whether ng-sets don't matter between a place and the stop after it.
    pub(crate) fn is_far(&self, place: usize, stop: usize) -> bool {
        self.looks.is_far(place, stop)
    }

    /// Extends the walks from a stop by each place before it. These are walks of one load, and the least of them has this
    /// cost; the rows are those of the load that includes the stop.
    #[inline(always)]
    pub(crate) fn extend(&self, walks: &[i64], stop: usize, cost: i64, rows: &mut [i64]) {
        let start = stop.saturating_mul(self.places);
        let end = start.saturating_add(self.places);
        if let (Some(far_arcs), Some(arcs)) = (
            self.far_arcs.as_slice().get(start..end),
            self.arcs.as_slice().get(start..end),
        ) {
            match &self.sparse {
                Some(sparse) => sparse.lower(rows, stop, cost),
                None => lower(rows, far_arcs, cost),
            }
            lower_near(rows, self.looks.of(stop), arcs, walks, stop);
        }
    }
}

// Enters the arcs of a sparse graph.
fn enter_all(sparse: &mut SparseGraph, arcs: &[i64], places: usize) {
    for to in 0..places {
        sparse.enter(to, row_of(arcs, places, to));
    }
}

// The scaled weight of the arc into each place, from each; a mark from a place to itself.
fn scaled_weights(alloc: Global, instance: &Instance, scale: u64) -> Result<Vec<i64>, NoMemory> {
    let places = usize::from(instance.customers()) + 1;
    let mut weights = Vec::with_capacity(alloc, places * places)?;
    for to in 0..instance.customers() + 1 {
        push_arcs_into(&mut weights, instance, scale, to)?;
    }
    Ok(weights)
}

fn push_arcs_into(
    weights: &mut Vec<i64>,
    instance: &Instance,
    scale: u64,
    to: u16,
) -> Result<(), NoMemory>
    requires within { to < place_count instance.now }
{
    for from in 0..instance.customers() + 1 {
        let scaled = instance.weight(from, to).saturating_mul(scale);
        let arc = i64::try_from(scaled).unwrap_or(FAR);
        weights.push(if from == to { FAR } else { arc })?;
    }
    Ok(())
}
