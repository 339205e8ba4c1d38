//! The mean flow on each arc: how often the tours of the rounds so far use it, with the newest rounds weighted most.
use crate::ascent::tours_used::{UsedArc, WHOLE_TOUR};
use std::alloc::Global;
use vrp_model::NoMemory;

/// The weight of one use of an arc by a whole tour.
pub(crate) const USE: i64 = 1_024;

// The newest round has one part in this many.
const NEWEST: i64 = 20;

/// Uses of the arcs between any two places, there and back together.
#[derive(Drop)]
pub(crate) struct Flow {
    places: usize,
    // By place, and of each by place.
    mean: Vec<i64>,
    // The uses in the newest round; a whole tour counts `WHOLE_TOUR`.
    uses: Vec<i64>,
}

impl Flow {
    /// No uses.
    pub(crate) fn new(alloc: Global, places: usize) -> Result<Flow, NoMemory> {
        let square = places.saturating_mul(places);
        Ok(Flow {
            places,
            mean: vec![in alloc; 0; square]?,
            uses: vec![in alloc; 0; square]?,
        })
    }

    /// Adds the arcs that a round used.
    pub(crate) fn add(&mut self, used: &[UsedArc]) {
        self.uses.as_mut_slice().fill(0);
        for arc in used {
            self.count(arc.from, arc.to, arc.part);
            self.count(arc.to, arc.from, arc.part);
        }
        for (mean, &uses) in self.mean.iter_mut().zip(&self.uses) {
            let uses = uses / (WHOLE_TOUR / USE);
            let change = uses.wrapping_sub(*mean) / NEWEST;
            *mean = mean.wrapping_add(change);
        }
    }

    fn count(&mut self, from: usize, to: usize, part: i64) {
        let arc = from.saturating_mul(self.places).saturating_add(to);
        if let Some(uses) = self.uses.get_mut(arc) {
            *uses = uses.wrapping_add(part);
        }
    }

    /// The flow between a place and each.
    pub(crate) fn of(&self, place: usize) -> &[i64] {
        let start = place.saturating_mul(self.places);
        let end = start.saturating_add(self.places);
        self.mean.as_slice().get(start..end).unwrap_or(&[])
    }
}
