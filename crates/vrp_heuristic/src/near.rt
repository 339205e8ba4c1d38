//! The near places of each place.
ghost use Rattle.std.specs.Prelude.{◌≡◌, ◌<◌, ◌≤◌, ◌+◌, IfOk, OnOk, length, vec_len};
ghost use Rattle.std.specs.List.{All};
ghost use Rattle.vrp_heuristic.specs.Inner.Tables.{IsPlace, LeadsTo};
ghost use Rattle.vrp_model.specs.declared.limits.TheConstants.{MAX_NODES};

use crate::arcs::Arcs;
use std::alloc::Global;
use std::marker::Model;
use vrp_model::NoMemory;

/// The number of near places of a customer beside which it may be put back.
pub(crate) const NEARBY: u16 = 20;

/// An arc to a place; arcs are compared by weight and then by place.
#[derive(Clone, Copy, PartialEq, Eq, PartialOrd, Ord)]
struct NearArc {
    weight: u32,
    to: u16,
}

/// For each place all places by distance, itself first.
#[derive(Drop)]
pub(crate) struct Near {
    places: u16,
    // Row by row: for each place, all places.
    order: Vec<u16>,
}

impl Model for Near {
    ghost use Rattle.std.specs.Prelude.{ℕ, length};
    ghost use Rattle.std.specs.List.{All};
    ghost use Rattle.vrp_heuristic.specs.Inner.Tables.{IsPlace, IsSquare};

    // The number of places.
    ghost Value = { ℕ };

    ghost view = { λ a. a.places };

    ghost invariant = { λ a.
        IsSquare a.places (length a.order.items)
        × All (IsPlace a.places) a.order.items };
}

impl Near {
    /// The places near each of this many, by the weights of the arcs between them.
    pub(crate) fn new(alloc: Global, arcs: &Arcs, places: u16) -> Result<Near, NoMemory>
        requires arcs { arcs.now ≡ places }
        requires few { places ≤ MAX_NODES }
        ensures { IfOk result (λ near. near ≡ places) }
    {
        let mut order = Vec::with_capacity(alloc, usize::from(places) * usize::from(places))?;
        let mut row = Vec::with_capacity(alloc, usize::from(places))?;
        for place in 0..places {
            list_arcs(arcs.from(place), places, &mut row)?;
            push_places(&row, places, &mut order)?;
        }
        Ok(Near { places, order })
    }

    /// The place with this many places nearer to a place.
    #[inline(always)]
    pub(crate) fn nearest(&self, place: u16, rank: u16) -> u16
        requires place { place < self.now }
        requires rank { rank < self.now }
        ensures { result < self.now }
    {
        let row = usize::from(place) * usize::from(self.places);
        self.order[row + usize::from(rank)]
    }
}

// Replaces the contents of a list by the arcs of a row, the shortest first.
fn list_arcs(weights: &[u32], places: u16, list: &mut Vec<NearArc>) -> Result<(), NoMemory>
    requires { length weights.now ≡ places }
    ensures len { OnOk result (vec_len list.new ≡ places) }
    ensures places { OnOk result (All (LeadsTo places) list.new.items) }
{
    list.clear();
    for to in 0..places {
        let weight = weights[usize::from(to)];
        list.push(NearArc { weight, to })?;
    }
    list.sort_unstable();
    Ok(())
}

// Adds the places at the ends of arcs.
fn push_places(arcs: &[NearArc], places: u16, list: &mut Vec<u16>) -> Result<(), NoMemory>
    requires arcs { All (LeadsTo places) arcs.now }
    requires list { All (IsPlace places) list.old.items }
    ensures len { OnOk result (vec_len list.new ≡ vec_len list.old + length arcs.now) }
    ensures places { OnOk result (All (IsPlace places) list.new.items) }
{
    for arc in arcs {
        list.push(arc.to)?;
    }
    Ok(())
}
