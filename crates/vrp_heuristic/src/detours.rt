//! The customers on whose way from the depot each customer lies.
ghost use Rattle.std.specs.Prelude.{◌≡◌, ◌<◌, ◌≤◌, ◌+◌, IfOk, OnOk, length, vec_len};
ghost use Rattle.std.specs.List.{All};
ghost use Rattle.vrp_heuristic.specs.Inner.Tables.{IsDetour, IsPlace};
ghost use Rattle.vrp_model.specs.declared.limits.TheConstants.{MAX_NODES};

use crate::arcs::Arcs;
use crate::near::{NEARBY, Near};
use std::alloc::Global;
use std::marker::Model;
use vrp_model::NoMemory;

/// The number of customers that are kept for each place.
pub(crate) const MOST_DETOURS: u16 = 30;

// More than the weight of an arc, so that no detour is negative.
const RAISE: u64 = 1 << 32;

/// A detour by a customer on the way to another; detours are compared by weight and then by place.
#[derive(Clone, Copy, PartialEq, Eq, PartialOrd, Ord)]
struct Detour {
    weight: u64,
    to: u16,
}

/// For each place some customers that are not near: those first for which the way from the depot by this place is the least detour.
#[derive(Drop)]
pub(crate) struct Detours {
    places: u16,
    // Row by row: for each place, `MOST_DETOURS` customers. The depot stands for those that are missing.
    order: Vec<u16>,
}

impl Model for Detours {
    ghost use Rattle.std.specs.Prelude.{ℕ, length};
    ghost use Rattle.std.specs.List.{All};
    ghost use Rattle.vrp_heuristic.specs.Inner.Tables.{IsPlace, IsTableOfDetours};

    // The number of places.
    ghost Value = { ℕ };

    ghost view = { λ a. a.places };

    ghost invariant = { λ a.
        IsTableOfDetours a.places (length a.order.items)
        × All (IsPlace a.places) a.order.items };
}

impl Detours {
    /// The detours by each of this many places.
    pub(crate) fn new(
        alloc: Global,
        arcs: &Arcs,
        near: &Near,
        places: u16,
    ) -> Result<Detours, NoMemory>
        requires arcs { arcs.now ≡ places }
        requires near { near.now ≡ places }
        requires some { 0 < places }
        requires few { places ≤ MAX_NODES }
        ensures { IfOk result (λ detours. detours ≡ places) }
    {
        let mut order = Vec::with_capacity(alloc, usize::from(places) * usize::from(MOST_DETOURS))?;
        let mut row = Vec::with_capacity(alloc, usize::from(places))?;
        for place in 0..places {
            list_detours(arcs, near, place, places, &mut row)?;
            push_first(&row, places, &mut order)?;
        }
        Ok(Detours { places, order })
    }

    /// The customer at a rank, by the least detour by a place.
    #[inline(always)]
    pub(crate) fn place(&self, place: u16, rank: u16) -> u16
        requires place { place < self.now }
        requires rank { rank < MOST_DETOURS }
        ensures { result < self.now }
    {
        self.order[usize::from(place) * usize::from(MOST_DETOURS) + usize::from(rank)]
    }
}

// Replaces the contents of a list by the detours by a place to the customers that are not near, the least first.
fn list_detours(
    arcs: &Arcs,
    near: &Near,
    place: u16,
    places: u16,
    list: &mut Vec<Detour>,
) -> Result<(), NoMemory>
    requires arcs { arcs.now ≡ places }
    requires near { near.now ≡ places }
    requires place { place < places }
    ensures { OnOk result (All (IsDetour places) list.new.items) }
{
    list.clear();
    for rank in NEARBY + 1..places {
        let to = near.nearest(place, rank);
        if to != 0 {
            let longer = RAISE + u64::from(arcs.weight(place, to));
            let weight = longer - u64::from(arcs.weight(0, to));
            list.push(Detour { weight, to })?;
        }
    }
    list.sort_unstable();
    Ok(())
}

// Adds the customers of the first detours.
fn push_first(detours: &[Detour], places: u16, list: &mut Vec<u16>) -> Result<(), NoMemory>
    requires some { 0 < places }
    requires detours { All (IsDetour places) detours.now }
    requires list { All (IsPlace places) list.old.items }
    ensures len { OnOk result (vec_len list.new ≡ vec_len list.old + MOST_DETOURS) }
    ensures places { OnOk result (All (IsPlace places) list.new.items) }
{
    for rank in 0..MOST_DETOURS {
        let rank = usize::from(rank);
        let to = if rank < detours.len() {
            detours[rank].to
        } else {
            0
        };
        list.push(to)?;
    }
    Ok(())
}
