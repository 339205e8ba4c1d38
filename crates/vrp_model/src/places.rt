//! The places of an instance: their nodes, their demands, and the weights between them.
ghost use Rattle.std.specs.Prelude.{◌≡◌, ℕ, ◌*◌, ◌≤◌, true, EachIndex, IfOk, OnOk, ◌++◌, length, map, slice_index, vec_len};
ghost use Rattle.vrp_model.specs.Grid.{entry_at};
ghost use Rattle.vrp_model.specs.Request.{NoneAbove, is_listed, node_demand, weights_among};
ghost use Rattle.vrp_model.specs.Inner.Places.{ArePlaces};

use crate::depots::Depots;
use crate::limits::{MAX_NODES, MAX_WEIGHT};
use crate::weights::Weights;
use std::alloc::{AllocError, Global};

/// The depot's node, and then each node that is not listed as a depot, by rising number.
pub(crate) fn places(
    alloc: Global,
    nodes: u16,
    depots: &Depots<'_>,
    depot: u16,
) -> Result<Vec<u16>, AllocError>
    requires few { nodes ≤ MAX_NODES }
    requires from_one { 1 ≤ depot }
    requires listed { is_listed depots.now depot ≡ true }
    ensures { IfOk result (λ places. ArePlaces depots.now depot nodes places.items) }
{
    let mut places = Vec::with_capacity(alloc, usize::from(nodes))?;
    places.push(depot)?;
    for index in 0..nodes {
        let node = index + 1;
        if !depots.contains(node) {
            places.push(node)?;
        }
    }
    Ok(places)
}

/// The demand of each place.
pub(crate) fn demands_of(
    alloc: Global,
    places: &[u16],
    demands: &[u64],
) -> Result<Vec<u64>, AllocError>
    requires from_one { EachIndex places.now (λ k. 1 ≤ slice_index places.now k) }
    requires within { NoneAbove (length demands.now) places.now }
    ensures { IfOk result (λ found. found.items ≡ map (node_demand demands.now) places.now) }
{
    let mut found = Vec::with_capacity(alloc, places.len())?;
    for node in places {
        found.push(demands[usize::from(*node) - 1])?;
    }
    Ok(found)
}

/// The weight from each place to each place, row by row.
pub(crate) fn weights_between(
    alloc: Global,
    weights: &Weights,
    places: &[u16],
) -> Result<Vec<u32>, AllocError>
    requires few { length places.now ≤ MAX_NODES }
    requires from_one { EachIndex places.now (λ k. 1 ≤ slice_index places.now k) }
    requires within { NoneAbove weights.now.nodes places.now }
    ensures value { IfOk result (λ entries. entries.items ≡ weights_among weights.now places.now) }
    ensures square { IfOk result (λ made. vec_len made ≡ length places.now * length places.now) }
    ensures small { IfOk result (λ entries. (k : ℕ) → slice_index entries.items k ≤ MAX_WEIGHT) }
{
    let mut entries = Vec::with_capacity(alloc, places.len() * places.len())?;
    for from in places {
        push_row(&mut entries, weights, *from, places)?;
    }
    Ok(entries)
}

// Appends the weights from one node to each place.
fn push_row(
    entries: &mut Vec<u32>,
    weights: &Weights,
    from: u16,
    places: &[u16],
) -> Result<(), AllocError>
    requires from_one { 1 ≤ from }
    requires from_within { from ≤ weights.now.nodes }
    requires to_one { EachIndex places.now (λ k. 1 ≤ slice_index places.now k) }
    requires to_within { NoneAbove weights.now.nodes places.now }
    requires small { (k : ℕ) → slice_index entries.old.items k ≤ MAX_WEIGHT }
    ensures row { OnOk result
        (entries.new.items ≡ entries.old.items ++ map (entry_at weights.now from) places.now) }
    ensures still_small { (k : ℕ) → slice_index entries.new.items k ≤ MAX_WEIGHT }
{
    for to in places {
        entries.push(weights.at(from, *to) as u32)?;
    }
    Ok(())
}
