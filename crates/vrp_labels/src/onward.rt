//! A table of what the other part of a route costs at least.
ghost use Rattle.std.specs.Prelude.{◌≡◌, ◌+ℤ◌, unsigned_abs, ◌≤◌, ◌<◌, ◌≤ℤ◌, ◌+◌, ◌*◌, ◌/◌, ◌%◌, ◌^◌, ℕ, IfOk};
ghost use Rattle.vrp_duals.specs.declared.limits.TheConstants.{MAX_ARC_PRICE};
ghost use Rattle.vrp_labels.specs.OnwardBound.{BoundsBeginnings, IsBoundStep, IsBoundTable, IsBoundTableTo, IsImproved};
ghost use Rattle.vrp_labels.specs.Reversal.{AreLeaders};

use crate::graph::RouteGraph;
use std::alloc::{AllocError, Global};
use vrp_model::CustomerSet;

// No entry is above this.
const FAR: i64 = 1 << 62;

/// What it costs at least to come to a place, and what it costs by another last customer than the one of the least. 0 stands for none.
#[derive(Clone, Copy, Debug)]
pub struct BoundEntry {
    pub least: i64,
    pub other: i64,
    pub by: u16,
}

/// What labels are measured by: a table with, for each room, from 0 to the capacity, and each place, what it costs at least to come there
/// from the depot by customers who carry no more than the room; what a cheap route costs at most; and for each place those from which the
/// arc to it is alive. In the table rows count for nothing, and a customer may come twice, but not with one other between.
#[derive(Debug, Drop)]
pub struct OnwardBound {
    pub gap: i64,
    pub table: Vec<BoundEntry>,
    pub leaders: Vec<CustomerSet>,
}

impl OnwardBound {
    /// The table of a graph. The only error is lack of memory.
    pub fn new(alloc: Global, graph: &RouteGraph, gap: i64) -> Result<OnwardBound, AllocError>
        ensures gap { IfOk result (λ onward. onward.gap ≡ gap) }
        ensures table { IfOk result (λ onward. IsBoundTable graph.now onward.table.items) }
        ensures onward { IfOk result (λ onward. BoundsBeginnings graph.now onward.table.items) }
        ensures leaders { IfOk result (λ onward. AreLeaders graph.now onward.leaders.items) }
    {
        let places = graph.places() as usize;
        let count = (graph.capacity() as usize + 1) * places;
        let mut table = Vec::with_capacity(alloc, count)?;
        for k in 0..count {
            let entry = bound_entry(graph, table.as_slice(), (k % places) as u16, k / places);
            table.push(entry)?;
        }
        let leaders = graph.leaders(alloc)?;
        Ok(OnwardBound {
            gap,
            table,
            leaders,
        })
    }
}

// One entry, by those for less room.
fn bound_entry(graph: &RouteGraph, table: &[BoundEntry], j: u16, room: usize) -> BoundEntry
    requires place { j < graph.now.folded.places }
    requires room { room ≤ graph.now.capacity }
    requires table { IsBoundTableTo graph.now table.now (room * graph.now.folded.places + j) }
    ensures { IsBoundStep graph.now table.now j room result }
{
    let places = graph.places();
    let mut best = BoundEntry {
        least: FAR,
        other: FAR,
        by: 0,
    };
    if graph.follows(0, j) {
        best.least = graph.arc(0, j);
    }
    for i in 1..places {
        let demand = graph.demand(i) as usize;
        if demand <= room && graph.follows(i, j) {
            let entry = &table[(room - demand) * places as usize + i as usize];
            let value = onward_cost(entry, j, graph.arc(i, j));
            improve(&mut best, i, value);
        }
    }
    best
}

// What it costs to go on to a place, if the last customer before was not that place.
#[inline(always)]
fn onward_cost(entry: &BoundEntry, j: u16, arc: i64) -> i64
    requires least { unsigned_abs entry.now.least ≤ 2 ^ 62 }
    requires other { unsigned_abs entry.now.other ≤ 2 ^ 62 }
    requires arc { unsigned_abs arc ≤ MAX_ARC_PRICE }
    ensures around { entry.now.by ≡ j → result ≡ (entry.now.other +ℤ arc) }
    ensures along { (entry.now.by ≡ j → ⊥) → result ≡ (entry.now.least +ℤ arc) }
{
    if entry.by == j {
        entry.other + arc
    } else {
        entry.least + arc
    }
}

// Looks at one last customer more.
#[inline(always)]
fn improve(best: &mut BoundEntry, i: u16, value: i64)
    ensures { IsImproved best.old best.new i value }
{
    if value < best.least {
        best.other = best.least;
        best.least = value;
        best.by = i;
    } else if value < best.other {
        best.other = value;
    }
}
