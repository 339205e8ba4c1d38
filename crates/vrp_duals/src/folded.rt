//! Dual prices folded into prices of arcs and sets of rows.
ghost use Rattle.std.specs.Prelude.{◌≡◌, ◌≤◌, ◌<◌, ◌+◌, ◌*◌, ◌↔◌, ℕ, pos, IfOk, IsTrue, length, slice_index, slice_index_or, unsigned_abs};
ghost use Rattle.std.specs.List.{All};
ghost use Rattle.vrp_model.specs.declared.customers.customer_set.TheConstants.{PLACES};
ghost use Rattle.vrp_duals.specs.Folding.{AreReversed, arc_of, due_at, members_at, memories_at, remembering, rows_at, weigh};
ghost use Rattle.vrp_duals.specs.declared.limits.TheConstants.{MAX_ARC_PRICE, MAX_ROW_CHARGE};

use crate::row_set::RowSet;
use crate::sums::{weigh, weighs_at_most};
use std::alloc::{AllocError, Global};
use std::marker::Model;

/// Dual prices folded into prices of arcs and sets of rows: what a route costs is read off them arc by arc and stop by stop.
#[derive(Debug, Drop)]
pub struct FoldedDuals {
    pub(crate) places: u16,
    // By the place that an arc comes from, and then the place that it goes to.
    pub(crate) arc_prices: Vec<i64>,
    // By place.
    pub(crate) members: Vec<RowSet>,
    // By place.
    pub(crate) memories: Vec<RowSet>,
    // By row, with a price of 0 for each row that there isn't.
    pub(crate) row_prices: Vec<u64>,
}

impl Model for FoldedDuals {
    ghost use Rattle.vrp_duals.specs.Folding.{FoldedOf, IsTable, folded_of};

    ghost Value = { FoldedOf };

    ghost view = { λ a. folded_of a.places a.arc_prices.items a.members.items a.memories.items a.row_prices.items };

    ghost invariant = { λ a. IsTable (folded_of a.places a.arc_prices.items a.members.items a.memories.items a.row_prices.items) };
}

impl FoldedDuals {
    /// The number of places, the depot among them.
    #[inline(always)]
    pub fn places(&self) -> u16
        ensures value { result ≡ self.now.places }
        ensures some { 1 ≤ result }
        ensures few { result ≤ PLACES }
    {
        self.places
    }

    /// The price of the arc from one place to another, in price units.
    #[inline(always)]
    pub fn arc_price(&self, from: u16, to: u16) -> i64
        requires from { from < self.now.places }
        requires to { to < self.now.places }
        ensures value { result ≡ arc_of self.now from to }
        ensures small { unsigned_abs result ≤ MAX_ARC_PRICE }
    {
        self.arc_prices[usize::from(from) * usize::from(self.places) + usize::from(to)]
    }

    /// The rows that have a place.
    #[inline(always)]
    pub fn members(&self, place: u16) -> RowSet
        requires { place < self.now.places }
        ensures { result ≡ members_at self.now place }
    {
        self.members[usize::from(place)]
    }

    /// The rows whose memory has a place.
    #[inline(always)]
    pub fn memories(&self, place: u16) -> RowSet
        requires { place < self.now.places }
        ensures { result ≡ memories_at self.now place }
    {
        self.memories[usize::from(place)]
    }

    /// The rows in state 1 after a stop, if `rows` are those before it: a row whose memory lacks the stop leaves state 1, and a row that
    /// has the stop changes its state.
    #[inline(always)]
    pub fn rows_at(&self, stop: u16, rows: RowSet) -> RowSet
        requires { stop < self.now.places }
        ensures { result ≡ rows_at self.now stop rows }
    {
        let kept = rows.intersection(self.memories(stop));
        kept.symmetric_difference(self.members(stop))
    }

    /// What is due at a stop, in price units, if `rows` are in state 1 before it: the prices of those that have the stop.
    #[inline(always)]
    pub fn due_at(&self, stop: u16, rows: RowSet) -> u64
        requires { stop < self.now.places }
        ensures value { result ≡ due_at self.now stop rows }
        ensures small { result ≤ MAX_ROW_CHARGE }
    {
        self.weigh(rows.intersection(self.members(stop)))
    }

    /// The sum of the prices of a set of rows, in price units.
    #[inline(always)]
    pub fn weigh(&self, rows: RowSet) -> u64
        ensures value { result ≡ weigh self.now.row_prices rows }
        ensures small { result ≤ MAX_ROW_CHARGE }
    {
        // Mostly there is none.
        if rows.is_empty() {
            return 0;
        }
        weigh(&self.row_prices, rows)
    }

    /// Whether the prices of a set of rows sum to no more than a limit, in price units.
    #[inline(always)]
    pub fn weighs_at_most(&self, rows: RowSet, limit: u64) -> bool
        ensures { IsTrue result ↔ (weigh self.now.row_prices rows ≤ limit) }
    {
        weighs_at_most(&self.row_prices, rows, limit)
    }

    /// The same prices with other memories, one for each place. With those of `Duals::full_memories` rows are counted in full.
    pub fn remembering(self, memories: Vec<RowSet>) -> FoldedDuals
        requires { length memories.items ≡ self.places }
        ensures { result ≡ remembering self memories.items }
    {
        FoldedDuals { memories, ..self }
    }

    /// The same prices with each arc turned round: it costs what the arc the other way costs. The only error is lack of memory.
    pub fn reversed(&self, alloc: Global) -> Result<FoldedDuals, AllocError>
        ensures { IfOk result (AreReversed self.now) }
    {
        Ok(FoldedDuals {
            places: self.places,
            arc_prices: self.reversed_arcs(alloc)?,
            members: Vec::from_slice(alloc, &self.members)?,
            memories: Vec::from_slice(alloc, &self.memories)?,
            row_prices: Vec::from_slice(alloc, &self.row_prices)?,
        })
    }

    // For each place, and then each other, the price of the arc to it from the other.
    fn reversed_arcs(&self, alloc: Global) -> Result<Vec<i64>, AllocError>
        ensures len { IfOk result (λ arcs. length arcs.items ≡ self.now.places * self.now.places) }
        ensures value { IfOk result (λ arcs. (from to : ℕ) → from < self.now.places → to < self.now.places
            → slice_index_or arcs.items (from * self.now.places + to) (pos 0) ≡ arc_of self.now to from) }
        ensures small { IfOk result (λ arcs. All (λ price. unsigned_abs price ≤ MAX_ARC_PRICE) arcs.items) }
    {
        let places = usize::from(self.places());
        let mut arcs = Vec::with_capacity(alloc, places * places)?;
        for index in 0..places * places {
            let from = (index / places) as u16;
            let to = (index % places) as u16;
            arcs.push(self.arc_price(to, from))?;
        }
        Ok(arcs)
    }
}
