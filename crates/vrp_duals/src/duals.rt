//! Dual prices that fit an instance.
ghost use Rattle.std.specs.Prelude.{◌≡◌, ◌≤◌, ◌<◌, ◌+◌, ◌*◌, ℕ, pos, IfErr, IfOk, length, slice_index_or, unsigned_abs};
ghost use Rattle.std.specs.List.{All};
ghost use Rattle.vrp_model.specs.Problem.{place_count};
ghost use Rattle.vrp_duals.specs.Duals.{AreDualsOf, AreModerate, duals_of, low_of};
ghost use Rattle.vrp_duals.specs.Fault.{IsFault};
ghost use Rattle.vrp_duals.specs.Folding.{AreFull, IsFolded, arc_price};
ghost use Rattle.vrp_duals.specs.declared.limits.TheConstants.{MAX_ARC_PRICE, MAX_LOW};

use crate::checks::{check_entries, check_prices, check_rows};
use crate::fault::DualFault;
use crate::folded::FoldedDuals;
use crate::row_set::RowSet;
use crate::rows::{EntryRow, SubsetRow};
use crate::sums::{entry_price, entry_sum, price_sum, row_sum};
use crate::tables::{all_rows, members, memories, row_prices};
use std::alloc::Global;
use std::marker::Model;
use vrp_model::{Instance, NoMemory};

/// Dual prices of the linear program over an instance's routes: a price for each place, entry rows and subset rows. Any prices give a true
/// lower bound; only how high it is depends on where they come from.
#[derive(Debug, Drop)]
pub struct Duals {
    scale: u32,
    prices: Vec<i64>,
    entries: Vec<EntryRow>,
    rows: Vec<SubsetRow>,
}

impl Model for Duals {
    ghost use Rattle.vrp_duals.specs.Duals.{AreModerate, DualsOf, duals_of};

    ghost Value = { DualsOf };

    ghost view = { λ a. duals_of a.scale a.prices.items a.entries.items a.rows.items };

    ghost invariant = { λ a. AreModerate (duals_of a.scale a.prices.items a.entries.items a.rows.items) };
}

impl Duals {
    /// Dual prices for an instance of at most 256 places: the number of price units in a unit of cost (from 1 to `MAX_SCALE`), a price for
    /// each place with the depot's 0 first, entry rows and subset rows. What doesn't fit is refused, with a fault that it has.
    pub fn new(
        instance: &Instance,
        scale: u32,
        prices: Vec<i64>,
        entries: Vec<EntryRow>,
        rows: Vec<SubsetRow>,
    ) -> Result<Duals, DualFault>
        ensures values { IfOk result (λ duals.
            duals ≡ duals_of scale prices.items entries.items rows.items) }
        ensures fit { IfOk result (AreDualsOf instance.now) }
        ensures refused { IfErr result (IsFault instance.now
            (duals_of scale prices.items entries.items rows.items)) }
    {
        check_prices(instance, scale, &prices)?;
        check_entries(&entries)?;
        check_rows(&rows)?;
        Ok(Duals {
            scale,
            prices,
            entries,
            rows,
        })
    }

    /// The number of price units in a unit of cost.
    pub fn scale(&self) -> u32
        ensures value { result ≡ self.now.scale }
        // An invariant of all dual prices.
        ensures moderate { AreModerate self.now }
    {
        self.scale
    }

    /// The price of each place, in price units, the depot's 0 first.
    pub fn prices(&self) -> &[i64]
        ensures { result.now ≡ self.now.prices }
    {
        &self.prices
    }

    /// The entry rows.
    pub fn entries(&self) -> &[EntryRow]
        ensures { result.now ≡ self.now.entries }
    {
        &self.entries
    }

    /// The subset rows.
    pub fn rows(&self) -> &[SubsetRow]
        ensures { result.now ≡ self.now.rows }
    {
        &self.rows
    }

    /// What every plan that obeys the entry rows costs at least, in price units, but for the reduced costs of its routes.
    pub fn low(&self) -> i64
        ensures value { result ≡ low_of self.now }
        ensures small { unsigned_abs result ≤ MAX_LOW }
    {
        price_sum(&self.prices) + entry_sum(&self.entries) - row_sum(&self.rows)
    }

    /// The prices folded into prices of arcs and sets of rows. The only error is lack of memory.
    pub fn fold(&self, alloc: Global, instance: &Instance) -> Result<FoldedDuals, NoMemory>
        requires { length self.now.prices ≡ place_count instance.now }
        ensures { IfOk result (IsFolded instance.now self.now) }
    {
        let places = self.prices.len() as u16;
        Ok(FoldedDuals {
            places,
            arc_prices: self.arc_prices(alloc, instance)?,
            members: members(alloc, &self.rows, places)?,
            memories: memories(alloc, &self.rows, places)?,
            row_prices: row_prices(alloc, &self.rows)?,
        })
    }

    /// For each place all rows: memories for full counts. The only error is lack of memory.
    pub fn full_memories(&self, alloc: Global) -> Result<Vec<RowSet>, NoMemory>
        ensures len { IfOk result (λ sets. length sets.items ≡ length self.now.prices) }
        ensures full { IfOk result (λ sets. AreFull self.now sets.items) }
    {
        let all = all_rows(&self.rows);
        let mut sets = Vec::with_capacity(alloc, self.prices.len())?;
        for _ in 0..self.prices.len() {
            sets.push(all)?;
        }
        Ok(sets)
    }

    // The prices of all arcs, by the place that they come from and then the place that they go to.
    fn arc_prices(&self, alloc: Global, instance: &Instance) -> Result<Vec<i64>, NoMemory>
        requires { length self.now.prices ≡ place_count instance.now }
        ensures len { IfOk result (λ arcs. length arcs.items ≡ length self.now.prices * length self.now.prices) }
        ensures value { IfOk result (λ arcs. (from to : ℕ) → from < length self.now.prices → to < length self.now.prices
            → slice_index_or arcs.items (from * length self.now.prices + to) (pos 0) ≡ arc_price instance.now self.now from to) }
        ensures small { IfOk result (λ arcs. All (λ price. unsigned_abs price ≤ MAX_ARC_PRICE) arcs.items) }
    {
        let places = self.prices.len();
        let mut arcs = Vec::with_capacity(alloc, places * places)?;
        for index in 0..places * places {
            let from = (index / places) as u16;
            let to = (index % places) as u16;
            arcs.push(self.arc_price(instance, from, to))?;
        }
        Ok(arcs)
    }

    // The price of an arc.
    fn arc_price(&self, instance: &Instance, from: u16, to: u16) -> i64
        requires one_each { length self.now.prices ≡ place_count instance.now }
        requires from { from < place_count instance.now }
        requires to { to < place_count instance.now }
        ensures value { result ≡ arc_price instance.now self.now from to }
        ensures small { unsigned_abs result ≤ MAX_ARC_PRICE }
    {
        let cost = (u64::from(self.scale) * instance.weight(from, to)) as i64;
        cost - self.prices[usize::from(to)] - entry_price(&self.entries, from, to)
    }
}
