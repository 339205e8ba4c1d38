//! Tables by place and by row: which rows have a place, which remember it, and what the rows cost.
ghost use Rattle.std.specs.Prelude.{◌≡◌, ◌≤◌, ◌<◌, ℕ, IfOk, length, map, slice_index};
ghost use Rattle.std.specs.Int.{bit_at};
ghost use Rattle.std.specs.List.{All};
ghost use Rattle.vrp_model.specs.declared.customers.customer_set.TheConstants.{PLACES};
ghost use Rattle.vrp_duals.specs.Folding.{bits_of};
ghost use Rattle.vrp_duals.specs.declared.limits.TheConstants.{MAX_ROW_PRICE, MAX_SUBSET_ROWS};
ghost use Rattle.vrp_duals.specs.declared.rows.SubsetRow.{SubsetRow};

use crate::limits::MAX_SUBSET_ROWS;
use crate::row_set::RowSet;
use crate::rows::SubsetRow;
use std::alloc::{AllocError, Global};

/// For each place the rows that have it.
pub fn members(alloc: Global, rows: &[SubsetRow], places: u16) -> Result<Vec<RowSet>, AllocError>
    requires few { length rows.now ≤ MAX_SUBSET_ROWS }
    requires places { places ≤ PLACES }
    ensures len { IfOk result (λ sets. length sets.items ≡ places) }
    ensures value { IfOk result (λ sets. (place : ℕ) → place < places
        → slice_index sets.items place ≡ bits_of (λ (row : SubsetRow). bit_at row.customers place) rows.now) }
{
    let mut sets = Vec::with_capacity(alloc, usize::from(places))?;
    for place in 0..places {
        sets.push(members_at(rows, place))?;
    }
    Ok(sets)
}

/// For each place the rows whose memory has it.
pub fn memories(alloc: Global, rows: &[SubsetRow], places: u16) -> Result<Vec<RowSet>, AllocError>
    requires few { length rows.now ≤ MAX_SUBSET_ROWS }
    requires places { places ≤ PLACES }
    ensures len { IfOk result (λ sets. length sets.items ≡ places) }
    ensures value { IfOk result (λ sets. (place : ℕ) → place < places
        → slice_index sets.items place ≡ bits_of (λ (row : SubsetRow). bit_at row.memory place) rows.now) }
{
    let mut sets = Vec::with_capacity(alloc, usize::from(places))?;
    for place in 0..places {
        sets.push(memories_at(rows, place))?;
    }
    Ok(sets)
}

/// All rows.
pub fn all_rows(rows: &[SubsetRow]) -> RowSet
    requires few { length rows.now ≤ MAX_SUBSET_ROWS }
    ensures { result ≡ bits_of (λ (row : SubsetRow). 1) rows.now }
{
    let mut set = RowSet::empty();
    for index in 0..rows.len() {
        set = set.with(index as u16);
    }
    set
}

// The rows that have a place.
fn members_at(rows: &[SubsetRow], place: u16) -> RowSet
    requires few { length rows.now ≤ MAX_SUBSET_ROWS }
    requires place { place < PLACES }
    ensures { result ≡ bits_of (λ (row : SubsetRow). bit_at row.customers place) rows.now }
{
    let mut set = RowSet::empty();
    for index in 0..rows.len() {
        if rows[index].customers.contains(place) {
            set = set.with(index as u16);
        }
    }
    set
}

// The rows whose memory has a place.
fn memories_at(rows: &[SubsetRow], place: u16) -> RowSet
    requires few { length rows.now ≤ MAX_SUBSET_ROWS }
    requires place { place < PLACES }
    ensures { result ≡ bits_of (λ (row : SubsetRow). bit_at row.memory place) rows.now }
{
    let mut set = RowSet::empty();
    for index in 0..rows.len() {
        if rows[index].memory.contains(place) {
            set = set.with(index as u16);
        }
    }
    set
}

/// The prices of the rows, and 0 for each row that there isn't.
pub fn row_prices(alloc: Global, rows: &[SubsetRow]) -> Result<Vec<u64>, AllocError>
    requires few { length rows.now ≤ MAX_SUBSET_ROWS }
    requires small { All (λ (row : SubsetRow). row.price ≤ MAX_ROW_PRICE) rows.now }
    ensures len { IfOk result (λ prices. length prices.items ≡ MAX_SUBSET_ROWS) }
    ensures value { IfOk result (λ prices. (index : ℕ)
        → slice_index prices.items index ≡ slice_index (map (λ (row : SubsetRow). row.price) rows.now) index) }
    ensures small { IfOk result (λ prices. All (λ price. price ≤ MAX_ROW_PRICE) prices.items) }
{
    let mut prices = Vec::with_capacity(alloc, MAX_SUBSET_ROWS)?;
    for index in 0..MAX_SUBSET_ROWS {
        let price = if index < rows.len() {
            rows[index].price
        } else {
            0
        };
        prices.push(price)?;
    }
    Ok(prices)
}
