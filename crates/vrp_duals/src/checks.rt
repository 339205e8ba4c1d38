//! Whether dual prices fit an instance.
ghost use Rattle.std.specs.Prelude.{◌≡◌, ◌≤◌, ◌<◌, ◌↔◌, ℕ, ℤ, pos, IfErr, IsTrue, List, OnOk, length, slice_index_or, unsigned_abs};
ghost use Rattle.std.specs.Int.{bit_at};
ghost use Rattle.std.specs.List.{All};
ghost use Rattle.vrp_model.specs.declared.customers.customer_set.TheConstants.{PLACES};
ghost use Rattle.vrp_model.specs.Problem.{Problem};
ghost use Rattle.vrp_duals.specs.Checked.{AreEntryRows, ArePrices, AreSubsetRows};
ghost use Rattle.vrp_duals.specs.Duals.{HasRowSize, IsRemembered, duals_of};
ghost use Rattle.vrp_duals.specs.Fault.{IsFault};
ghost use Rattle.vrp_duals.specs.declared.limits.TheConstants.{MAX_ENTRY_PRICE, MAX_PRICE, MAX_ROW_PRICE};
ghost use Rattle.vrp_duals.specs.declared.rows.EntryRow.{EntryRow};
ghost use Rattle.vrp_duals.specs.declared.rows.SubsetRow.{SubsetRow};

use crate::fault::DualFault;
use crate::limits::{
    MAX_ENTRY_PRICE, MAX_ENTRY_ROWS, MAX_PRICE, MAX_ROW_PRICE, MAX_SCALE, MAX_SUBSET_ROWS,
};
use crate::rows::{EntryRow, SubsetRow};
use vrp_model::{Instance, PLACES};

/// Refuses a scale or prices of places that don't fit the instance.
pub fn check_prices(instance: &Instance, scale: u32, prices: &[i64]) -> Result<(), DualFault>
    ensures fit { OnOk result (ArePrices instance.now scale prices.now) }
    ensures refused { IfErr result (λ fault. (entries : List EntryRow) (rows : List SubsetRow)
        → IsFault instance.now (duals_of scale prices.now entries rows) fault) }
{
    let places = usize::from(instance.customers()) + 1;
    if places > PLACES {
        return Err(DualFault::TooManyPlaces);
    }
    if scale == 0 || scale > MAX_SCALE {
        return Err(DualFault::ScaleOutOfRange);
    }
    if prices.len() != places {
        return Err(DualFault::PriceCount);
    }
    if prices[0] != 0 {
        return Err(DualFault::DepotPrice);
    }
    if !are_small(prices) {
        return Err(DualFault::PriceTooLarge);
    }
    Ok(())
}

/// Refuses entry rows that are too many, that have too large a price or the depot.
pub fn check_entries(entries: &[EntryRow]) -> Result<(), DualFault>
    ensures fit { OnOk result (AreEntryRows entries.now) }
    ensures refused { IfErr result (λ fault. (p : Problem) (scale : ℕ) (prices : List ℤ) (rows : List SubsetRow)
        → IsFault p (duals_of scale prices entries.now rows) fault) }
{
    if entries.len() > MAX_ENTRY_ROWS {
        return Err(DualFault::TooManyEntryRows);
    }
    if !are_small_entries(entries) {
        return Err(DualFault::EntryPriceTooLarge);
    }
    if !are_outside(entries) {
        return Err(DualFault::DepotInEntryRow);
    }
    Ok(())
}

/// Refuses subset rows that are too many, that have too high a price, not three or five customers, or a customer outside the memory.
pub fn check_rows(rows: &[SubsetRow]) -> Result<(), DualFault>
    ensures fit { OnOk result (AreSubsetRows rows.now) }
    ensures refused { IfErr result (λ fault. (p : Problem) (scale : ℕ) (prices : List ℤ) (entries : List EntryRow)
        → IsFault p (duals_of scale prices entries rows.now) fault) }
{
    if rows.len() > MAX_SUBSET_ROWS {
        return Err(DualFault::TooManySubsetRows);
    }
    if !are_small_rows(rows) {
        return Err(DualFault::RowPriceTooLarge);
    }
    if !have_row_size(rows) {
        return Err(DualFault::RowSize);
    }
    if !are_remembered(rows) {
        return Err(DualFault::OutsideMemory);
    }
    Ok(())
}

// Whether no price is too far from 0.
fn are_small(prices: &[i64]) -> bool
    ensures { IsTrue result ↔ All (λ price. unsigned_abs price ≤ MAX_PRICE) prices.now }
{
    prices.iter().all(|price| price.unsigned_abs() <= MAX_PRICE)
}

// Whether no price is too far from 0.
fn are_small_entries(entries: &[EntryRow]) -> bool
    ensures { IsTrue result ↔ All (λ (row : EntryRow). unsigned_abs row.price ≤ MAX_ENTRY_PRICE) entries.now }
{
    entries
        .iter()
        .all(|row| row.price.unsigned_abs() <= MAX_ENTRY_PRICE)
}

// Whether no row has the depot.
fn are_outside(entries: &[EntryRow]) -> bool
    ensures { IsTrue result ↔ All (λ (row : EntryRow). bit_at row.customers 0 ≡ 0) entries.now }
{
    entries.iter().all(|row| !row.customers.contains(0))
}

// Whether no price is too high.
fn are_small_rows(rows: &[SubsetRow]) -> bool
    ensures { IsTrue result ↔ All (λ (row : SubsetRow). row.price ≤ MAX_ROW_PRICE) rows.now }
{
    rows.iter().all(|row| row.price <= MAX_ROW_PRICE)
}

// Whether each row has three or five customers.
fn have_row_size(rows: &[SubsetRow]) -> bool
    ensures { IsTrue result ↔ All HasRowSize rows.now }
{
    rows.iter().all(|row| {
        let count = row.customers.len();
        count == 3 || count == 5
    })
}

// Whether each row's customers are in its memory.
fn are_remembered(rows: &[SubsetRow]) -> bool
    ensures { IsTrue result ↔ All IsRemembered rows.now }
{
    rows.iter().all(|row| is_remembered(row))
}

// Whether a row's customers are in its memory.
fn is_remembered(row: &SubsetRow) -> bool
    ensures { IsTrue result ↔ IsRemembered row.now }
{
    row.customers.is_subset(row.memory)
}
