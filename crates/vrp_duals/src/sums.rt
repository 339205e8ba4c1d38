//! Sums of dual prices.
ghost use Rattle.std.specs.Prelude.{◌≡◌, ◌≤◌, ◌<◌, ◌-◌, ◌*◌, ◌^◌, ◌↔◌, IsTrue, pos, ◌*ℤ◌, length, slice_index_or, unsigned_abs};
ghost use Rattle.std.specs.List.{All, range_with_len, sum_by};
ghost use Rattle.vrp_model.specs.declared.customers.customer_set.TheConstants.{PLACES};
ghost use Rattle.vrp_duals.specs.Duals.{HasRowSize, entry, int_sum_by, most_pairs};
ghost use Rattle.vrp_duals.specs.Folding.{weigh};
ghost use Rattle.vrp_duals.specs.declared.limits.TheConstants.{MAX_ENTRY_PRICE, MAX_ENTRY_ROWS, MAX_PRICE, MAX_ROW_CHARGE, MAX_ROW_PRICE, MAX_SUBSET_ROWS};
ghost use Rattle.vrp_duals.specs.declared.rows.EntryRow.{EntryRow};
ghost use Rattle.vrp_duals.specs.declared.rows.SubsetRow.{SubsetRow};

use crate::row_set::RowSet;
use crate::rows::{EntryRow, SubsetRow};

/// The sum of the prices of the customers, by place.
pub fn price_sum(prices: &[i64]) -> i64
    requires few { length prices.now ≤ PLACES }
    requires small { All (λ price. unsigned_abs price ≤ MAX_PRICE) prices.now }
    ensures value { result ≡ int_sum_by (λ place. slice_index_or prices.now place (pos 0))
        (range_with_len 1 (length prices.now - 1)) }
    ensures small { unsigned_abs result ≤ 2 ^ 54 }
{
    let mut sum = 0;
    for place in 1..prices.len() {
        sum += prices[place];
    }
    sum
}

/// What the entry rows are worth, each if its set is entered as often as it says.
pub fn entry_sum(entries: &[EntryRow]) -> i64
    requires few { length entries.now ≤ MAX_ENTRY_ROWS }
    requires small { All (λ (row : EntryRow). unsigned_abs row.price ≤ MAX_ENTRY_PRICE) entries.now }
    ensures value { result ≡ int_sum_by (λ (row : EntryRow). pos row.count *ℤ row.price) entries.now }
    ensures small { unsigned_abs result ≤ 2 ^ 58 }
{
    let mut sum = 0;
    for row in entries {
        sum += worth(row);
    }
    sum
}

// What an entry row is worth, if its set is entered as often as it says.
fn worth(row: &EntryRow) -> i64
    requires { unsigned_abs row.now.price ≤ MAX_ENTRY_PRICE }
    ensures value { result ≡ pos row.now.count *ℤ row.now.price }
    ensures small { unsigned_abs result ≤ 2 ^ 49 }
{
    i64::from(row.count) * row.price
}

/// What the subset rows cost, each as often as a plan has pairs of its customers at most.
pub fn row_sum(rows: &[SubsetRow]) -> i64
    requires few { length rows.now ≤ MAX_SUBSET_ROWS }
    requires small { All (λ (row : SubsetRow). row.price ≤ MAX_ROW_PRICE) rows.now }
    requires sizes { All HasRowSize rows.now }
    ensures value { result ≡ pos (sum_by (λ (row : SubsetRow). most_pairs row * row.price) rows.now) }
    ensures small { unsigned_abs result ≤ 2 ^ 46 }
{
    let mut sum = 0;
    for row in rows {
        sum += u64::from(row.customers.len() / 2) * row.price;
    }
    sum as i64
}

/// The sum of the prices of a set of rows. There is a price for each row that there may be.
pub fn weigh(prices: &[u64], rows: RowSet) -> u64
    requires long { length prices.now ≡ MAX_SUBSET_ROWS }
    requires small { All (λ price. price ≤ MAX_ROW_PRICE) prices.now }
    ensures value { result ≡ weigh prices.now rows }
    ensures small { result ≤ MAX_ROW_CHARGE }
{
    let mut left = rows;
    let mut sum = 0;
    while let Some(row) = left.take_first() {
        sum += prices[usize::from(row)];
    }
    sum
}

/// Whether the prices of a set of rows sum to no more than a limit. There is a price for each row that there may be.
pub fn weighs_at_most(prices: &[u64], rows: RowSet, limit: u64) -> bool
    requires { length prices.now ≡ MAX_SUBSET_ROWS }
    ensures { IsTrue result ↔ (weigh prices.now rows ≤ limit) }
{
    let mut left = rows;
    let mut room = limit;
    while let Some(row) = left.take_first() {
        let price = prices[usize::from(row)];
        if price > room {
            return false;
        }
        room -= price;
    }
    true
}

/// What the entry rows pay for an arc.
pub fn entry_price(entries: &[EntryRow], from: u16, to: u16) -> i64
    requires from { from < PLACES }
    requires to { to < PLACES }
    requires few { length entries.now ≤ MAX_ENTRY_ROWS }
    requires small { All (λ (row : EntryRow). unsigned_abs row.price ≤ MAX_ENTRY_PRICE) entries.now }
    ensures value { result ≡ int_sum_by (λ (row : EntryRow). pos (entry row.customers from to) *ℤ row.price) entries.now }
    ensures small { unsigned_abs result ≤ 2 ^ 42 }
{
    let mut sum = 0;
    for row in entries {
        sum += paid(row, from, to);
    }
    sum
}

// What an entry row pays for an arc.
fn paid(row: &EntryRow, from: u16, to: u16) -> i64
    requires from { from < PLACES }
    requires to { to < PLACES }
    requires small { unsigned_abs row.now.price ≤ MAX_ENTRY_PRICE }
    ensures value { result ≡ pos (entry row.now.customers from to) *ℤ row.now.price }
    ensures small { unsigned_abs result ≤ MAX_ENTRY_PRICE }
{
    if !row.customers.contains(to) {
        return 0;
    }
    if row.customers.contains(from) {
        return 0;
    }
    row.price
}
