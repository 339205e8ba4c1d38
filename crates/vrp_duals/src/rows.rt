//! The priced rows of a linear program over routes, beside those of the customers.

use vrp_model::CustomerSet;

/// A set of customers, none of them the depot. Plans enter it at least `count` times where the price is above 0, and at most `count` times
/// where it is below 0. Each arc that enters the set is paid the price, in price units.
#[derive(Clone, Copy, Debug)]
pub struct EntryRow {
    /// The set.
    pub customers: CustomerSet,
    /// How often it is entered.
    pub count: u16,
    /// At most `MAX_ENTRY_PRICE` away from 0.
    pub price: i64,
}

/// A subset row with limited memory: three or five customers, and a memory that has all of them. A route pays the price, in price units,
/// for each second customer of the row that it comes to before it leaves the memory.
#[derive(Clone, Copy, Debug)]
pub struct SubsetRow {
    /// The three or five.
    pub customers: CustomerSet,
    /// The places where the row is remembered.
    pub memory: CustomerSet,
    /// At most `MAX_ROW_PRICE`.
    pub price: u64,
}
