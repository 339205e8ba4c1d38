//! Why dual prices are refused.
use thiserror::Error;

/// What is wrong with dual prices for an instance.
#[derive(Clone, Copy, Debug, PartialEq, Eq, Error)]
pub enum DualFault {
    /// The instance has more places than a set of customers can hold.
    #[error("too many places")]
    TooManyPlaces,
    /// The scale is 0 or above `MAX_SCALE`.
    #[error("scale out of range")]
    ScaleOutOfRange,
    /// There isn't one price for each place.
    #[error("not one price for each place")]
    PriceCount,
    /// The depot's price isn't 0.
    #[error("the depot has a price")]
    DepotPrice,
    /// The price of a customer is further from 0 than `MAX_PRICE`.
    #[error("price of a customer too large")]
    PriceTooLarge,
    /// There are more than `MAX_ENTRY_ROWS` entry rows.
    #[error("too many entry rows")]
    TooManyEntryRows,
    /// The price of an entry row is further from 0 than `MAX_ENTRY_PRICE`.
    #[error("price of an entry row too large")]
    EntryPriceTooLarge,
    /// An entry row has the depot among its customers.
    #[error("an entry row has the depot")]
    DepotInEntryRow,
    /// There are more than `MAX_SUBSET_ROWS` subset rows.
    #[error("too many subset rows")]
    TooManySubsetRows,
    /// The price of a subset row is above `MAX_ROW_PRICE`.
    #[error("price of a subset row too large")]
    RowPriceTooLarge,
    /// A subset row has neither three nor five customers.
    #[error("a subset row needs three or five customers")]
    RowSize,
    /// The memory of a subset row lacks one of its customers.
    #[error("a customer outside the memory of its subset row")]
    OutsideMemory,
}
