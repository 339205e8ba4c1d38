//! Dual prices by column generation (Desrosiers and Lübbecke 2005): a linear program over routes, whose columns are found by pricing and
//! whose rows by separation, and the passes by its prices, down to a pool of useful routes. The answer rests on the passes alone: whatever
//! the prices are, the lower bound is true and the pool is complete.
#![tactic(auto)]

mod columns;
mod generation;
mod guide;
mod last_prices;
mod leaf_prices;
mod leaves;
mod master;
mod pace;
mod pools;
mod program_rows;
mod progress;
mod rounds;

pub use generation::{Generation, generate_routes};
pub use guide::Settings;
pub use last_prices::LastPrices;
pub use pools::{LeafPools, Pools};
