//! Plans in CVRPLIB's `.sol` format: reads routes of customers and a cost from a text, and checks whether they are feasible.

mod error;
mod lawful;
mod line;
mod listing;
mod route;
mod solution;

pub use error::SolutionError;
pub use solution::Solution;
