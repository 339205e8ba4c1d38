//! Rows that a fractional solution of the linear program over routes violates: capacity cuts (Laporte and Nobert 1983) and subset rows with
//! limited memory (Jepsen, Petersen, Spoorendonk and Pisinger 2008; Pecin, Pessoa, Poggi and Uchoa 2017). Nothing rests on them, so the
//! functions promise little more than that they return: which rows are valid, `vrp_duals` and `vrp_priced_routes` tell.

mod capacity_cuts;
mod fives;
mod memory;
mod picking;
mod solution;
mod subset_rows;
mod support;
mod visits;

pub use capacity_cuts::{CutSearch, violated_entries};
pub use solution::{ONE, UsedRoute};
pub use subset_rows::{RowSearch, violated_rows};
