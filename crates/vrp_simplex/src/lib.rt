//! The guide of a search among routes: a linear program over the routes of a pool, with cuts. Its answers are not trusted, so its functions
//! promise only that they return. If numbers grow too large, sums wrap.
#![tactic(auto)]

mod branching;
mod capacity_cuts;
mod cut;
mod fixed_point;
mod guide;
mod inherited;
mod naming;
mod node;
mod program;
mod progress;
mod row_prices;
mod scope;
mod separation;
mod start;
mod subset_rows;

pub use guide::ProgramGuide;
