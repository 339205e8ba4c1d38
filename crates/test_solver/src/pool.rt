//! Tests of `vrp_solver` by values from outside.

pub(crate) mod fixture;
mod gatherer;
mod seat_board;
mod solver;
