//! Tests of `vrp_search_tree`, `vrp_heuristic`, `vrp_sharing` and `vrp_solver`, with `vrp_answer` below it, with values from outside. They
//! are a separate crate, since a crate with tests is proved twice.
#![tactic(auto)]

#[cfg(test)]
mod assertion;
#[cfg(test)]
mod heuristic;
#[cfg(test)]
mod pile;
#[cfg(test)]
mod pool;
#[cfg(test)]
mod register;
#[cfg(test)]
mod search;
