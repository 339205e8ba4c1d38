//! Tests of `vrp_model` and of the reading crates with values from outside: `vrp_text`, and reading in `vrp_plan_text`.
//! They are a separate crate, since a crate with tests is proved twice.
#![tactic(auto)]

#[cfg(test)]
mod assertion;
#[cfg(test)]
mod model;
#[cfg(test)]
mod solution;
#[cfg(test)]
mod text;
