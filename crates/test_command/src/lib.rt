//! Tests of `vrp_command`, writing in `vrp_plan_text` and the hints of `vrp_command_streams` with values from outside. They are a
//! separate crate, since a crate with tests is proved twice.
#![tactic(auto)]

#[cfg(test)]
mod assertion;
#[cfg(test)]
mod command;
#[cfg(test)]
mod hints;
#[cfg(test)]
mod plan_write;
