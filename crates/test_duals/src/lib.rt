//! Tests of `vrp_duals`, `vrp_labels` and `vrp_priced_routes`: by hand, compared with plain slow programs, and at the limits. They are a separate crate, since a
//! crate with tests is proved twice.
#![tactic(auto)]

#[cfg(test)]
mod assertion;
#[cfg(test)]
mod duals;
#[cfg(test)]
mod labels;
#[cfg(test)]
mod passes;
