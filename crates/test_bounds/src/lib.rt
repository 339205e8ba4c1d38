//! Tests of the ng-sets of `vrp_model`, and of `vrp_bound` and `vrp_bound_prices` by hand, with values from
//! outside, and compared with plain slow programs. They are a separate crate, since a crate with tests is proved twice.
#![tactic(auto)]

#[cfg(test)]
mod ascent;
#[cfg(test)]
mod assertion;
#[cfg(test)]
mod bound;
#[cfg(test)]
mod ng_sets;
#[cfg(test)]
mod prices;
#[cfg(test)]
mod walks;
