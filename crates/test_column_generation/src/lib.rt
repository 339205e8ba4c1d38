//! Tests of what column generation stands on: the linear program, pricing and separation. They are a separate crate, since a crate with
//! tests is proved twice.
#![tactic(auto)]

#[cfg(test)]
mod assertion;
#[cfg(test)]
mod linear_program;
#[cfg(test)]
mod pricing;
#[cfg(test)]
mod separation;
