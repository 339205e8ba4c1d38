//! Tests of `vrp_model` by values from outside.

mod fits;
mod fixture;
mod instance;
mod layout;
mod memory;
mod metric;
mod plan;
mod root;
mod weights;
