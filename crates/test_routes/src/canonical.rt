//! Tests of `vrp_canonical` by values from outside.

mod found;
mod leaves;
mod plans;
