//! Tests of `vrp_simplex` by values from outside.

mod choices;
mod offers;
