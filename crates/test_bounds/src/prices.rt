//! Tests of `vrp_bound_prices` by values from outside.

mod relaxation;
