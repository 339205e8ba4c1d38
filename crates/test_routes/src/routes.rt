//! Tests of `vrp_routes` by values from outside.

mod canonical_plans;
mod listed;
mod pools;
