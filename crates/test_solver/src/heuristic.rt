//! Tests of `vrp_heuristic`: plans by savings, runs of ruin and recreate, heuristic plans, and improved plans.

mod fixture;
mod improved;
mod plans;
mod runs;
mod savings;
