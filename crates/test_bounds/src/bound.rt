//! Tests of `vrp_bound` by values from outside.

mod arcs;
mod capacity;
mod divisor;
mod fixture;
mod greater;
mod ng_tours;
mod over;
mod quotients;
mod slow_walks;
mod tables;
mod units;
