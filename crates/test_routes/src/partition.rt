//! Tests of `vrp_partition` by values from outside.

mod choices;
mod covers;
mod prices;
