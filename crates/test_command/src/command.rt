//! Tests of `vrp_command` by values from outside.

mod bounds;
mod deadline;
mod faults;
mod files;
mod fixture;
mod hints;
mod limits;
mod line;
mod lines;
mod outcomes;
mod plans;
mod requests;
mod runs;
mod trucks;
