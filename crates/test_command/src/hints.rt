//! Tests of `vrp_command_streams` by values from outside.

mod answers;
mod files;
mod starts;
