//! Tests of `vrp_sharing` by values from outside.

mod book;
mod fixture;
mod register;
