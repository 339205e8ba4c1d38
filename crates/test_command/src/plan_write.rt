//! Tests of writing in `vrp_plan_text` by values from outside.

mod export;
mod fixture;
mod names;
mod pages;
