//! Tests of `vrp_search_tree` by values from outside.

mod cutting;
mod depth_first;
mod fixture;
mod local;
mod partial;
mod piece;
mod slow;
mod spending;
mod walks;
