//! Dual prices, and the costs of routes by them.

mod by_hand;
pub(crate) mod fixture;
mod folded;
mod limits;
mod slow;
