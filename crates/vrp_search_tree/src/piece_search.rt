//! The search of a piece of the tree of plans, by lower bounds, and the board that receives the plans it finds.

mod board;
mod depth_first;
mod found;
mod local;
mod spending;

pub use board::{Board, LOOKS_BEFORE_ASKING};
pub use depth_first::{Ended, search};
pub use local::Local;
