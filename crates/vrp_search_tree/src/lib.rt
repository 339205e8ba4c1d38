//! The tree of plans: partial plans and their lower bounds, cuttings of the tree into pieces, the search of a piece, and the
//! feasible plan of an untrusted word.
#![tactic(auto)]

mod cutting;
mod law;
mod lawful;
mod partial;
mod piece;
mod piece_search;
mod tally;

pub use cutting::{Cutting, MAX_PIECES, MAX_REFINED};
pub use law::{one_low, one_piece, own_low_no_lower};
pub use lawful::{cheaper_plan, lawful_plan};
pub use partial::{Partial, Reserved};
pub use piece::Piece;
pub use piece_search::{Board, Ended, LOOKS_BEFORE_ASKING, Local, search};
pub use tally::Tally;
