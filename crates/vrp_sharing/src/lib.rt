//! What the workers of a search share: the pile of pieces that they draw from, each piece once, and the register, which has the first
//! plan so far by cost and then by word, and the history of all offers.
#![tactic(auto)]

mod book;
mod caller;
mod cost_word;
mod counted;
mod draws;
mod entry;
mod law;
mod limits;
mod owner;
mod pile;
mod register;
mod thief;
mod view;

pub use book::Book;
pub use caller::Caller;
pub use entry::Entry;
pub use law::{least_falls, least_is_least, one_kept};
pub use limits::{MAX_DRAWERS, MAX_THIEVES};
pub use owner::Owner;
pub use pile::{Pile, settle};
pub use register::{Closed, Register, Reply};
pub use thief::{Drawn, Thief};
