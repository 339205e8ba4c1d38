//! Turns the workers' results for the pieces of a cutting into an answer: a plan and its verdict.
#![tactic(auto)]

mod answers;
mod conclusion;
mod events;
mod finding;
mod gates;
mod gatherer;
mod open_pieces;
mod outcome;
mod resources;
mod shared;
mod status;

pub use answers::{Answer, SolveError, Solved};
pub use conclusion::conclude;
pub use events::{Event, Stage};
pub use finding::Finding;
pub use gates::{Gate, NoGate};
pub use gatherer::{GatherError, Gatherer};
pub use outcome::{Finished, OpenPiece, PieceOutcome, Searched};
pub use resources::Resources;
pub use shared::Shared;
pub use status::Status;
