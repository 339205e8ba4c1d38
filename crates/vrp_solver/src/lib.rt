//! Answers an instance cut into pieces: by useful routes if there are few, else by several workers who search the pieces.
#![tactic(auto)]

mod ascent_bound;
mod better_plan;
mod cheaper_plans;
mod choice;
mod columns;
mod draws;
mod guesses;
mod look;
mod pieces;
mod seat_board;
mod solver;
mod stage_watch;
mod stages;
mod start_plan;
mod team;
mod worker;

pub use look::LEAST_PREPARED_BUDGET;
pub use pieces::MAX_WORKERS;
pub use seat_board::SeatBoard;
pub use solver::{solve, solve_from};
pub use vrp_answer::{
    Answer, Event, Finished, Gate, GatherError, Gatherer, NoGate, Resources, SolveError, Solved,
    Stage,
};
pub use vrp_sharing::{Drawn, Owner, Pile, Thief, settle};
