//! The options of a run, the grammar of the command line that states them, and hints on arguments that are refused.
#![tactic(auto)]

mod arguments;
mod given;
mod grammar;
mod hint;
mod limits;
mod options;

pub use arguments::{
    LineFault, argument_fault, line_status, parse_request, parse_words, unread_line_fault,
};
pub use grammar::VERSION;
pub use hint::{ArgumentHint, Takes, argument_hint};
pub use limits::{MAX_BUDGET, MAX_SECONDS};
pub use options::{Format, Options, Request};
