//! The command `cvrp` as a library: from the bytes of a file to the bytes of a report.
#![tactic(auto)]

mod answer;
mod answering;
mod command;
mod deadline;
mod fault;
mod form;
mod hints;
mod kept;
mod law;
mod outcome;
mod problem;
mod program;
mod solving;
mod start;
mod strict;
mod writing;

pub use command::{run, run_request};
pub use deadline::Deadline;
pub use fault::{RequestError, end};
pub use law::{one_answer, one_report};
pub use program::{end_without_run, run_arguments};
pub use start::{StartError, StartFile, open_start};
pub use vrp_command_request::{
    Format, LineFault, MAX_BUDGET, MAX_SECONDS, Options, Request, VERSION, argument_fault,
    line_status, parse_request, parse_words, unread_line_fault,
};
pub use vrp_command_streams::{Line, LongRun, RunError, RunState, Status, exit_status, fault_line};
pub use vrp_search_tree::MAX_PIECES;
pub use vrp_solver::{Event, Gate, MAX_WORKERS, NoGate, Resources, Stage};
