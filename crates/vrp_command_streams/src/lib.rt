//! The input and output of a run: the bytes of its input, the report, its progress line by line, the texts of its faults, and hints: more
//! about a fault or an answer than its line says, and what to do about it.
#![tactic(auto)]

mod answer;
mod fault;
mod file;
mod input;
mod keyword;
mod line;
mod output;
mod progress;
mod progress_line;
mod quoted;
mod refusal;
mod refused;
mod report;
mod start;

pub use answer::{AnswerHint, depot_hint, no_plan_hint};
pub use fault::{RunError, exit_status, fault_line};
pub use file::FileHint;
pub use input::read_input;
pub use output::write_report;
pub use progress::Progress;
pub use progress_line::{Line, LongRun, RunState};
pub use quoted::Quoted;
pub use refused::file_hint;
pub use report::{report_text, solution_text};
pub use start::{StartHint, start_hint, stated_cost};
pub use vrp_answer::Status;
