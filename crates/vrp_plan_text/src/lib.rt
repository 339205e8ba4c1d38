//! Plans as texts: CVRPLIB's `.sol` format is read, and findings are written as JSON or as a picture.
#![tactic(auto)]

mod reading;
mod writing;

pub use reading::{Solution, SolutionError};
pub use writing::{Context, Points, Settings, json_text, name_of, picture_text};
