//! CVRP files of TSPLIB 95: from their bytes to the instances that they mean.
#![tactic(auto)]

mod complete;
mod error;
mod fault;
mod instance;
mod keys;
mod law;
mod lexer;
mod nodes;
mod reading;
mod section;
mod statements;

pub use error::TextError;
pub use instance::read;
pub use law::{one_meaning, some_meaning};
pub use lexer::{
    DataLine, FileLineFault, Heading, Key, Keyword, Lines, MAX_BYTES, MAX_DEMAND, MAX_DIGITS,
    MAX_NODE, MAX_POWER, MAX_POWER_DIGITS, Tokens, WeightFormat, WeightKind, capacity, dimension,
    faulty_token, is_blank, keyword_len, keyword_of, number, problem_type, skip_blanks,
    weight_format, weight_kind, without_colon,
};
pub use section::Section;
