//! The parts of a line in a CVRP file of TSPLIB 95: lines, tokens, keywords, numerals and the values of keywords.

mod fault;
mod key;
mod keyword;
mod limits;
mod lines;
mod numeral;
mod tokens;
mod value;

pub use fault::FileLineFault;
pub use key::Key;
pub use keyword::{Keyword, keyword_of};
pub use limits::{MAX_BYTES, MAX_DEMAND, MAX_DIGITS, MAX_NODE, MAX_POWER, MAX_POWER_DIGITS};
pub use lines::{DataLine, Heading, Lines, keyword_len, without_colon};
pub use numeral::{faulty_token, number};
pub use tokens::{Tokens, is_blank, skip_blanks};
pub use value::{
    WeightFormat, WeightKind, capacity, dimension, problem_type, weight_format, weight_kind,
};
