//! Tests of the lexer of `vrp_text` by values from outside.

mod keyword;
mod lines;
mod numeral;
mod tokens;
mod value;
