//! Tests of `vrp_text` by values from outside.

mod accepted;
mod cuts;
mod data_lines;
mod explicit;
mod fixture;
mod hostile;
mod keyword_lines;
mod lexer;
mod matrices;
mod nodes;
mod sections;
