//! A linear program in whole numbers that gets columns, rows and branches as it goes: a primal and a dual simplex over sparse factors of
//! the basis. Its answers are not trusted: they guide.
#![tactic(auto)]

mod costs;
mod devex;
mod dual;
mod dual_search;
mod entries;
mod exchange;
mod factors;
mod fixed_point;
mod matrix;
mod names;
mod nucleus;
mod pricing;
mod primal;
mod program;
mod random;
mod ratio;
mod removal;
mod robust;
mod shortlist;
mod simplex;
mod singletons;
mod start;
mod values;
mod workspace;

pub use matrix::Sense;
pub use program::{LinearProgram, MOST_ROWS, Settings, UsedColumn};
