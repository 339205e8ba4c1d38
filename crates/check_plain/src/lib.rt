//! A second, short definition of plain CVRP files, and the law that they mean what they state.
#![tactic(auto)]

mod law;

pub use law::plain_files;
