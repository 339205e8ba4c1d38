//! The customers of an instance: sets of them, their demands, and the trucks that serve them.

mod all;
mod customer_set;
mod fleet;
mod members;

pub use all::{all_customers, route_sets};
pub use customer_set::{CustomerSet, MOST_CUSTOMERS, PLACES};
pub use fleet::{Fleet, FleetView};
pub use members::Members;
