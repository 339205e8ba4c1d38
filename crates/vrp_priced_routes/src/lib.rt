//! Routes by dual prices: from prices and a limit on the cost of a plan to a lower bound, the arcs that plans within the limit use, and a
//! complete pool of their useful routes.
#![tactic(auto)]

mod alive_arcs;
mod bounds;
mod closed;
mod fault;
mod label_test;
mod near_sets;
mod pass;
mod priced_graph;
mod priced_labels;
mod units;

pub use alive_arcs::AliveArcs;
pub use fault::PassFault;
pub use near_sets::nearest_sets;
pub use pass::{Pass, Passed, run_pass};
pub use priced_labels::PricedLabels;
pub use units::{UnitDemands, unit_demands};
