//! Labels of endings of routes under dual prices: their closure under dominance, pruned by an onward bound; what completes a beginning of a
//! route; and the arcs that cheap routes use.
#![tactic(auto)]

mod bands;
mod closing;
mod completions;
mod digest;
mod dominance;
mod fixing;
mod graph;
mod label;
mod law;
mod leaders;
mod lookup;
mod onward;
mod piles;
mod runs;
mod widening;

pub use closing::{Closing, ClosingLimit, close};
pub use completions::Completions;
pub use graph::{GraphParts, MAX_UNITS, RouteGraph};
pub use label::Label;
pub use law::{cheap_routes_reverse, cheap_routes_stay_alive, plans_have_cheap_routes};
pub use piles::LabelPiles;
