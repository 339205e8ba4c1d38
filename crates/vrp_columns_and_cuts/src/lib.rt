//! What a linear program over routes asks for: routes of negative reduced cost, and cuts that a fractional solution violates. No answer
//! rests on which are found.
#![tactic(auto)]

mod pricing;
mod separation;

pub use pricing::{Effort, Limit, Priced, PricedRoutes, RoutePricer};
pub use separation::{CutSearch, ONE, RowSearch, UsedRoute, violated_entries, violated_rows};
