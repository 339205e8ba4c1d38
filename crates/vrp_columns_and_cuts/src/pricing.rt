//! Pricing for column generation: routes of negative reduced cost under dual prices. It guides a linear program over routes: no answer
//! rests on which routes it finds.

mod bands;
mod closed_labels;
mod closing;
mod join_shares;
mod joins;
mod label;
mod label_shares;
mod near_masks;
mod onward;
mod price_table;
mod priced_routes;
mod pricer;
mod route_choice;
mod symmetry;
mod turns;

pub use priced_routes::PricedRoutes;
pub use pricer::{Effort, Limit, Priced, RoutePricer};
