//! A set partitioning: the cheapest choice of routes that together serve each customer once.
#![tactic(auto)]

mod bounding;
mod cover;
mod guide;
mod law;
mod narrowing;
mod node;
mod pool;
mod priced;
mod prices;
mod route;
mod search;
mod task;

pub use bounding::{Chosen, NodeOutcome, OpenRoutes};
pub use cover::{Column, Cover, CoverNode, cheapest_cover};
pub use guide::Guide;
pub use law::{
    choices_branch, costly_routes_left_out, demand_brings_routes, no_choice_in_a_negative_gap,
    prices_bound_choices,
};
pub use narrowing::routes_within;
pub use pool::{all_fit, apart, none_negative, reduced_costs, together, within_gap};
pub use prices::{Cut, PriceOffer, Prices, SCALE};
pub use route::Route;
pub use search::{Found, cheapest_choice};
pub use task::{Query, Task};
