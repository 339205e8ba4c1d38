//! The canonical plan from a complete pool of routes, route by route.
#![tactic(auto)]

mod ahead;
mod asked;
mod canonical;
mod halving;
mod known;
mod known_cost;
mod law;
mod leaves;
mod narrowed;
mod ordered;
mod part;
mod plan_places;
mod question;
mod residual;
mod run;
mod searches;

pub use canonical::{RoutesOutcome, canonical_plan};
pub use law::{
    cheapest_answers, cheapest_is_canonical, choices_are_plans, earliest_is_next,
    least_is_canonical, next_route, none_is_cheap, plans_are_choices,
};
pub use leaves::{LeafGuides, LeafPool, canonical_plan_of_leaves};
pub use plan_places::canonical_places;
pub use residual::Residual;
