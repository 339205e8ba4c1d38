//! The capacitated vehicle routing problem: exact weights, instances and plans, sets of customers and the fleet, the memory of walks
//! (ng-sets), and the definitions that the promises of all other crates cite (`specs/`).
#![tactic(auto)]

mod crew;
mod customers;
mod depots;
mod instance;
mod law;
mod layout;
mod least;
mod limits;
mod matrix;
mod memory;
mod metric;
mod near;
mod ng_law;
mod ng_sets;
mod places;
mod plan;
mod root;
mod symmetry;
mod weights;

pub use crew::{Crew, News, Quiet, Unhurried, Watch};
pub use customers::{
    CustomerSet, Fleet, FleetView, MOST_CUSTOMERS, Members, PLACES, all_customers, route_sets,
};
pub use instance::{Instance, InstanceError};
pub use law::{
    canonical_is_cheapest, child_cases, equal_words_equal_plans, longer_trees, one_canonical,
    one_child, one_distance, order_is_strict, order_is_total, plans_are_words, plans_can_rise,
    plans_can_turn, plans_cost_less, plans_have_words, prefixes_without_completion, some_canonical,
    tree_sizes, trees_of_children, words_are_plans,
};
pub use layout::Layout;
pub use limits::{
    MAX_ARCS, MAX_CAPACITY, MAX_COORDINATE, MAX_NODES, MAX_WEIGHT, MAX_WHOLE_DEMAND, NO_COST,
};
pub use memory::NoMemory;
pub use metric::Metric;
pub use ng_law::{comes_back_to_none, ng_set_continues};
pub use ng_sets::{MOST_NEAR, NgSets};
pub use plan::{Plan, route_cost, route_load};
pub use root::isqrt;
pub use weights::Weights;
