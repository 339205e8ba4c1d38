//! Lower bounds on what is still to pay under a partial plan: the q-routes of Christofides, Mingozzi and Toth (1981), and a
//! capacity bound. For all plans together: the least ng-tours.
#![tactic(auto)]

mod arc;
mod arcs;
mod capacity;
mod completion_table;
mod completions;
mod divisor;
mod greater;
mod law;
mod lower_bound;
mod ng_scope;
mod ng_tours;
mod ng_walks;
mod quotients;
mod scope;
mod tables;
mod tours;
mod trucks_left;
mod units;
mod walks;

pub use arc::Arc;
pub use arcs::take_least;
pub use capacity::{cap_bound, trucks_needed};
pub use completions::Shape;
pub use divisor::gcd;
pub use greater::bound;
pub use law::{
    bounds_hold, capacity_bounds, fewer_customers, ng_completions, ng_is_tighter,
    relaxed_completions, trucks_left_carry,
};
pub use lower_bound::LowerBound;
pub use ng_tours::least_ng_tours;
pub use quotients::Quotients;
pub use scope::Scope;
pub use tables::Tables;
pub use trucks_left::can_carry;
pub use units::unit_of;
