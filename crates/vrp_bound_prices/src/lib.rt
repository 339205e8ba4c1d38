//! A second problem beside an instance, whose arcs have prices and whose demands are counted in a coarser unit: the cost of a
//! plan there bounds its cost in the instance. And the search for prices that bound well.
#![tactic(auto)]

mod amounts;
mod arcs;
mod ascent;
mod cut;
mod cut_prices;
mod law;
mod limits;
mod prices;
mod relaxation;

pub use amounts::{capacity_in_units, demand_in_units};
pub use ascent::{
    FoundPrices, LeastRoute, LeastRoutes, MAX_BOUND_TABLE, NO_WALK, NearLooks, Size, UsedArc,
    WHOLE_TOUR, Walks, find_prices,
};
pub use cut::CapacityCut;
pub use law::{
    costs_with_prices, cuts_are_crossed, cuts_by_test, prices_relax, rounded_words, same_symmetry,
    tours_bound,
};
pub use limits::{MAX_CUT_PRICE, MAX_CUTS, MAX_SCALE};
pub use relaxation::Relaxation;
