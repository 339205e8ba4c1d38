//! The search for prices that bound well: each round fills tables and steps towards a higher bound. Any prices bound, so no answer
//! depends on this. A round finds the least walks home, and the least tours that carry the whole demand, over arcs with prices and cut
//! prices, which may be negative. Walks have ng-sets; if numbers grow too large, sums wrap.

mod cells;
mod entered;
mod flow;
mod growth;
mod guide;
mod least_routes;
mod lift;
mod near_looks;
mod remembered;
mod rounds;
mod separation;
mod shares;
mod size;
mod sparse_graph;
mod step;
mod stepped_cuts;
mod tours_used;
mod unit;
mod walks;

pub use cells::NO_WALK;
pub use guide::MAX_BOUND_TABLE;
pub use least_routes::{LeastRoute, LeastRoutes};
pub use near_looks::NearLooks;
pub use rounds::{FoundPrices, find_prices};
pub use size::Size;
pub use tours_used::{UsedArc, WHOLE_TOUR};
pub use walks::Walks;
