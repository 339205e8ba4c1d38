//! Fixtures that several test crates share: instances, plans of two customers, pseudo-random numbers, and a plain slow
//! program for the canonical plan. It is proved as a library, so it takes no handle by which a test ends: a fixture that
//! can't be made is an `Err`, which the test unwraps.
#![tactic(auto)]

mod fault;
mod instances;
mod plans;
mod random;
mod slow;

pub use fault::FixtureError;
pub use instances::{
    E_N22_K4_DEMANDS, E_N22_K4_POINTS, FIVE, FOUR, LINE, SCATTERED, SQUARE, at_points, in_layout,
    one_each, with_arcs,
};
pub use plans::joined;
pub use random::Random;
pub use slow::{Canonical, canonical_plan};
