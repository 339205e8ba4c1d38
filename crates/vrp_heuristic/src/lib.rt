//! Near-optimal plans: a plan by savings (Clarke and Wright 1964), runs of ruin and recreate (Christiaens and Vanden Berghe 2020) from it
//! or from any other plan, and the best recombination of the routes that they find. What a run finds only guides: whoever makes a plan
//! of it checks first that it is feasible.
#![tactic(auto)]

mod arcs;
mod changes;
mod detours;
mod gathered;
mod generations;
mod giant_tour;
mod heuristic;
mod improved;
mod joined_routes;
mod joint;
mod moves;
mod near;
mod population;
mod random;
mod reach;
mod recombined;
mod recreate;
mod routes;
mod ruin;
mod runs;
mod savings;
mod split;
mod surroundings;
mod taken;
mod threshold;
mod triangle;

pub use gathered::Gathered;
pub use heuristic::{ENOUGH_MOVES, HeuristicPlan, heuristic_plan};
pub use improved::{evolved_plan, improved_plan};
pub use joined_routes::JoinedRoutes;
pub use moves::{Course, States, run};
pub use random::Random;
pub use recombined::recombined_plan;
pub use routes::Routes;
pub use savings::savings_plan;
pub use surroundings::Surroundings;
pub use taken::Taken;
pub use threshold::{Length, Threshold};
