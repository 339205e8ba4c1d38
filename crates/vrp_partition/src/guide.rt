//! The guide of the search over the nodes.
use crate::prices::PriceOffer;
use crate::route::Route;
use crate::task::Task;
use std::alloc::AllocError;
use vrp_model::CustomerSet;

/// The guide of a search. None of its answers is trusted: the cost that the search finds does not depend on them, if its budget suffices.
/// An error ends the search.
pub trait Guide: Sized + Drop {
    /// Whether more rounds of prices are worth it.
    fn should_continue(&self) -> bool;

    /// Prices for the routes of a node, among which the task's choices are sought.
    fn offer(&mut self, pool: &[Route], task: &Task<'_>) -> Result<PriceOffer, AllocError>;

    /// The customers to branch on: in the first branch one route serves them all, in the second none does.
    fn group(&mut self, pool: &[Route]) -> Result<CustomerSet, AllocError>;

    /// A guide for the other branch, which continues from the state of this one.
    fn fork(&self) -> Result<Self, AllocError>;
}
