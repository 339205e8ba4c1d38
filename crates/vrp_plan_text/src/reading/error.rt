//! Why a solution is refused.
ghost use Rattle.std.specs.Prelude.{◌≡◌};
ghost use Rattle.vrp_plan_text.specs.declared.reading.error.SolutionError.TheVariants.{OutOfMemory};

use std::alloc::{AllocError, AllocFailed};
use vrp_model::NoMemory;

/// Why a solution is refused: the fault of a line, or of a route and a customer, by the numbers that the solution uses.
#[derive(Clone, Copy, Debug, PartialEq, Eq, Drop, thiserror::Error)]
pub enum SolutionError {
    /// The line is neither a route nor a cost.
    #[error("line {0}: neither a route nor a cost")]
    UnknownLine(u64),
    /// The line has a token that is not a number, or a customer that is not a whole number.
    #[error("line {0}: bad number")]
    BadNumber(u64),
    /// The line states a second cost.
    #[error("line {0}: repeated cost")]
    RepeatedCost(u64),
    /// The route has a stop that is not a customer of the problem.
    #[error("route {route}: {customer} is not a customer")]
    NotACustomer {
        route: u64,
        customer: i64,
    },
    /// The route has a customer that this route or an earlier one already serves.
    #[error("route {route}: customer {customer} is served twice")]
    ServedTwice {
        route: u64,
        customer: u16,
    },
    /// No route has the customer.
    #[error("customer {0} is not served")]
    NotServed(u16),
    /// The route's customers demand more than the capacity.
    #[error("route {route}: load {load} above capacity {capacity}")]
    Overloaded {
        route: u64,
        load: u64,
        capacity: u64,
    },
    /// There are more routes than trucks.
    #[error("{routes} routes, more than there are trucks")]
    TooManyRoutes {
        routes: usize,
    },
    /// An allocation was refused.
    #[error("out of memory")]
    OutOfMemory,
}

impl<T: Drop> From<AllocFailed<T>> for SolutionError {
    ghost from_gives = { λ _ error. error ≡ OutOfMemory };

    fn from(_refusal: AllocFailed<T>) -> SolutionError {
        SolutionError::OutOfMemory
    }
}

impl From<AllocError> for SolutionError {
    ghost from_gives = { λ _ error. error ≡ OutOfMemory };

    fn from(_refusal: AllocError) -> SolutionError {
        SolutionError::OutOfMemory
    }
}

impl From<NoMemory> for SolutionError {
    ghost from_gives = { λ _ error. error ≡ OutOfMemory };

    fn from(_refusal: NoMemory) -> SolutionError {
        SolutionError::OutOfMemory
    }
}
