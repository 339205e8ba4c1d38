//! The choice of the rows to add among those that a solution violates.
use crate::separation::solution::ONE;
use vrp_model::CustomerSet;

/// A set of customers, and how much a solution violates its row, in units of 1/2^20.
#[derive(Clone, Copy, Debug)]
pub(crate) struct Violated {
    pub(crate) customers: CustomerSet,
    pub(crate) excess: i64,
    // How often routes enter the set at least, or have two of its customers at most.
    pub(crate) count: u16,
}

/// The least violation that counts.
pub(crate) const LEAST_EXCESS: i64 = ONE / 20;

// Sets that differ by more than this many customers are not alike.
const ALIKE: u16 = 2;

/// Whether a set is one of these, or, if there are more than four, like one of them.
pub(crate) fn is_repeated(customers: CustomerSet, others: &[Violated]) -> bool {
    for other in others {
        let apart = customers
            .difference(other.customers)
            .union(other.customers.difference(customers));
        let limit = if others.len() > 4 { ALIKE } else { 0 };
        if apart.len() <= limit {
            return true;
        }
    }
    false
}
