//! A plain slow program to compare with the tables: it tries every walk.

use crate::bound::fixture::{arc, demand};
use vrp_model::Instance;

/// Some customers of an instance, and for each place a bit for each customer near it.
#[derive(Clone, Copy)]
pub(crate) struct Walkers<'a> {
    pub(crate) instance: &'a Instance,
    pub(crate) customers: &'a [u16],
    pub(crate) near: &'a [u32],
}

/// The position of a walk, and the customers that it may not visit yet.
#[derive(Clone, Copy)]
pub(crate) struct Stand {
    pub(crate) at: u16,
    pub(crate) load: u64,
    pub(crate) rest: u64,
    // A bit for each place.
    pub(crate) barred: u32,
}

impl Stand {
    /// The beginning of a walk at a place.
    pub(crate) fn begun(at: u16, load: u64, rest: u64) -> Stand {
        let barred = if at == 0 { 0 } else { bit_of(at) };
        Stand {
            at,
            load,
            rest,
            barred,
        }
    }

    // The position after the next stop, if the walk may go there.
    fn gone_to(self, walkers: Walkers<'_>, customer: u16) -> Option<Stand> {
        let demand = demand(walkers.instance, customer);
        let load = self.load.saturating_add(demand);
        let bit = bit_of(customer);
        if self.barred & bit != 0 || demand > self.rest || load > walkers.instance.capacity() {
            return None;
        }
        let near = walkers
            .near
            .get(usize::from(customer))
            .copied()
            .unwrap_or(0);
        Some(Stand {
            at: customer,
            load,
            rest: self.rest - demand,
            barred: bit | (self.barred & near),
        })
    }
}

/// The least cost, over each next stop and each that follows, with at most this many steps. A walk returns to a customer only
/// if the customer is not near some stop in between, and never stays at a place.
pub(crate) fn every_walk(walkers: Walkers<'_>, stand: Stand, steps: u16) -> Option<u64> {
    if stand.at == 0 && stand.rest == 0 {
        return Some(0);
    }
    if steps == 0 {
        return None;
    }
    let mut least = None;
    if stand.at != 0 {
        let depot = Stand::begun(0, 0, stand.rest);
        let behind = every_walk(walkers, depot, steps - 1);
        least = plus(arc(walkers.instance, stand.at, 0), behind);
    }
    for &customer in walkers.customers {
        if let Some(next) = stand.gone_to(walkers, customer) {
            let behind = every_walk(walkers, next, steps - 1);
            let cost = plus(arc(walkers.instance, stand.at, customer), behind);
            least = lesser(least, cost);
        }
    }
    least
}

// A place's bit.
fn bit_of(place: u16) -> u32 {
    if place < 32 { 1 << place } else { 0 }
}

fn plus(weight: u64, behind: Option<u64>) -> Option<u64> {
    match behind {
        Some(cost) => Some(weight.saturating_add(cost)),
        None => None,
    }
}

fn lesser(one: Option<u64>, other: Option<u64>) -> Option<u64> {
    match (one, other) {
        (Some(cost), Some(less)) => Some(cost.min(less)),
        (Some(cost), None) => Some(cost),
        (None, _) => other,
    }
}
