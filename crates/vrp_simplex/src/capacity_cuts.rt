//! Capacity cuts: sets of customers that too few routes of the solution visit.
ghost use Rattle.std.specs.Prelude.{◌<◌, IfSome};

use crate::cut::{Cut, CutKind};
use crate::fixed_point::{ONE, at, put};
use crate::separation::{Broken, Used};
use crate::subset_rows::places_of;
use std::alloc::{AllocError, Global};
use vrp_model::{CustomerSet, FleetView, PLACES};

// A solution violates a cut if it visits the set at least this much too seldom.
const LESS: i64 = ONE / 20;

// A set that grows.
#[derive(Drop)]
struct Growing {
    set: CustomerSet,
    load: u64,
    visits: i64,
    // By place, the additional visits of the solution to the set with the customer there; too many at places that can't be added.
    more: Vec<i64>,
}

// A place that can't be added to the set. Some visits may be taken away.
const TAKEN: i64 = i64::MAX / 2;

/// Adds violated sets, grown from each customer by the customer that adds the fewest visits.
pub(crate) fn push_broken(
    alloc: Global,
    customers: CustomerSet,
    used: &[Used],
    fleet: &FleetView<'_>,
    broken: &mut Vec<Broken>,
) -> Result<(), AllocError> {
    let routes = routes_by_customer(alloc, customers, used)?;
    let visits = all_visits(alloc, customers, used)?;
    for start in customers.iter() {
        let mut growing = Growing {
            set: CustomerSet::empty(),
            load: 0,
            visits: 0,
            more: Vec::from_slice(alloc, visits.as_slice())?,
        };
        growing.take(start, routes.as_slice(), fleet);
        growing.visits = ONE;
        growing.grow(customers.len(), routes.as_slice(), fleet, broken)?;
    }
    Ok(())
}

// The routes that the solution uses, for each place those that serve the customer there.
fn routes_by_customer(
    alloc: Global,
    customers: CustomerSet,
    used: &[Used],
) -> Result<Vec<Vec<Used>>, AllocError> {
    let mut routes = Vec::new(alloc);
    for place in 0..places_of(customers) {
        let mut serving = Vec::new(alloc);
        for route in used {
            if place < PLACES && route.set.contains(place as u16) {
                serving.push(*route)?;
            }
        }
        routes.push(serving)?;
    }
    Ok(routes)
}

// The visits of the solution to each customer.
fn all_visits(
    alloc: Global,
    customers: CustomerSet,
    used: &[Used],
) -> Result<Vec<i64>, AllocError> {
    let mut visits = vec![in alloc; TAKEN; places_of(customers)]?;
    for customer in customers.iter() {
        put(visits.as_mut_slice(), usize::from(customer), 0);
    }
    for route in used {
        add_members(visits.as_mut_slice(), route.set, route.value);
    }
    Ok(visits)
}

impl Growing {
    // Adds one customer after another to the set, until it has this many, and each violated set to the list.
    fn grow(
        &mut self,
        count: u16,
        routes: &[Vec<Used>],
        fleet: &FleetView<'_>,
        broken: &mut Vec<Broken>,
    ) -> Result<(), AllocError> {
        for _ in 1..count {
            if let Some(next) = self.next(fleet) {
                self.take(next, routes, fleet);
                self.push_if_broken(fleet, broken)?;
            }
        }
        Ok(())
    }

    // Adds a customer to the set.
    fn take(&mut self, customer: u16, routes: &[Vec<Used>], fleet: &FleetView<'_>)
        requires { customer < PLACES }
    {
        let place = usize::from(customer);
        let more = at(self.more.as_slice(), place);
        self.visits = self.visits.wrapping_add(more);
        self.load = self.load.saturating_add(fleet.demand(place));
        if let Some(serving) = routes.get(place) {
            for route in serving {
                if route.set.is_disjoint(self.set) {
                    let less = route.value.wrapping_neg();
                    add_members(self.more.as_mut_slice(), route.set, less);
                }
            }
        }
        put(self.more.as_mut_slice(), place, TAKEN);
        self.set = self.set.with(customer);
    }

    // The customer that adds the fewest visits; among several the one with the most demand.
    fn next(&self, fleet: &FleetView<'_>) -> Option<u16>
        ensures { IfSome result (λ customer. customer < PLACES) }
    {
        let mut next = 0;
        let (mut least, mut most) = (i64::MAX, 0u64);
        for (place, &more) in self.more.iter().enumerate() {
            if more <= least {
                let demand = fleet.demand(place);
                if more < least || demand > most {
                    (next, least, most) = (place, more, demand);
                }
            }
        }
        if next < PLACES {
            Some(next as u16)
        } else {
            None
        }
    }

    // Adds the set to the list if it is violated.
    fn push_if_broken(
        &self,
        fleet: &FleetView<'_>,
        broken: &mut Vec<Broken>,
    ) -> Result<(), AllocError> {
        let trucks = self.load.div_ceil(u64::from(fleet.capacity).max(1));
        let count = u32::try_from(trucks).unwrap_or(0);
        let excess = i64::from(count).wrapping_mul(ONE).wrapping_sub(self.visits);
        if excess > LESS {
            let cut = Cut {
                set: self.set,
                kind: CutKind::Capacity(count),
            };
            broken.push(Broken { excess, cut })?;
        }
        Ok(())
    }
}

/// Adds a value to the customers of a set.
pub(crate) fn add_members(sums: &mut [i64], set: CustomerSet, value: i64) {
    for customer in set.iter() {
        if let Some(sum) = sums.get_mut(usize::from(customer)) {
            *sum = sum.wrapping_add(value);
        }
    }
}
