//! How often each route of a solution visits each customer, and how much of the solution has two customers together.
ghost use Rattle.std.specs.Prelude.{◌<◌};
ghost use Rattle.vrp_model.specs.declared.customers.customer_set.TheConstants.{PLACES};

use crate::separation::picking::{LEAST_EXCESS, Violated};
use crate::separation::solution::{ONE, UsedRoute};
use crate::separation::support::{at, places_of};
use std::alloc::{AllocError, Global};
use vrp_model::{CustomerSet, PLACES};

// A triple is looked at where its pairs come to more than this.
const ENOUGH_PAIRS: i64 = ONE + ONE / 20;

/// The visits of a solution.
#[derive(Debug, Drop)]
pub(crate) struct Visits {
    places: usize,
    values: Vec<i64>,
    // By place, and then by route.
    counts: Vec<u8>,
    // By place, and then by place: how much of the solution has both. A route that visits a customer twice counts with all others.
    pairs: Vec<i64>,
}

impl Visits {
    /// The visits of these routes.
    pub(crate) fn new(
        alloc: Global,
        customers: CustomerSet,
        routes: &[UsedRoute],
    ) -> Result<Visits, AllocError> {
        let places = places_of(customers);
        let mut values = Vec::with_capacity(alloc, routes.len())?;
        for route in routes {
            values.push(route.value)?;
        }
        let mut visits = Visits {
            places,
            values,
            counts: vec![in alloc; 0u8; places.saturating_mul(routes.len())]?,
            pairs: vec![in alloc; 0i64; places.saturating_mul(places)]?,
        };
        for (number, route) in routes.iter().enumerate() {
            let twice = visits.count_route(number, &route.stops);
            visits.add_pairs(customers, &route.stops, twice, route.value);
        }
        Ok(visits)
    }

    // Counts the stops of a route. The customers whom it visits more than once.
    fn count_route(&mut self, number: usize, stops: &[u16]) -> CustomerSet {
        let routes = self.values.len();
        let mut twice = CustomerSet::empty();
        for &stop in stops {
            let index = usize::from(stop)
                .saturating_mul(routes)
                .saturating_add(number);
            if let Some(count) = self.counts.get_mut(index) {
                *count = count.saturating_add(1);
                if *count > 1 && usize::from(stop) < PLACES {
                    twice = twice.with(stop);
                }
            }
        }
        twice
    }

    // Adds what a route has together.
    fn add_pairs(&mut self, customers: CustomerSet, stops: &[u16], twice: CustomerSet, value: i64) {
        let mut all = CustomerSet::empty();
        for &stop in stops {
            if usize::from(stop) < PLACES {
                all = all.with(stop);
            }
        }
        for first in all.iter() {
            let others = if twice.contains(first) {
                customers
            } else {
                all
            };
            let row = usize::from(first).saturating_mul(self.places);
            for second in others.iter() {
                let index = row.saturating_add(usize::from(second));
                if let Some(sum) = self.pairs.get_mut(index) {
                    *sum = sum.wrapping_add(value);
                }
            }
        }
    }

    /// How much of the solution has a customer together with each other, by place.
    #[inline(always)]
    pub(crate) fn pairs_of(&self, customer: u16) -> &[i64] {
        let start = usize::from(customer).saturating_mul(self.places);
        let end = start.saturating_add(self.places);
        self.pairs.get(start..end).unwrap_or(&[])
    }

    // How often each route visits a customer.
    fn counts_of(&self, customer: u16) -> &[u8] {
        let start = usize::from(customer).saturating_mul(self.values.len());
        let end = start.saturating_add(self.values.len());
        self.counts.get(start..end).unwrap_or(&[])
    }

    /// By how much the pairs of visits to these customers exceed what a plan has: one for three of them, two for five.
    pub(crate) fn excess(&self, customers: CustomerSet) -> i64 {
        let mut sum = 0i64;
        for (number, &value) in self.values.iter().enumerate() {
            let mut count = 0u8;
            for customer in customers.iter() {
                let visits = self.counts_of(customer).get(number).copied().unwrap_or(0);
                count = count.saturating_add(visits);
            }
            sum = sum.wrapping_add(i64::from(count / 2).wrapping_mul(value));
        }
        sum.wrapping_sub(i64::from(customers.len() / 2).wrapping_mul(ONE))
    }

    /// Adds the row of these customers if it is violated.
    pub(crate) fn offer(
        &self,
        customers: CustomerSet,
        found: &mut Vec<Violated>,
    ) -> Result<(), AllocError> {
        let excess = self.excess(customers);
        if excess > LEAST_EXCESS {
            found.push(Violated {
                customers,
                excess,
                count: customers.len() / 2,
            })?;
        }
        Ok(())
    }

    /// Adds the violated rows of three customers.
    pub(crate) fn push_triples(
        &self,
        customers: CustomerSet,
        found: &mut Vec<Violated>,
    ) -> Result<(), AllocError> {
        for first in customers.iter() {
            for second in customers.iter() {
                if first < second {
                    self.push_thirds(customers, first, second, found)?;
                }
            }
        }
        Ok(())
    }

    // Adds the violated rows of two customers and a later one.
    fn push_thirds(
        &self,
        customers: CustomerSet,
        first: u16,
        second: u16,
        found: &mut Vec<Violated>,
    ) -> Result<(), AllocError>
        requires first { first < PLACES }
        requires second { second < PLACES }
    {
        let of_first = self.pairs_of(first);
        let of_second = self.pairs_of(second);
        let both = at(of_first, second);
        for third in customers.iter() {
            let sum = both
                .wrapping_add(at(of_first, third))
                .wrapping_add(at(of_second, third));
            if third > second && sum > ENOUGH_PAIRS {
                let triple = CustomerSet::only(first).with(second).with(third);
                self.offer(triple, found)?;
            }
        }
        Ok(())
    }
}
