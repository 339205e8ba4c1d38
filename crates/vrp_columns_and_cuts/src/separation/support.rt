//! The support graph of a solution: how much of it goes between each two places.
use crate::separation::solution::UsedRoute;
use std::alloc::{AllocError, Global};
use vrp_model::CustomerSet;

/// How much of a solution goes between each two places, in either direction, and how much of it goes in and out of each place.
#[derive(Debug, Drop)]
pub(crate) struct Support {
    places: usize,
    // Row by row.
    flow: Vec<i64>,
    // By place.
    degree: Vec<i64>,
}

/// The number of places up to a set's highest customer.
pub(crate) fn places_of(customers: CustomerSet) -> usize {
    let mut most = 0;
    for customer in customers.iter() {
        most = usize::from(customer);
    }
    most.saturating_add(1)
}

/// A number of a list, 0 beyond its end.
#[inline(always)]
pub(crate) fn at(list: &[i64], index: u16) -> i64 {
    list.get(usize::from(index)).copied().unwrap_or(0)
}

impl Support {
    /// The support graph of these routes.
    pub(crate) fn new(
        alloc: Global,
        customers: CustomerSet,
        routes: &[UsedRoute],
    ) -> Result<Support, AllocError> {
        let places = places_of(customers);
        let mut support = Support {
            places,
            flow: vec![in alloc; 0i64; places.saturating_mul(places)]?,
            degree: vec![in alloc; 0i64; places]?,
        };
        for route in routes {
            support.add_route(&route.stops, route.value);
        }
        Ok(support)
    }

    // Adds the arcs of a route.
    fn add_route(&mut self, stops: &[u16], value: i64) {
        let mut last = 0;
        for &stop in stops {
            self.add_arc(last, stop, value);
            last = stop;
        }
        self.add_arc(last, 0, value);
    }

    // Adds an arc, from both ends.
    fn add_arc(&mut self, from: u16, to: u16, value: i64) {
        for (here, there) in [(from, to), (to, from)] {
            let row = usize::from(here).saturating_mul(self.places);
            if let Some(flow) = self.flow.get_mut(row.saturating_add(usize::from(there))) {
                *flow = flow.wrapping_add(value);
            }
            if let Some(degree) = self.degree.get_mut(usize::from(here)) {
                *degree = degree.wrapping_add(value);
            }
        }
    }

    /// How much goes between a place and each other; nothing for an unknown place.
    #[inline(always)]
    pub(crate) fn row(&self, place: u16) -> &[i64] {
        let start = usize::from(place).saturating_mul(self.places);
        let end = start.saturating_add(self.places);
        self.flow.get(start..end).unwrap_or(&[])
    }

    /// How much goes in and out of a place.
    #[inline(always)]
    pub(crate) fn degree(&self, place: u16) -> i64 {
        at(&self.degree, place)
    }
}
