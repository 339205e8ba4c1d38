//! Routes with their reduced costs.
ghost use Rattle.std.specs.Prelude.{◌≡◌, ◌≤◌, ◌<◌};
ghost use Rattle.std.specs.List.{All};

use std::alloc::Global;

/// Routes of negative reduced cost, the least first.
#[derive(Debug, Drop)]
pub struct PricedRoutes {
    /// The number of places of the instance, the depot among them.
    pub places: u16,
    /// The reduced cost of each route, in price units.
    pub costs: Vec<i64>,
    /// The stops of all routes, one route after another.
    pub stops: Vec<u16>,
    /// Where the stops of each route end.
    pub ends: Vec<usize>,
    /// The number of labels that were kept to find them.
    pub labels: usize,
    ghost customers: { All (λ stop. (1 ≤ stop) × (stop < places)) stops.items },
}

impl PricedRoutes {
    /// No routes.
    pub fn none(alloc: Global, places: u16) -> PricedRoutes
        ensures { result.places ≡ places }
    {
        PricedRoutes {
            places,
            costs: Vec::new(alloc),
            stops: Vec::new(alloc),
            ends: Vec::new(alloc),
            labels: 0,
        }
    }

    /// The number of routes.
    pub fn len(&self) -> usize {
        self.ends.len()
    }

    /// Whether there is no route.
    pub fn is_empty(&self) -> bool {
        self.ends.is_empty()
    }

    /// The least reduced cost, in price units. `None` if there is no route.
    pub fn least(&self) -> Option<i64> {
        self.costs.first().copied()
    }

    /// The stops of a route; none if there is no such route.
    pub fn stops(&self, at: usize) -> &[u16]
        ensures { All (λ stop. (1 ≤ stop) × (stop < self.now.places)) result.now }
    {
        let to = self.ends.get(at).copied().unwrap_or(0);
        let from = match at.checked_sub(1) {
            Some(before) => self.ends.get(before).copied().unwrap_or(0),
            None => 0,
        };
        if from <= to && to <= self.stops.len() {
            &self.stops[from..to]
        } else {
            &self.stops[..0]
        }
    }
}
