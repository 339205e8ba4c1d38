//! Routes, with what a choice among them needs.
ghost use Rattle.std.specs.Prelude.{◌≡◌, ◌<◌, ◌==◌, ◌++◌, ◌∷◌, ℕ, List, [], OnOk, IfOk, IsTrue, false, length, map, slice_index_or};
ghost use Rattle.std.specs.List.{All, Contains};
ghost use Rattle.vrp_routes.specs.ClosedLevel.{route_by, route_with};
ghost use Rattle.vrp_routes.specs.Pool.{no_route};

use crate::closed::ClosedRoute;
use crate::sequences::Sequences;
use std::alloc::Global;
use std::collections::HashMap;
use std::marker::Model;
use vrp_model::{CustomerSet, NoMemory};

/// Routes, numbered from 0. Each has its set of customers, its load, its cost and its customers in order.
#[derive(Drop)]
pub struct RoutePool {
    sequences: Sequences,
    routes: Vec<ClosedRoute>,
}

impl Model for RoutePool {
    ghost use Rattle.std.specs.Prelude.{◌<◌, List, length, map};
    ghost use Rattle.std.specs.List.{All};
    ghost use Rattle.vrp_routes.specs.ClosedLevel.{route_by};
    ghost use Rattle.vrp_routes.specs.Pool.{RouteOf};

    ghost Value = { List RouteOf };

    ghost view = { λ a. map (route_by a.sequences) a.routes.items };

    ghost invariant = { λ a. All (λ route. route.label < length a.sequences) a.routes.items };
}

impl RoutePool {
    // A pool of these routes, whose customers are sequences.
    pub fn new(sequences: Sequences, routes: Vec<ClosedRoute>) -> RoutePool
        requires { All (λ route. route.label < length sequences) routes.items }
        ensures { result ≡ map (route_by sequences) routes.items }
    {
        RoutePool { sequences, routes }
    }

    // An empty pool.
    pub fn empty(alloc: Global) -> RoutePool
        ensures { result ≡ [] }
    {
        RoutePool {
            sequences: Sequences::new(alloc),
            routes: Vec::new(alloc),
        }
    }

    /// Adds the routes of another pool, but those that are here already, as far as a look at the routes of the same customers tells. Whether
    /// there was room for all: sequences of stops are numbered by 32 bits. The only error is lack of memory.
    pub fn add(&mut self, alloc: Global, other: &RoutePool) -> Result<bool, NoMemory>
        ensures among { OnOk result (All (Contains (self.old ++ other.now)) self.new) }
        ensures all { IfOk result (λ all. IsTrue all → All (Contains self.new) (self.old ++ other.now)) }
    {
        let known = self.places_by_set(alloc)?;
        for at in 0..other.len() {
            let stops = other.stops(alloc, at)?;
            let route = other.closed(at);
            if self.has(alloc, &known, &route, &stops)? {
                continue;
            }
            if !self.push(route, &stops)? {
                return Ok(false);
            }
        }
        Ok(true)
    }

    // A route, without its stops.
    fn closed(&self, at: usize) -> ClosedRoute
        requires { at < length self.now }
        ensures set { result.set ≡ (slice_index_or self.now at no_route).set }
        ensures load { result.load ≡ (slice_index_or self.now at no_route).load }
        ensures cost { result.cost ≡ (slice_index_or self.now at no_route).cost }
    {
        self.routes[at]
    }

    // For each set of customers the place of a route that serves it. No clause pins it: who looks up a route compares it.
    fn places_by_set(&self, alloc: Global) -> Result<HashMap<CustomerSet, usize>, NoMemory> {
        let mut places = HashMap::new(alloc);
        for at in 0..self.routes.len() {
            places.insert(self.routes[at].set, at)?;
        }
        Ok(places)
    }

    // Whether the route is here with these stops, at the place of its customers.
    fn has(
        &self,
        alloc: Global,
        places: &HashMap<CustomerSet, usize>,
        route: &ClosedRoute,
        stops: &[u16],
    ) -> Result<bool, NoMemory>
        ensures { IfOk result (λ is_here. IsTrue is_here → Contains self.now (route_with stops.now route.now)) }
    {
        let Some(&at) = places.get(&route.set) else {
            return Ok(false);
        };
        if self.len() <= at || self.set(at) != route.set {
            return Ok(false);
        }
        if self.load(at) != u64::from(route.load) || self.cost(at) != route.cost {
            return Ok(false);
        }
        let own = self.stops(alloc, at)?;
        Ok(own.as_slice() == stops)
    }

    // Adds a route with these stops. `false` if there is no room for them.
    fn push(&mut self, route: ClosedRoute, stops: &[u16]) -> Result<bool, NoMemory>
        ensures added { IfOk result (λ is_added. IsTrue is_added → self.new ≡ self.old ++ route_with stops.now route ∷ []) }
        ensures same { IfOk result (λ is_added. is_added ≡ false → self.new ≡ self.old) }
    {
        let Some(label) = self.sequences.push_stops(stops)? else {
            return Ok(false);
        };
        self.routes.push(ClosedRoute { label, ..route })?;
        Ok(true)
    }

    /// The number of routes.
    pub fn len(&self) -> usize
        ensures { result ≡ length self.now }
    {
        self.routes.len()
    }

    /// Whether there are no routes.
    pub fn is_empty(&self) -> bool
        ensures { result ≡ (length self.now == 0) }
    {
        self.routes.is_empty()
    }

    /// The customers of a route.
    pub fn set(&self, at: usize) -> CustomerSet
        requires { at < length self.now }
        ensures { result ≡ (slice_index_or self.now at no_route).set }
    {
        self.routes[at].set
    }

    /// The load of a route.
    pub fn load(&self, at: usize) -> u64
        requires { at < length self.now }
        ensures { result ≡ (slice_index_or self.now at no_route).load }
    {
        u64::from(self.routes[at].load)
    }

    /// The cost of a route.
    pub fn cost(&self, at: usize) -> u64
        requires { at < length self.now }
        ensures { result ≡ (slice_index_or self.now at no_route).cost }
    {
        self.routes[at].cost
    }

    /// The customers of a route, in order.
    pub fn stops(&self, alloc: Global, at: usize) -> Result<Vec<u16>, NoMemory>
        requires { at < length self.now }
        ensures { IfOk result (λ stops. stops.items ≡ (slice_index_or self.now at no_route).stops) }
    {
        self.sequences.stops(alloc, self.routes[at].label)
    }

    /// The number of labels kept to list the routes; no clause pins it.
    pub fn labels(&self) -> usize {
        self.sequences.len().saturating_sub(1)
    }
}
