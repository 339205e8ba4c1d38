//! The choice of routes that differ.
ghost use Rattle.std.specs.Prelude.{◌≡◌, IfOk};

use crate::pricing::closed_labels::ClosedLabels;
use crate::pricing::joins::Join;
use crate::pricing::label::NO_LABEL;
use crate::pricing::priced_routes::PricedRoutes;
use std::alloc::Global;
use std::collections::HashMap;
use vrp_model::{CustomerSet, NoMemory};

// A walk has at most this many stops: each demands at least one unit of the capacity.
const MOST_STOPS: usize = 4_096;

// A customer is in this many routes at least before others are left out for it.
const LEAST_ROUTES_EACH: usize = 3;

/// The routes that are chosen so far.
#[derive(Drop)]
pub struct RouteChoice<'a> {
    closed: &'a ClosedLabels,
    most_routes: usize,
    costs: Vec<i64>,
    stops: Vec<u16>,
    ends: Vec<usize>,
    // The sets of customers that were looked at.
    seen: HashMap<CustomerSet, usize>,
    // How many chosen routes each customer is in.
    counts: Vec<usize>,
    // The stops of the route that is looked at.
    route: Vec<u16>,
}

impl<'a> RouteChoice<'a> {
    /// No route yet.
    pub fn new(
        alloc: Global,
        closed: &'a ClosedLabels,
        places: u16,
        most_routes: usize,
    ) -> Result<RouteChoice<'a>, NoMemory> {
        Ok(RouteChoice {
            closed,
            most_routes,
            costs: Vec::new(alloc),
            stops: Vec::new(alloc),
            ends: Vec::new(alloc),
            seen: HashMap::new(alloc),
            counts: vec![in alloc; 0; usize::from(places)]?,
            route: Vec::new(alloc),
        })
    }

    /// Chooses the cheapest of these routes, which come by rising cost: one for each set of customers, and none whose customers are all in
    /// enough chosen routes.
    pub fn choose(mut self, joins: &[Join], places: u16) -> Result<PricedRoutes, NoMemory>
        ensures { IfOk result (λ routes. routes.places ≡ places) }
    {
        for join in joins {
            if self.ends.len() >= self.most_routes {
                break;
            }
            self.offer(join)?;
        }
        let RouteChoice {
            closed: _closed,
            most_routes: _most_routes,
            costs,
            stops,
            ends,
            seen: _seen,
            counts: _counts,
            route: _route,
        } = self;
        Ok(checked(places, costs, stops, ends))
    }

    // Takes a route unless there is one like it.
    fn offer(&mut self, join: &Join) -> Result<(), NoMemory> {
        self.read_route(join)?;
        let set = set_of(&self.route);
        if self.seen.insert(set, self.ends.len())?.is_some() {
            return Ok(());
        }
        let enough = LEAST_ROUTES_EACH.max(self.most_routes / 8);
        if !self.has_rare_stop(enough) {
            return Ok(());
        }
        self.take(join.cost / 2)
    }

    // The stops of a route: those of its first label, and those of the other one backward.
    fn read_route(&mut self, join: &Join) -> Result<(), NoMemory> {
        self.route.clear();
        self.read_stops(join.head)?;
        self.route.reverse();
        self.read_stops(join.tail)
    }

    // Adds the stops of a label from the last one back.
    fn read_stops(&mut self, number: u32) -> Result<(), NoMemory> {
        let mut number = number;
        for _stop in 0..MOST_STOPS {
            let Some(label) = self.closed.get(number) else {
                break;
            };
            self.route.push(label.at)?;
            number = label.previous;
        }
        Ok(())
    }

    // Whether a stop is in fewer chosen routes than this.
    fn has_rare_stop(&self, enough: usize) -> bool {
        for stop in &self.route {
            if self.counts.get(usize::from(*stop)).copied().unwrap_or(0) < enough {
                return true;
            }
        }
        false
    }

    // Takes the route that is looked at.
    fn take(&mut self, cost: i64) -> Result<(), NoMemory> {
        self.costs.push(cost)?;
        self.stops.extend_from_slice(&self.route)?;
        self.ends.push(self.stops.len())?;
        for stop in &self.route {
            if let Some(count) = self.counts.get_mut(usize::from(*stop)) {
                *count = count.saturating_add(1);
            }
        }
        Ok(())
    }
}

// The customers of a route.
fn set_of(route: &[u16]) -> CustomerSet {
    let mut set = CustomerSet::empty();
    for stop in route {
        if *stop < 256 {
            set = set.with(*stop);
        }
    }
    set
}

// The routes, if each stop is a customer, as it always is; otherwise none.
fn checked(
    places: u16,
    mut costs: Vec<i64>,
    mut stops: Vec<u16>,
    mut ends: Vec<usize>,
) -> PricedRoutes
    ensures { result.places ≡ places }
{
    if !stops.iter().all(|stop| 1 <= *stop && *stop < places) {
        costs.clear();
        stops.clear();
        ends.clear();
    }
    PricedRoutes {
        places,
        costs,
        stops,
        ends,
        labels: 0,
    }
}
