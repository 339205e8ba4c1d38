//! Routes as linked stops: customers are removed and put back.
ghost use Rattle.std.specs.Prelude.{◌≡◌, ◌<◌, IfOk, length};
ghost use Rattle.std.specs.List.{All};
ghost use Rattle.vrp_heuristic.specs.Inner.Stops.{IsGap, IsRoute, IsStop};
ghost use Rattle.vrp_heuristic.specs.Inner.Tables.{IsPlace};
ghost use Rattle.vrp_model.specs.Problem.{place_count};
ghost use Rattle.vrp_model.specs.declared.limits.TheConstants.{MAX_NODES};

mod word;

use crate::changes::Changes;
use crate::surroundings::Surroundings;
use std::alloc::Global;
use std::marker::Model;
use vrp_model::{Instance, NO_COST, NoMemory};

/// A customer's neighbours on its route, 0 for the depot.
#[derive(Clone, Copy, Debug)]
pub(crate) struct Stop {
    pub before: u16,
    pub after: u16,
    /// Its route, 0 if it is on none.
    pub route: u16,
    /// The weights of the arcs from the stop before and to the stop after.
    pub arc_in: u32,
    pub arc_out: u32,
}

impl Stop {
    /// The stop of a customer that is on no route.
    const NONE: Stop = Stop {
        before: 0,
        after: 0,
        route: 0,
        arc_in: 0,
        arc_out: 0,
    };
}

/// The data of a route.
#[derive(Clone, Copy, Debug)]
pub(crate) struct RouteState {
    /// The first stop, 0 if there is none.
    pub first: u16,
    pub stops: u16,
    /// The move in which it was last ruined.
    pub ruined: u32,
    /// The free capacity of the truck.
    pub room: u64,
}

/// A gap for a customer: its route, and the stop before it.
#[derive(Clone, Copy)]
pub(crate) struct Gap {
    pub route: u16,
    pub before: u16,
}

/// Routes that serve some of the customers. Public for tests alone.
#[derive(Debug, Drop)]
pub struct Routes {
    // By place; the depot's has no meaning.
    stops: Vec<Stop>,
    // By number, from 1 on.
    routes: Vec<RouteState>,
    // No route with a stop has a higher number.
    highest: u16,
    // The number of routes with a stop.
    count: u16,
    unserved: u16,
    // The weight of the arcs of all routes.
    weight: u64,
    // Since they were last copied.
    changed_stops: Changes,
    changed_routes: Changes,
}

impl Model for Routes {
    ghost use Rattle.std.specs.Prelude.{◌≡◌, ℕ, length};
    ghost use Rattle.vrp_heuristic.specs.Inner.Stops.{AreRoutes};

    // The number of places.
    ghost Value = { ℕ };

    ghost view = { λ a. length a.stops.items };

    ghost invariant = { λ a.
        AreRoutes (length a.stops.items) a.stops.items a.routes.items a.highest
        × (a.changed_stops ≡ length a.stops.items)
        × (a.changed_routes ≡ length a.stops.items) };
}

impl Routes {
    /// No routes.
    pub(crate) fn new(alloc: Global, instance: &Instance) -> Result<Routes, NoMemory>
        ensures { IfOk result (λ routes. routes ≡ place_count instance.now) }
    {
        let customers = instance.customers();
        let places = usize::from(customers) + 1;
        let route = RouteState {
            first: 0,
            stops: 0,
            ruined: 0,
            room: instance.capacity(),
        };
        Ok(Routes {
            stops: Vec::from_elem(alloc, Stop::NONE, places)?,
            routes: Vec::from_elem(alloc, route, places)?,
            highest: 0,
            count: 0,
            unserved: customers,
            weight: 0,
            changed_stops: Changes::new(alloc, customers + 1)?,
            changed_routes: Changes::new(alloc, customers + 1)?,
        })
    }

    /// Copies other routes onto these.
    pub(crate) fn copy_from(&mut self, other: &Routes)
        requires { self.old ≡ other.now }
        ensures { self.new ≡ self.old }
    {
        self.stops
            .as_mut_slice()
            .copy_from_slice(other.stops.as_slice());
        self.routes
            .as_mut_slice()
            .copy_from_slice(other.routes.as_slice());
        self.copy_counts(other);
    }

    /// Copies what has changed in other routes onto these, which are what those were before the changes.
    pub(crate) fn follow(&mut self, other: &Routes)
        requires { self.old ≡ other.now }
        ensures { self.new ≡ self.old }
    {
        if other.changed_stops.is_full() || other.changed_routes.is_full() {
            self.copy_from(other);
            return;
        }
        copy_stops(
            self.stops.as_mut_slice(),
            &other.stops,
            other.changed_stops.list(),
        );
        copy_routes(
            self.routes.as_mut_slice(),
            &other.routes,
            other.changed_routes.list(),
        );
        self.copy_counts(other);
    }

    /// Undoes what has changed: these become other routes again, which are what these were before.
    pub(crate) fn undo(&mut self, other: &Routes)
        requires { self.old ≡ other.now }
        ensures { self.new ≡ self.old }
    {
        if self.changed_stops.is_full() || self.changed_routes.is_full() {
            self.copy_from(other);
            return;
        }
        copy_stops(
            self.stops.as_mut_slice(),
            &other.stops,
            self.changed_stops.list(),
        );
        copy_routes(
            self.routes.as_mut_slice(),
            &other.routes,
            self.changed_routes.list(),
        );
        self.copy_counts(other);
    }

    /// Forgets what has changed: other routes are the same.
    pub(crate) fn clear_changes(&mut self)
        ensures { self.new ≡ self.old }
    {
        self.changed_stops.clear();
        self.changed_routes.clear();
    }

    // Copies the counts of other routes.
    fn copy_counts(&mut self, other: &Routes)
        requires { self.old ≡ other.now }
        ensures { self.new ≡ self.old }
    {
        self.highest = other.highest;
        self.count = other.count;
        self.unserved = other.unserved;
        self.weight = other.weight;
    }

    /// A number such that no route with a stop has a higher one.
    #[inline(always)]
    pub(crate) fn highest(&self) -> u16
        ensures within { result < self.now }
        ensures few { result < MAX_NODES }
    {
        self.highest
    }

    /// The number of routes with a stop.
    pub(crate) fn count(&self) -> u16 {
        self.count
    }

    /// The number of customers on no route, at most 1,199; no clause pins it.
    pub fn unserved(&self) -> u16 {
        self.unserved
    }

    /// The cost of the routes, plus more than any plan costs for each unserved customer; no clause pins it.
    pub fn cost(&self) -> u64 {
        self.weight
            .saturating_add(u64::from(self.unserved) * NO_COST)
    }

    /// The weight of the arcs of all routes; no clause pins it.
    pub(crate) fn weight(&self) -> u64 {
        self.weight
    }

    /// A place's stop.
    #[inline(always)]
    pub(crate) fn stop(&self, place: u16) -> Stop
        requires { place < self.now }
        ensures { IsStop self.now result }
    {
        self.stops[usize::from(place)]
    }

    /// The route of a number.
    #[inline(always)]
    pub(crate) fn route(&self, number: u16) -> RouteState
        requires { number < self.now }
        ensures { IsRoute self.now result }
    {
        self.routes[usize::from(number)]
    }

    /// Notes the move in which a route is ruined.
    pub(crate) fn note_ruined(&mut self, number: u16, ruined: u32)
        requires { number < self.old }
        ensures { self.new ≡ self.old }
    {
        let RouteState {
            first,
            stops,
            room,
            ..
        } = self.route(number);
        let route = RouteState {
            first,
            stops,
            ruined,
            room,
        };
        self.set_route(number, route);
    }

    /// Puts a customer that is on no route into a gap.
    pub(crate) fn put(&mut self, setting: &Surroundings<'_>, customer: u16, gap: Gap)
        requires places { self.old ≡ place_count setting.now }
        requires customer { customer < self.old }
        requires gap { IsGap self.old gap }
        ensures { self.new ≡ self.old }
    {
        let Gap { route, before } = gap;
        let after = self.behind(gap);
        let arcs = setting.arcs();
        let (arc_in, arc_out) = (arcs.weight(before, customer), arcs.weight(customer, after));
        let spared = arcs.weight(before, after);
        self.link_out(before, customer, arc_in);
        self.link_in(customer, after, arc_out);
        self.set_stop(
            customer,
            Stop {
                before,
                after,
                route,
                arc_in,
                arc_out,
            },
        );
        self.weigh(u64::from(arc_in) + u64::from(arc_out), u64::from(spared));
        self.count_in(route, before, customer, setting.instance().demand(customer));
    }

    /// Removes a customer from its route.
    pub(crate) fn take(&mut self, setting: &Surroundings<'_>, customer: u16)
        requires places { self.old ≡ place_count setting.now }
        requires customer { customer < self.old }
        ensures { self.new ≡ self.old }
    {
        let Stop {
            before,
            after,
            route,
            arc_in,
            arc_out,
        } = self.stop(customer);
        let direct = setting.arcs().weight(before, after);
        self.link_out(before, after, direct);
        self.link_in(before, after, direct);
        self.set_stop(customer, Stop::NONE);
        self.weigh(u64::from(direct), u64::from(arc_in) + u64::from(arc_out));
        self.count_out(route, before, after, setting.instance().demand(customer));
    }

    /// The stop after a gap, 0 for the depot.
    #[inline(always)]
    pub(crate) fn behind(&self, gap: Gap) -> u16
        requires { IsGap self.now gap }
        ensures { result < self.now }
    {
        if gap.before == 0 {
            self.route(gap.route).first
        } else {
            self.stop(gap.before).after
        }
    }

    // Links a place to the one behind it, by an arc of this weight. The depot has no links.
    #[inline(always)]
    fn link_out(&mut self, from: u16, to: u16, arc: u32)
        requires from { from < self.old }
        requires to { to < self.old }
        ensures { self.new ≡ self.old }
    {
        if from != 0 {
            let Stop {
                before,
                route,
                arc_in,
                ..
            } = self.stop(from);
            self.set_stop(
                from,
                Stop {
                    before,
                    after: to,
                    route,
                    arc_in,
                    arc_out: arc,
                },
            );
        }
    }

    // Links a place to the one before it, by an arc of this weight. The depot has no links.
    #[inline(always)]
    fn link_in(&mut self, from: u16, to: u16, arc: u32)
        requires from { from < self.old }
        requires to { to < self.old }
        ensures { self.new ≡ self.old }
    {
        if to != 0 {
            let Stop {
                after,
                route,
                arc_out,
                ..
            } = self.stop(to);
            self.set_stop(
                to,
                Stop {
                    before: from,
                    after,
                    route,
                    arc_in: arc,
                    arc_out,
                },
            );
        }
    }

    // Counts added and saved arcs.
    fn weigh(&mut self, added: u64, spared: u64)
        ensures { self.new ≡ self.old }
    {
        self.weight = self.weight.saturating_add(added).saturating_sub(spared);
    }

    // Counts a customer on a route, after one of its stops.
    fn count_in(&mut self, number: u16, before: u16, customer: u16, demand: u64)
        requires number { number < self.old }
        requires customer { customer < self.old }
        ensures { self.new ≡ self.old }
    {
        let found = self.route(number);
        if found.stops == 0 {
            self.count = self.count.saturating_add(1);
            self.highest = self.highest.max(number);
        }
        let route = RouteState {
            first: if before == 0 { customer } else { found.first },
            stops: found.stops.saturating_add(1),
            ruined: found.ruined,
            room: found.room.saturating_sub(demand),
        };
        self.set_route(number, route);
        self.unserved = self.unserved.saturating_sub(1);
    }

    // Counts a customer off a route, which was between two of its stops.
    fn count_out(&mut self, number: u16, before: u16, after: u16, demand: u64)
        requires number { number < self.old }
        requires after { after < self.old }
        ensures { self.new ≡ self.old }
    {
        let found = self.route(number);
        if found.stops == 1 {
            self.count = self.count.saturating_sub(1);
        }
        let route = RouteState {
            first: if before == 0 { after } else { found.first },
            stops: found.stops.saturating_sub(1),
            ruined: found.ruined,
            room: found.room.saturating_add(demand),
        };
        self.set_route(number, route);
        self.unserved = self.unserved.saturating_add(1);
    }

    fn set_stop(&mut self, place: u16, stop: Stop)
        requires place { place < self.old }
        requires stop { IsStop self.old stop }
        ensures { self.new ≡ self.old }
    {
        self.stops[usize::from(place)] = stop;
        self.changed_stops.note(place);
    }

    fn set_route(&mut self, number: u16, route: RouteState)
        requires number { number < self.old }
        requires route { IsRoute self.old route }
        ensures { self.new ≡ self.old }
    {
        self.routes[usize::from(number)] = route;
        self.changed_routes.note(number);
    }
}

// Copies the stops of these places.
fn copy_stops(to: &mut [Stop], from: &[Stop], places: &[u16])
    requires len { length to.old ≡ length from.now }
    requires to { All (IsStop (length from.now)) to.old }
    requires from { All (IsStop (length from.now)) from.now }
    requires places { All (IsPlace (length from.now)) places.now }
    ensures { All (IsStop (length from.now)) to.new }
{
    for place in places {
        let place = usize::from(*place);
        to[place] = from[place];
    }
}

// Copies the routes of these numbers.
fn copy_routes(to: &mut [RouteState], from: &[RouteState], numbers: &[u16])
    requires len { length to.old ≡ length from.now }
    requires to { All (IsRoute (length from.now)) to.old }
    requires from { All (IsRoute (length from.now)) from.now }
    requires numbers { All (IsPlace (length from.now)) numbers.now }
    ensures { All (IsRoute (length from.now)) to.new }
{
    for number in numbers {
        let number = usize::from(*number);
        to[number] = from[number];
    }
}
