//! JoinedRoutes that grow by being joined end to end.
ghost use Rattle.std.specs.Prelude.{◌≡◌, ◌<◌, ◌≤◌, ◌+◌, IfOk, ℕ, length};
ghost use Rattle.std.specs.List.{All};
ghost use Rattle.vrp_model.specs.Problem.{place_count};
ghost use Rattle.vrp_heuristic.specs.Inner.Joints.{IsBetween};
ghost use Rattle.vrp_heuristic.specs.Inner.JoinedStops.{IsJoinedStop};

use crate::joint::Joint;
use std::alloc::Global;
use std::marker::Model;
use vrp_model::{Instance, MAX_CAPACITY, NoMemory};

/// A customer's neighbours on its route, 0 for the depot. In a symmetric instance a route has no direction, and the names of the
/// neighbours have no meaning.
#[derive(Clone, Copy, Debug)]
struct JoinedStop {
    before: u16,
    after: u16,
    // At the two ends of a route: the other end, and the load of the route.
    far: u16,
    load: u64,
}

/// JoinedRoutes that serve each customer once, by their stops. Public for tests alone.
#[derive(Debug, Drop)]
pub struct JoinedRoutes {
    // By place; the depot's has no meaning.
    stops: Vec<JoinedStop>,
    // The number of routes.
    count: u16,
}

impl Model for JoinedRoutes {
    ghost use Rattle.std.specs.Prelude.{ℕ, length};
    ghost use Rattle.std.specs.List.{All};
    ghost use Rattle.vrp_heuristic.specs.Inner.JoinedStops.{IsJoinedStop};

    // The number of places.
    ghost Value = { ℕ };

    ghost view = { λ a. length a.stops.items };

    ghost invariant = { λ a. All (IsJoinedStop (length a.stops.items)) a.stops.items };
}

impl JoinedRoutes {
    /// A route for each customer of an instance. No clause says which customers they serve. The error is lack of memory.
    pub fn one_each(alloc: Global, instance: &Instance) -> Result<JoinedRoutes, NoMemory>
        ensures { IfOk result (λ routes. routes ≡ place_count instance.now) }
    {
        let count = instance.customers();
        let mut stops = Vec::with_capacity(alloc, usize::from(count) + 1)?;
        for place in 0..count + 1 {
            stops.push(JoinedStop {
                before: 0,
                after: 0,
                far: place,
                load: instance.demand(place),
            })?;
        }
        Ok(JoinedRoutes { stops, count })
    }

    /// Joins the routes at the joints where that is possible, in their order.
    pub(crate) fn join_all(&mut self, instance: &Instance, joints: &[Joint])
        requires places { self.old ≡ place_count instance.now }
        requires between { All (IsBetween (place_count instance.now)) joints.now }
        ensures { self.new ≡ self.old }
    {
        for joint in joints {
            let Joint { from, to, .. } = *joint;
            if self.may_join(instance, from, to) {
                self.join(from, to);
            }
        }
    }

    // Whether two places are an end and a start of different routes that one truck can carry together, and joining them makes the plan
    // no costlier or saves a truck beyond the limit.
    fn may_join(&self, instance: &Instance, from: u16, to: u16) -> bool
        requires places { self.now ≡ place_count instance.now }
        requires from { from < self.now }
        requires to { to < self.now }
    {
        let end = self.stops[usize::from(from)];
        let start = self.stops[usize::from(to)];
        let turns = instance.symmetric();
        let is_end = end.after == 0 || (turns && end.before == 0);
        let is_start = start.before == 0 || (turns && start.after == 0);
        if !is_end || !is_start || end.far == to {
            return false;
        }
        let by_depot = instance.weight(from, 0) + instance.weight(0, to);
        let saves = instance.weight(from, to) <= by_depot;
        let has_trucks = instance.trucks().is_none_or(|trucks| self.count <= trucks);
        end.load + start.load <= instance.capacity() && (saves || !has_trucks)
    }

    // Joins two routes, one ending and one starting at these places, which one truck can carry.
    fn join(&mut self, from: u16, to: u16)
        requires from { from < self.old }
        requires to { to < self.old }
        ensures { self.new ≡ self.old }
    {
        let end = self.stops[usize::from(from)];
        let start = self.stops[usize::from(to)];
        let load = (end.load + start.load).min(MAX_CAPACITY);
        self.set(from, end.beside(to));
        self.set(to, start.beside_first(from));
        self.set_far(end.far, start.far, load);
        self.set_far(start.far, end.far, load);
        self.count = self.count.saturating_sub(1);
    }

    // Notes at an end of a route the other end and the load.
    fn set_far(&mut self, place: u16, far: u16, load: u64)
        requires place { place < self.old }
        requires far { far < self.old }
        requires load { load ≤ MAX_CAPACITY }
        ensures { self.new ≡ self.old }
    {
        let stop = self.stops[usize::from(place)];
        self.set(place, JoinedStop { far, load, ..stop });
    }

    fn set(&mut self, place: u16, stop: JoinedStop)
        requires place { place < self.old }
        requires stop { IsJoinedStop self.old stop }
        ensures { self.new ≡ self.old }
    {
        self.stops[usize::from(place)] = stop;
    }

    /// The routes as a word: by rising first customer, each followed by 0. In a symmetric instance each runs from the lower of its ends. The
    /// word has room for two symbols a customer, which is enough for any plan. The error is lack of memory. No clause pins the word or its
    /// room.
    pub fn word(&self, alloc: Global, instance: &Instance) -> Result<Vec<u16>, NoMemory>
        requires { self.now ≡ place_count instance.now }
    {
        let customers = instance.customers();
        let mut word = Vec::with_capacity(alloc, 2 * usize::from(customers))?;
        for first in 1..customers + 1 {
            let stop = self.stops[usize::from(first)];
            let is_start = if instance.symmetric() {
                (stop.before == 0 || stop.after == 0) && first <= stop.far
            } else {
                stop.before == 0
            };
            if is_start {
                self.push_route(first, customers, &mut word)?;
            }
        }
        Ok(word)
    }

    // Adds the route that starts at a customer, which has at most this many stops.
    fn push_route(&self, first: u16, most: u16, word: &mut Vec<u16>) -> Result<(), NoMemory>
        requires { first < self.now }
    {
        let mut last = 0;
        let mut at = first;
        for _ in 0..most {
            word.push(at)?;
            let next = self.next(last, at);
            if next == 0 {
                break;
            }
            last = at;
            at = next;
        }
        word.push(0)?;
        Ok(())
    }

    // The neighbour of a place, other than the last one.
    fn next(&self, last: u16, at: u16) -> u16
        requires { at < self.now }
        ensures { result < self.now }
    {
        let stop = self.stops[usize::from(at)];
        if stop.before == last {
            stop.after
        } else {
            stop.before
        }
    }
}

impl JoinedStop {
    // The stop with one more neighbour, after it if there is none.
    fn beside(self, place: u16) -> JoinedStop
        ensures { (places : ℕ) → IsJoinedStop places self → place < places → IsJoinedStop places result }
    {
        if self.after == 0 {
            return JoinedStop {
                after: place,
                ..self
            };
        }
        JoinedStop {
            before: place,
            ..self
        }
    }

    // The stop with one more neighbour, before it if there is none.
    fn beside_first(self, place: u16) -> JoinedStop
        ensures { (places : ℕ) → IsJoinedStop places self → place < places → IsJoinedStop places result }
    {
        if self.before == 0 {
            return JoinedStop {
                before: place,
                ..self
            };
        }
        JoinedStop {
            after: place,
            ..self
        }
    }
}
