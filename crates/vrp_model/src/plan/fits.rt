//! Whether a plan is feasible for an instance, with its true cost.
ghost use Rattle.std.specs.Prelude.{◌≡◌, ◌≢◌, ◌≤◌, ◌<◌, IsTrue, ◌↔◌, [], length};
ghost use Rattle.std.specs.List.{All};
ghost use Rattle.vrp_model.specs.Problem.{HasTrucks, IsProblem, place_count};
ghost use Rattle.vrp_model.specs.Route.{IsPlanOf, OverloadsNoTruck, ServesEachOnce, load_of, plan_cost};

use super::{Plan, route_cost};
use crate::instance::Instance;

impl Plan {
    /// Whether this is a feasible plan of the instance with its true cost. A plan is made for one instance, but does not name
    /// it: for another one it may leave out customers, overload a truck or have a different cost.
    pub fn fits(&self, instance: &Instance) -> bool
        ensures { IsTrue result ↔ IsPlanOf instance.now self.now }
    {
        self.serves_each_once(instance)
            && self.stops_in_each_route()
            && self.overloads_no_truck(instance)
            && self.has_trucks(instance)
            && self.has_its_cost(instance)
    }

    // Whether each customer is in exactly one route, once, and nothing else is in any: there are as many stops as customers,
    // and each customer is one of them.
    fn serves_each_once(&self, instance: &Instance) -> bool
        ensures served { IsTrue result ↔ ServesEachOnce instance.now self.now.routes }
        // An invariant of every instance.
        ensures problem { IsProblem instance.now }
    {
        let customers = instance.customers();
        let word = self.word();
        if word.len() - self.routes() != usize::from(customers) {
            return false;
        }
        for index in 0..customers {
            if !word.contains(&(index + 1)) {
                return false;
            }
        }
        true
    }

    // Whether no route is empty.
    fn stops_in_each_route(&self) -> bool
        ensures { IsTrue result ↔ All (λ r. r ≢ []) self.now.routes }
    {
        for index in 0..self.routes() {
            if self.route(index).is_empty() {
                return false;
            }
        }
        true
    }

    // Whether each truck can carry its load.
    fn overloads_no_truck(&self, instance: &Instance) -> bool
        requires { ServesEachOnce instance.now self.now.routes }
        ensures { IsTrue result ↔ OverloadsNoTruck instance.now self.now.routes }
    {
        for index in 0..self.routes() {
            if !is_carried(instance, self.route(index)) {
                return false;
            }
        }
        true
    }

    // Whether there are trucks for all routes.
    fn has_trucks(&self, instance: &Instance) -> bool
        ensures { IsTrue result ↔ HasTrucks instance.now (length self.now.routes) }
    {
        match instance.trucks() {
            Some(trucks) => self.routes() <= usize::from(trucks),
            None => true,
        }
    }

    // Whether the routes together cost what the plan says. The remaining amount is counted down, so no sum gets too large.
    fn has_its_cost(&self, instance: &Instance) -> bool
        requires problem { IsProblem instance.now }
        requires served { ServesEachOnce instance.now self.now.routes }
        ensures { IsTrue result ↔ self.now.cost ≡ plan_cost instance.now self.now.routes }
    {
        let mut left = self.cost;
        for index in 0..self.routes() {
            let cost = route_cost(instance, self.route(index));
            if left < cost {
                return false;
            }
            left -= cost;
        }
        left == 0
    }
}

// Whether these stops' demand fits on one truck. Once the load is above the capacity, nothing is added to it.
fn is_carried(instance: &Instance, stops: &[u16]) -> bool
    requires { All (λ stop. stop < place_count instance.now) stops.now }
    ensures { IsTrue result ↔ load_of instance.now stops.now ≤ instance.now.capacity }
{
    let capacity = instance.capacity();
    let mut load = 0;
    for stop in stops {
        load += instance.demand(*stop);
        if load > capacity {
            return false;
        }
    }
    true
}
