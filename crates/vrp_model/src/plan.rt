//! Plans: the routes of the trucks, and their cost.
ghost use Rattle.std.specs.Prelude.{◌≡◌, ◌+◌, ◌*◌, ◌<◌, ◌≤◌, ◌==◌, false, Some, IfOk, IfSome, IsTrue, is_some, ◌↔◌, [], ◌∷◌, ◌++◌, ◌^◌, length, map, slice_get};
ghost use Rattle.std.specs.List.{All, position_or_len};
ghost use Rattle.std.specs.List.Sorted.{IsStrictlyIncreasing};
ghost use Rattle.vrp_model.specs.Order.{IsBefore};
ghost use Rattle.vrp_model.specs.Problem.{HasTruckForEach, IsProblem, Problem, place_count};
ghost use Rattle.vrp_model.specs.Route.{IsPlanOf, SendsOneToEach, load_of, route_cost};
ghost use Rattle.vrp_model.specs.Inner.Stops.{routes_in, IsWordEnd};
ghost use Rattle.vrp_model.specs.Word.{AllRunForward, HasLawfulWord, IsLawfulWord, first_stops, word_cost, word_of};

use crate::instance::Instance;
use crate::limits::{MAX_NODES, MAX_WEIGHT};
use crate::memory::NoMemory;
use std::alloc::Global;
use std::marker::Model;

mod fits;

// The stops of one route, by their indexes in the plan's word.
#[derive(Clone, Copy, Debug, PartialEq, Eq)]
struct Span {
    start: usize,
    end: usize,
}

/// A plan: routes, each a list of places, and their cost. The routes rise by their first places.
#[derive(Debug, Drop)]
pub struct Plan {
    // The stops of all routes, one route after the other, each followed by 0.
    word: Vec<u16>,
    routes: Vec<Span>,
    cost: u64,
}

impl Model for Plan {
    ghost use Rattle.vrp_model.specs.Route.{PricedPlan};
    ghost use Rattle.vrp_model.specs.Inner.Stops.{routes_in, ArePlanStops};

    ghost Value = { PricedPlan };

    ghost view = { λ p. record { routes = routes_in p.word.items p.routes.items; cost = p.cost } };

    ghost invariant = { λ p. ArePlanStops p.word.items p.routes.items };
}

impl Plan {
    /// The plan with one route for each customer, by rising place. `None` if there are more customers than trucks.
    pub fn singles(alloc: Global, instance: &Instance) -> Result<Option<Plan>, NoMemory>
        ensures some { IfOk result (λ plan. IsTrue (is_some plan) ↔ HasTruckForEach instance.now) }
        ensures routes { IfOk result (λ found. IfSome found (SendsOneToEach instance.now)) }
        ensures lawful { IfOk result (λ found. IfSome found (IsPlanOf instance.now)) }
        ensures word { IfOk result (λ found. IfSome found (HasLawfulWord instance.now)) }
        // An invariant of every instance.
        ensures problem { IsProblem instance.now }
    {
        match instance.trucks() {
            Some(trucks) if trucks < instance.customers() => Ok(None),
            _ => Ok(Some(Plan::one_each(alloc, instance)?)),
        }
    }

    // The plan with one route for each customer, given enough trucks.
    fn one_each(alloc: Global, instance: &Instance) -> Result<Plan, NoMemory>
        requires { HasTruckForEach instance.now }
        ensures routes { IfOk result (SendsOneToEach instance.now) }
        ensures lawful { IfOk result (IsPlanOf instance.now) }
        ensures word { IfOk result (HasLawfulWord instance.now) }
    {
        let customers = instance.customers();
        let mut plan = Plan::with_room(alloc, usize::from(customers))?;
        for index in 0..customers {
            let customer = index + 1;
            let cost = instance.weight(0, customer) + instance.weight(customer, 0);
            plan = plan.with_route(&[customer], cost)?;
        }
        Ok(plan)
    }

    /// The plan of a feasible word of the instance.
    pub fn of_word(alloc: Global, instance: &Instance, word: &[u16]) -> Result<Plan, NoMemory>
        requires { IsLawfulWord instance.now word.now }
        ensures word { IfOk result (λ plan. word_of plan.routes ≡ word.now) }
        ensures lawful { IfOk result (IsPlanOf instance.now) }
    {
        let mut plan = Plan::with_room(alloc, usize::from(instance.customers()))?;
        let mut rest = word;
        while !rest.is_empty() {
            let (route, behind) = split_route(rest);
            plan = plan.with_route(route, route_cost(instance, route))?;
            rest = behind;
        }
        Ok(plan)
    }

    /// A copy of the plan.
    pub fn copy(&self, alloc: Global) -> Result<Plan, NoMemory>
        ensures { IfOk result (λ plan. plan ≡ self.now) }
    {
        let word = Vec::from_slice(alloc, &self.word)?;
        let routes = Vec::from_slice(alloc, &self.routes)?;
        Ok(Plan {
            word,
            routes,
            cost: self.cost,
        })
    }

    // A plan without routes, with room for this many routes of one stop.
    fn with_room(alloc: Global, most: usize) -> Result<Plan, NoMemory>
        requires { most ≤ 65535 }
        ensures routes { IfOk result (λ plan. plan.routes ≡ []) }
        ensures cost { IfOk result (λ plan. plan.cost ≡ 0) }
    {
        let word = Vec::with_capacity(alloc, 2 * most)?;
        let routes = Vec::with_capacity(alloc, most)?;
        Ok(Plan {
            word,
            routes,
            cost: 0,
        })
    }

    // The plan with one more route of this cost, appended at the end: its first stop is above those of the others.
    fn with_route(self, stops: &[u16], cost: u64) -> Result<Plan, NoMemory>
        requires fits { self.cost + cost < 2 ^ 64 }
        requires rising { IsStrictlyIncreasing (first_stops (self.routes ++ stops.now ∷ [])) }
        ensures routes { IfOk result (λ plan. plan.routes ≡ self.routes ++ stops.now ∷ []) }
        ensures cost { IfOk result (λ plan. plan.cost ≡ self.cost + cost) }
    {
        let Plan {
            mut word,
            mut routes,
            cost: so_far,
        } = self;
        let start = word.len();
        word.extend_from_slice(stops)?;
        let end = word.len();
        word.push(0)?;
        routes.push(Span { start, end })?;
        Ok(Plan {
            word,
            routes,
            cost: so_far + cost,
        })
    }

    /// The plan as one list: the stops of all routes, one route after the other, each followed by 0. If the plan is feasible
    /// for an instance, and its routes run forward if that is symmetric, this is a feasible word of it, with the plan's cost.
    pub fn word(&self) -> &[u16]
        ensures value { result.now ≡ word_of self.now.routes }
        // An invariant of every plan.
        ensures rising { IsStrictlyIncreasing (first_stops self.now.routes) }
        ensures lawful { (p : Problem) → IsPlanOf p self.now → AllRunForward p self.now.routes
            → IsLawfulWord p result.now × (word_cost p result.now ≡ self.now.cost) }
    {
        self.word.as_slice()
    }

    /// Whether this plan is before the other: it costs less, or it costs as much and its word is earlier.
    pub fn is_before(&self, other: &Plan) -> bool
        ensures { IsTrue result ↔ IsBefore self.now other.now }
    {
        (self.cost, self.word()) < (other.cost, other.word())
    }

    /// The cost of the routes.
    pub fn cost(&self) -> u64
        ensures { result ≡ self.now.cost }
    {
        self.cost
    }

    /// The number of routes.
    pub fn routes(&self) -> usize
        ensures { result ≡ length self.now.routes }
    {
        self.routes.len()
    }

    /// The places of a route, in the order of service.
    pub fn route(&self, index: usize) -> &[u16]
        requires { index < length self.now.routes }
        ensures { slice_get self.now.routes index ≡ Some result.now }
    {
        let span = self.routes[index];
        &self.word[span.start..span.end]
    }
}

// The number of stops before the first 0.
fn stops_len(word: &[u16]) -> usize
    requires some { 0 < length word.now }
    requires end { IsWordEnd word.now }
    ensures value { result ≡ position_or_len (λ k. k == 0) word.now }
    ensures within { result < length word.now }
{
    for place in 0..word.len() {
        if word[place] == 0 {
            return place;
        }
    }
    word.len()
}

// The stops of the first route, and the rest behind its 0.
fn split_route(word: &[u16]) -> (&[u16], &[u16])
    requires some { 0 < length word.now }
    requires end { IsWordEnd word.now }
    ensures whole { word.now ≡ result.0.now ++ 0 ∷ result.1.now }
    ensures stops { All (λ k. (k == 0) ≡ false) result.0.now }
    ensures some { 0 < length result.0.now }
    ensures end { IsWordEnd result.1.now }
{
    let end = stops_len(word);
    (&word[..end], &word[end + 1..])
}

/// The cost of a route, from the depot through its stops and back.
pub fn route_cost(instance: &Instance, stops: &[u16]) -> u64
    requires some { 0 < place_count instance.now }
    requires places { All (λ stop. stop < place_count instance.now) stops.now }
    requires few { length stops.now ≤ 2 * MAX_NODES }
    ensures value { result ≡ route_cost instance.now stops.now }
    ensures small { result ≤ MAX_WEIGHT * (length stops.now + 1) }
{
    let mut cost = 0;
    let mut at = 0;
    for stop in stops {
        cost += instance.weight(at, *stop);
        at = *stop;
    }
    cost + instance.weight(at, 0)
}

/// The load of a route: the total demand of its stops.
pub fn route_load(instance: &Instance, stops: &[u16]) -> u64
    requires places { All (λ stop. stop < place_count instance.now) stops.now }
    requires few { length stops.now ≤ 2 * MAX_NODES }
    ensures { result ≡ load_of instance.now stops.now }
{
    // The invariant of an instance bounds its demands.
    let _customers = instance.customers();
    let mut load = 0;
    for stop in stops {
        load += instance.demand(*stop);
    }
    load
}
