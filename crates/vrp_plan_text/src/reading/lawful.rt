//! Whether routes make a feasible plan, and if not, why.
ghost use Rattle.std.specs.Prelude.{◌≡◌, ◌<◌, ◌++◌, All, Contains, IfNone, IfOk, IfSome, List, MatchOption, [], ℕ, false, length, map, slice_index_or, true};
ghost use Rattle.vrp_model.specs.Problem.{customers, place_count};
ghost use Rattle.vrp_model.specs.Route.{IsLawful, IsPlanOf};
ghost use Rattle.vrp_model.specs.Word.{word_of};
ghost use Rattle.vrp_plan_text.specs.Inner.Listing.{given_routes};
ghost use Rattle.vrp_plan_text.specs.Solution.{AreCustomers};
ghost use Rattle.vrp_plan_text.specs.Inner.Ordered.{AreOrdered, AreRoutesOf, turned};
ghost use Rattle.vrp_plan_text.specs.Inner.Served.{AreDifferent, AreFaulty, AreServed, Marks, StandsTwice};

use crate::reading::error::SolutionError;
use crate::reading::route::NonemptyRoute;
use std::alloc::{AllocError, Global};
use vrp_model::{Instance, NoMemory, Plan};
use vrp_search_tree::lawful_plan;

/// The plan of these routes, with its true cost, if it is feasible.
pub(crate) fn plan_of(
    alloc: Global,
    instance: &Instance,
    routes: &[NonemptyRoute],
) -> Result<Option<Plan>, NoMemory>
    requires customers { All (λ route. AreCustomers instance.now route.stops.items) routes.now }
    requires stops { All (λ route. 0 < length route.stops.items) routes.now }
    ensures lawful { IfOk result (λ plan. IfSome plan (IsPlanOf instance.now)) }
    ensures routes { IfOk result (λ plan. IfSome plan (λ plan.
        AreRoutesOf instance.now (map (λ route. route.stops.items) routes.now) plan.routes)) }
    ensures none { IfOk result (λ plan. IfNone plan
        (IsLawful instance.now (map (λ route. route.stops.items) routes.now) → ⊥)) }
{
    // The invariant of an instance says that there is a depot.
    let _customers = instance.customers();
    let word = word_of(alloc, instance.symmetric(), routes)?;
    lawful_plan(alloc, instance, &word)
}

// The word of these routes, sorted by their starts.
fn word_of(alloc: Global, symmetric: bool, routes: &[NonemptyRoute]) -> Result<Vec<u16>, NoMemory>
    ensures { IfOk result (λ word. (ordered : List (List ℕ))
        × AreOrdered symmetric (map (λ route. route.stops.items) routes.now) ordered
        × (word.items ≡ word_of (map (turned symmetric) ordered))) }
{
    let rising = by_start(alloc, symmetric, routes)?;
    let mut word = Vec::new(alloc);
    for route in &rising {
        route.push_onto(&mut word, symmetric)?;
    }
    Ok(word)
}

// The routes in the order of their starts.
fn by_start(
    alloc: Global,
    symmetric: bool,
    routes: &[NonemptyRoute],
) -> Result<Vec<&NonemptyRoute>, AllocError>
    ensures { IfOk result (λ rising. AreOrdered symmetric
        (map (λ route. route.stops.items) routes.now)
        (map (λ route. route.now.stops.items) rising.items)) }
{
    let mut rising = references(alloc, routes)?;
    rising.sort_unstable_by_key(|route| route.start(symmetric));
    Ok(rising)
}

// A reference to each of the routes, in order.
fn references(alloc: Global, routes: &[NonemptyRoute]) -> Result<Vec<&NonemptyRoute>, AllocError>
    ensures { IfOk result (λ listed. map (λ route. route.now) listed.items ≡ routes.now) }
{
    routes.iter().collect(alloc)
}

/// Why these routes, whose stops are customers, make no feasible plan.
pub(crate) fn refusal_of(
    alloc: Global,
    instance: &Instance,
    routes: &[NonemptyRoute],
) -> Result<SolutionError, NoMemory>
    requires customers { All (λ route. AreCustomers instance.now route.stops.items) routes.now }
    requires stops { All (λ route. 0 < length route.stops.items) routes.now }
    requires refused { IsLawful instance.now (map (λ route. route.stops.items) routes.now) → ⊥ }
    ensures { IfOk result (AreFaulty instance.now (given_routes routes.now)) }
{
    let mut served = Vec::from_elem(alloc, false, usize::from(instance.customers()) + 1)?;
    if let Some(error) = faulty_route(instance, routes, served.as_mut_slice()) {
        return Ok(error);
    }
    Ok(match first_unserved(instance, served.as_slice()) {
        Some(customer) => SolutionError::NotServed(customer),
        None => SolutionError::TooManyRoutes {
            routes: routes.len(),
        },
    })
}

// The first route that has a customer twice, or one of an earlier route, or too much load. Its stops are marked as served.
fn faulty_route(
    instance: &Instance,
    routes: &[NonemptyRoute],
    served: &mut [bool],
) -> Option<SolutionError>
    requires customers { All (λ route. AreCustomers instance.now route.stops.items) routes.now }
    requires none { AreServed instance.now served.old [] }
    ensures { MatchOption result
        (AreServed instance.now served.new (map (λ route. route.stops.items) routes.now))
        (AreFaulty instance.now (given_routes routes.now)) }
{
    for route in routes {
        if let Some(customer) = served_before(&route.stops, served) {
            return Some(SolutionError::ServedTwice {
                route: route.number,
                customer,
            });
        }
        let load = route.load(instance);
        let capacity = instance.capacity();
        if capacity < load {
            return Some(SolutionError::Overloaded {
                route: route.number,
                load,
                capacity,
            });
        }
    }
    None
}

// The first of the stops that is already served. The stops are marked as served.
fn served_before(stops: &[u16], served: &mut [bool]) -> Option<u16>
    requires { All (λ stop. stop < length served.old) stops.now }
    ensures { (done : List ℕ) → Marks served.old done → AreDifferent done
        → MatchOption result
        (Marks served.new (done ++ stops.now) × AreDifferent (done ++ stops.now))
        (StandsTwice done stops.now) }
{
    for stop in stops {
        let place = usize::from(*stop);
        if served[place] {
            return Some(*stop);
        }
        served[place] = true;
    }
    None
}

// The lowest customer who isn't served.
fn first_unserved(instance: &Instance, served: &[bool]) -> Option<u16>
    requires { length served.now ≡ place_count instance.now }
    ensures { MatchOption result
        (All (λ k. slice_index_or served.now k false ≡ true) (customers instance.now))
        (λ customer. Contains (customers instance.now) customer
        × (slice_index_or served.now customer false ≡ false)
        × ((k : ℕ) → 0 < k → k < customer → slice_index_or served.now k false ≡ true)) }
{
    for customer in 1..instance.customers() + 1 {
        if !served[usize::from(customer)] {
            return Some(customer);
        }
    }
    None
}
