//! Routes in the order of their stops.
ghost use Rattle.std.specs.Prelude.{◌≡◌, ◌↔◌, ◌<◌, IfNone, IfOk, IfSome, IsTrue, length, map};
ghost use Rattle.std.specs.List.{All, AllPairs, Contains};
ghost use Rattle.std.specs.List.Sorted.{IsPermutation};
ghost use Rattle.vrp_canonical.specs.Ordering.{AreMarked, IsWordOf, chosen_of, route_of, stops_in, stops_of};
ghost use Rattle.vrp_canonical.specs.Passing.{route_in};
ghost use Rattle.vrp_canonical.specs.Reaching.{routes_at};
ghost use Rattle.vrp_model.specs.Order.{IsEarlier};
ghost use Rattle.vrp_model.specs.Word.{word_of};

use std::alloc::{AllocError, Global};
use vrp_model::{CustomerSet, NoMemory};
use vrp_partition::Route;
use vrp_routes::RoutePool;

/// A route with its stops.
#[derive(Debug, PartialEq, Eq, PartialOrd, Ord, Drop)]
pub struct ListedRoute {
    pub stops: Vec<u16>,
    pub set: CustomerSet,
    pub cost: u32,
}

/// The routes of a pool as a choice sees them. `None` if a cost doesn't fit 32 bits; no clause says when.
pub fn chosen_routes(alloc: Global, pool: &RoutePool) -> Result<Option<Vec<Route>>, NoMemory>
    ensures { IfOk result (λ found. IfSome found (λ routes. routes.items ≡ map chosen_of pool.now)) }
{
    let mut routes = Vec::new(alloc);
    for at in 0..pool.len() {
        let Ok(cost) = u32::try_from(pool.cost(at)) else {
            return Ok(None);
        };
        let set = pool.set(at);
        routes.push(Route { set, cost })?;
    }
    Ok(Some(routes))
}

/// The marked routes of a pool, with their stops. `routes` are those of the pool, as a choice sees them.
pub fn marked_routes(
    alloc: Global,
    pool: &RoutePool,
    routes: &[Route],
    marks: &[bool],
) -> Result<Vec<ListedRoute>, NoMemory>
    requires routes { routes.now ≡ map chosen_of pool.now }
    requires marks { length marks.now ≡ length pool.now }
    ensures { IfOk result (λ listed. AreMarked (map stops_in pool.now) routes.now marks.now (length pool.now) listed.items) }
{
    let mut listed = Vec::new(alloc);
    for at in 0..pool.len() {
        if marks[at] {
            let stops = pool.stops(alloc, at)?;
            let route = &routes[at];
            listed.push(ListedRoute {
                stops,
                set: route.set,
                cost: route.cost,
            })?;
        }
    }
    Ok(listed)
}

/// The marked routes. The contract leaves open that no other is among them, and that they keep their order.
pub fn kept_routes(
    alloc: Global,
    ordered: &[ListedRoute],
    marks: &[bool],
) -> Result<Vec<ListedRoute>, AllocError>
    requires { length marks.now ≡ length ordered.now }
    ensures { IfOk result (λ kept. AreMarked (map stops_of ordered.now) (map route_of ordered.now) marks.now (length ordered.now) kept.items) }
{
    let mut kept = Vec::new(alloc);
    for at in 0..ordered.len() {
        if marks[at] {
            let route = &ordered[at];
            let stops = Vec::from_slice(alloc, route.stops.as_slice())?;
            let set = route.set;
            let cost = route.cost;
            kept.push(ListedRoute { stops, set, cost })?;
        }
    }
    Ok(kept)
}

/// The routes in the order of their stops, symbol by symbol. `None` if two have the same stops; no clause says that this is so.
pub fn in_order(mut listed: Vec<ListedRoute>) -> Result<Option<Vec<ListedRoute>>, AllocError>
    ensures moved { IfOk result (λ found. IfSome found (λ ordered. IsPermutation listed.items ordered.items)) }
    ensures rising { IfOk result (λ found. IfSome found (λ ordered. AllPairs IsEarlier (map stops_of ordered.items))) }
{
    listed.sort()?;
    if are_rising(listed.as_slice()) {
        Ok(Some(listed))
    } else {
        Ok(None)
    }
}

// Whether the stops of each route are earlier than those of the next.
fn are_rising(listed: &[ListedRoute]) -> bool
    ensures { IsTrue result → AllPairs IsEarlier (map stops_of listed.now) }
{
    for index in 1..listed.len() {
        let before = &listed[index - 1];
        let route = &listed[index];
        if !is_earlier(before.stops.as_slice(), route.stops.as_slice()) {
            return false;
        }
    }
    true
}

// Whether stops are earlier than others, symbol by symbol.
fn is_earlier(stops: &[u16], others: &[u16]) -> bool
    ensures { IsTrue result ↔ IsEarlier stops.now others.now }
{
    stops < others
}

/// The routes as a choice sees them.
pub fn routes_of(alloc: Global, ordered: &[ListedRoute]) -> Result<Vec<Route>, AllocError>
    ensures { IfOk result (λ routes. routes.items ≡ map route_of ordered.now) }
{
    ordered
        .iter()
        .map(|route| Route {
            set: route.set,
            cost: route.cost,
        })
        .collect(alloc)
}

/// The word of the routes at some places: the stops of each, followed by 0.
pub fn word_at(
    alloc: Global,
    ordered: &[ListedRoute],
    places: &[usize],
) -> Result<Vec<u16>, AllocError>
    requires { All (λ at. at < length ordered.now) places.now }
    ensures { IfOk result (λ word. word.items ≡ word_of (routes_at (map stops_of ordered.now) places.now)) }
{
    let mut word = Vec::new(alloc);
    for at in places {
        word.extend_from_slice(ordered[*at].stops.as_slice())?;
        word.push(0)?;
    }
    Ok(word)
}

/// The word of a choice of a pool's routes: the stops of each, followed by 0. `routes` are those of the pool, as a choice sees them. The
/// contract leaves open what the word is where a chosen route is none of these.
pub fn word_of_choice(
    alloc: Global,
    pool: &RoutePool,
    routes: &[Route],
    choice: &[Route],
) -> Result<Vec<u16>, NoMemory>
    requires { length routes.now ≡ length pool.now }
    ensures { IfOk result (λ word. All (Contains routes.now) choice.now
        → IsWordOf (map stops_in pool.now) routes.now choice.now word.items) }
{
    let mut word = Vec::new(alloc);
    for chosen in choice {
        if let Some(at) = place_of(routes, *chosen) {
            let stops = pool.stops(alloc, at)?;
            word.extend_from_slice(stops.as_slice())?;
            word.push(0)?;
        }
    }
    Ok(word)
}

/// The routes of a choice by rising stops, as they stand in a word. A route that is none of the pool's is left out. No clause pins the
/// result: its word is checked. `routes` are those of the pool, as a choice sees them.
pub fn by_stops(
    alloc: Global,
    pool: &RoutePool,
    routes: &[Route],
    choice: &[Route],
) -> Result<Vec<Route>, NoMemory>
    requires { length routes.now ≡ length pool.now }
{
    let mut listed = Vec::new(alloc);
    for chosen in choice {
        if let Some(at) = place_of(routes, *chosen) {
            let stops = pool.stops(alloc, at)?;
            listed.push(ListedRoute {
                stops,
                set: chosen.set,
                cost: chosen.cost,
            })?;
        }
    }
    listed.sort()?;
    let sorted = routes_of(alloc, listed.as_slice())?;
    drop(listed);
    Ok(sorted)
}

// The first place of a route with the same customers and the same cost.
fn place_of(routes: &[Route], route: Route) -> Option<usize>
    ensures within { IfSome result (λ at. at < length routes.now) }
    ensures is { IfSome result (λ at. route_in routes.now at ≡ route) }
    ensures none { IfNone result (Contains routes.now route → ⊥) }
{
    for at in 0..routes.len() {
        if routes[at].set == route.set && routes[at].cost == route.cost {
            return Some(at);
        }
    }
    None
}
