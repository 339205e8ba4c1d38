//! Recreate: each removed customer is put back where it costs least.
ghost use Rattle.std.specs.Prelude.{◌≡◌, ◌<◌, length};
ghost use Rattle.vrp_heuristic.specs.Inner.Stops.{IsGap, IsStop};
ghost use Rattle.vrp_model.specs.Problem.{place_count};

use crate::detours::MOST_DETOURS;
use crate::near::NEARBY;
use crate::random::Random;
use crate::routes::{Gap, RouteState, Routes, Stop};
use crate::surroundings::Surroundings;
use crate::taken::Taken;

/// A position for a customer. Offers are compared by cost.
#[derive(Clone, Copy)]
struct Insertion {
    // The weight of the added arcs minus the saved one, plus `RAISE`.
    paid: u64,
    // Route 0 stands for a route of its own, whose number is chosen later.
    gap: Gap,
}

/// More than the weight of an arc, so that no offer is negative.
const RAISE: u64 = 1 << 32;

/// With this many customers to a route and more, the ends of routes are looked at too.
const LONG_ROUTES: u16 = 8;

/// Puts the removed customers back, in their order, where they find a place. The rest stay unserved if the routes cost as much as the
/// limit before, unless the triangle inequality fails. Answers the number of positions looked at.
pub(crate) fn recreate(
    setting: &Surroundings<'_>,
    routes: &mut Routes,
    taken: &Taken,
    random: &mut Random,
    limit: u64,
) -> u64
    requires routes { routes.old ≡ place_count setting.now }
    requires taken { taken.now ≡ place_count setting.now }
    ensures { routes.new ≡ routes.old }
{
    let mut looked: u64 = 0;
    let turns = taken.turns();
    for turn in turns {
        looked = looked.saturating_add(put_back(setting, routes, turn.customer, random));
        if setting.gives_up() && routes.weight() >= limit {
            break;
        }
    }
    looked
}

// Puts a customer where it costs least, if there is a place. With many customers only the gaps beside near places are looked at, and the
// ends of routes on the way to which the customer lies. All routes are looked at if none of these costs less than a route of the
// customer's own: a truck with room to spare may be far away, and this saves routes. Answers the number of positions looked at.
fn put_back(
    setting: &Surroundings<'_>,
    routes: &mut Routes,
    customer: u16,
    random: &mut Random,
) -> u64
    requires routes { routes.old ≡ place_count setting.now }
    requires customer { customer < routes.old }
    ensures { routes.new ≡ routes.old }
{
    if !setting.has_many() {
        return put_anywhere(setting, routes, customer, random);
    }
    let mut best = best_nearby(setting, routes, customer, random);
    if routes.count() <= setting.instance().customers() / LONG_ROUTES {
        best = best_end(setting, routes, customer, random, best);
    }
    if best.gap.route == 0 {
        return put_anywhere(setting, routes, customer, random).saturating_add(u64::from(NEARBY));
    }
    routes.put(setting, customer, best.gap);
    u64::from(NEARBY)
}

// Puts a customer where it costs least along all routes, if there is a place. Answers the number of positions looked at.
fn put_anywhere(
    setting: &Surroundings<'_>,
    routes: &mut Routes,
    customer: u16,
    random: &mut Random,
) -> u64
    requires routes { routes.old ≡ place_count setting.now }
    requires customer { customer < routes.old }
    ensures { routes.new ≡ routes.old }
{
    let demand = setting.instance().demand(customer);
    let mut best = own_route(setting, routes, customer);
    let mut free = routes.highest() + 1;
    let mut looked: u64 = 0;
    for number in 1..routes.highest() + 1 {
        let route = routes.route(number);
        if route.stops == 0 {
            free = number;
        } else if demand <= route.room {
            best = best_along(setting, routes, customer, number, random, best);
            looked = looked.saturating_add(u64::from(route.stops));
        }
        looked = looked.saturating_add(1);
    }
    put_at(setting, routes, customer, best, free);
    looked
}

// Accepts an offer, with the number of a free route. An infinite cost means that there is none.
fn put_at(
    setting: &Surroundings<'_>,
    routes: &mut Routes,
    customer: u16,
    offer: Insertion,
    free: u16,
)
    requires routes { routes.old ≡ place_count setting.now }
    requires customer { customer < routes.old }
    requires gap { IsGap routes.old offer.gap }
    ensures { routes.new ≡ routes.old }
{
    let Insertion { paid, gap } = offer;
    if paid == u64::MAX {
        return;
    }
    if gap.route != 0 {
        routes.put(setting, customer, gap);
    } else if free <= setting.instance().customers() {
        let gap = Gap {
            route: free,
            before: 0,
        };
        routes.put(setting, customer, gap);
    }
}

// The offer of a route of the customer's own. Its cost is infinite if there is no truck for it.
fn own_route(setting: &Surroundings<'_>, routes: &Routes, customer: u16) -> Insertion
    requires routes { routes.now ≡ place_count setting.now }
    requires customer { customer < routes.now }
    ensures { IsGap routes.now result.gap }
{
    let arcs = setting.arcs();
    let out = u64::from(arcs.weight(0, customer));
    let back = u64::from(arcs.weight(customer, 0));
    let paid = if routes.count() < setting.trucks() {
        RAISE + out + back
    } else {
        u64::MAX
    };
    Insertion {
        paid,
        gap: Gap {
            route: 0,
            before: 0,
        },
    }
}

// The best of an offer and the offers along a route. One position in a hundred is skipped.
fn best_along(
    setting: &Surroundings<'_>,
    routes: &Routes,
    customer: u16,
    route: u16,
    random: &mut Random,
    offer: Insertion,
) -> Insertion
    requires routes { routes.now ≡ place_count setting.now }
    requires customer { customer < routes.now }
    requires route { route < routes.now }
    requires offer { IsGap routes.now offer.gap }
    ensures { IsGap routes.now result.gap }
{
    let arcs = setting.arcs();
    let (from, into, home) = (arcs.from(customer), arcs.into(customer), arcs.into(0));
    let RouteState { first, stops, .. } = routes.route(route);
    let mut best = offer;
    let mut before = 0;
    let mut at = first;
    for _ in 0..u32::from(stops) + 1 {
        let stop = routes.stop(at);
        let spared = if at == 0 {
            home[usize::from(before)]
        } else {
            stop.arc_in
        };
        let added = u64::from(into[usize::from(before)]) + u64::from(from[usize::from(at)]);
        let paid = RAISE + added - u64::from(spared);
        if !random.blinks() && paid < best.paid {
            let gap = Gap { route, before };
            best = Insertion { paid, gap };
        }
        before = at;
        at = stop.after;
    }
    best
}

// The best of a route of the customer's own and the gaps beside near places. One better position in a hundred is skipped.
fn best_nearby(
    setting: &Surroundings<'_>,
    routes: &Routes,
    customer: u16,
    random: &mut Random,
) -> Insertion
    requires routes { routes.now ≡ place_count setting.now }
    requires customer { customer < routes.now }
    ensures { IsGap routes.now result.gap }
{
    let demand = setting.instance().demand(customer);
    let arcs = setting.arcs();
    let (from, into) = (arcs.from(customer), arcs.into(customer));
    let mut best = own_route(setting, routes, customer);
    for rank in 1..NEARBY.min(setting.instance().customers()) + 1 {
        let near = setting.near().nearest(customer, rank);
        let stop = routes.stop(near);
        let Stop { before, route, .. } = stop;
        if route != 0 && demand <= routes.route(route).room {
            let (ahead, behind) = detours_beside(from, into, near, stop);
            best = better_of(routes, best, ahead, Gap { route, before }, random);
            let behind_it = Gap {
                route,
                before: near,
            };
            best = better_of(routes, best, behind, behind_it, random);
        }
    }
    best
}

// The best of an offer and the ends of routes on the way to which a customer lies. One better position in a hundred is skipped.
fn best_end(
    setting: &Surroundings<'_>,
    routes: &Routes,
    customer: u16,
    random: &mut Random,
    offer: Insertion,
) -> Insertion
    requires routes { routes.now ≡ place_count setting.now }
    requires customer { customer < routes.now }
    requires offer { IsGap routes.now offer.gap }
    ensures { IsGap routes.now result.gap }
{
    let demand = setting.instance().demand(customer);
    let arcs = setting.arcs();
    let (from, into) = (arcs.from(customer), arcs.into(customer));
    let mut best = offer;
    for rank in 0..MOST_DETOURS {
        let far = setting.detours().place(customer, rank);
        let stop = routes.stop(far);
        let Stop {
            before,
            after,
            route,
            ..
        } = stop;
        let is_end = before == 0 || after == 0;
        if is_end && route != 0 && demand <= routes.route(route).room {
            let (ahead, behind) = detours_beside(from, into, far, stop);
            if before == 0 {
                best = better_of(routes, best, ahead, Gap { route, before }, random);
            }
            if after == 0 {
                best = better_of(routes, best, behind, Gap { route, before: far }, random);
            }
        }
    }
    best
}

// What a customer costs before a stop and behind it, plus `RAISE`, by the weights of the arcs from the customer and to it.
#[inline(always)]
fn detours_beside(from: &[u32], into: &[u32], place: u16, stop: Stop) -> (u64, u64)
    requires from { IsStop (length from.now) stop }
    requires into { length into.now ≡ length from.now }
    requires place { place < length from.now }
{
    let to_place = u64::from(from[usize::from(place)]);
    let ahead = RAISE + u64::from(into[usize::from(stop.before)]) + to_place;
    let from_place = u64::from(into[usize::from(place)]);
    let behind = RAISE + from_place + u64::from(from[usize::from(stop.after)]);
    (
        ahead - u64::from(stop.arc_in),
        behind - u64::from(stop.arc_out),
    )
}

// The better of an offer and a gap at this cost, unless the gap is skipped.
#[inline(always)]
fn better_of(
    routes: &Routes,
    offer: Insertion,
    paid: u64,
    gap: Gap,
    random: &mut Random,
) -> Insertion
    requires offer { IsGap routes.now offer.gap }
    requires gap { IsGap routes.now gap }
    ensures { IsGap routes.now result.gap }
{
    // It is the routes that the gap is in; nothing is read of them.
    let _routes = routes;
    if paid < offer.paid && !random.blinks() {
        Insertion { paid, gap }
    } else {
        offer
    }
}
