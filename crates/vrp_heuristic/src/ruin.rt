//! Ruin: strings of customers are removed from a few nearby routes.
ghost use Rattle.std.specs.Prelude.{◌≡◌, ◌<◌};
ghost use Rattle.vrp_model.specs.Problem.{place_count};
ghost use Rattle.vrp_model.specs.declared.limits.TheConstants.{MAX_NODES};

use crate::random::Random;
use crate::routes::Routes;
use crate::surroundings::Surroundings;
use crate::taken::Taken;

/// The most customers that are removed from one route.
const LONGEST_STRING: u16 = 10;

/// About the most customers that are removed in a move.
const MOST_TAKEN: u16 = 40;

/// The customers removed from a route: a string of stops, except some in its middle that are kept.
#[derive(Clone, Copy)]
struct Removal {
    // The position of the string's first stop on the route.
    first: u16,
    // The number of stops from the first to the last.
    stops: u16,
    // The stops among these that are kept.
    kept_from: u16,
    kept_to: u16,
}

/// Removes customers from some routes near a random place, and answers the number of places looked at. A route that was already ruined in
/// the move of this number is left alone.
pub(crate) fn ruin(
    setting: &Surroundings<'_>,
    routes: &mut Routes,
    taken: &mut Taken,
    random: &mut Random,
    number: u32,
) -> u64
    requires routes { routes.old ≡ place_count setting.now }
    requires taken { taken.old ≡ place_count setting.now }
    ensures routes { routes.new ≡ routes.old }
    ensures taken { taken.new ≡ taken.old }
{
    let places = setting.instance().customers() + 1;
    let longest = (places / routes.count().max(1)).clamp(1, LONGEST_STRING);
    let strings = (MOST_TAKEN / (1 + longest)).max(2) - 1;
    let mut left = 1 + random.below(strings);
    let centre = random.below(places);
    for rank in 0..places {
        let customer = setting.near().nearest(centre, rank);
        if may_ruin(routes, customer, number) {
            let route = routes.stop(customer).route;
            routes.note_ruined(route, number);
            ruin_at(setting, routes, taken, random, customer, longest);
            left -= 1;
        }
        if left == 0 {
            return u64::from(rank);
        }
    }
    u64::from(places)
}

// Whether a place is on a route that is not ruined yet in a move.
fn may_ruin(routes: &Routes, place: u16, number: u32) -> bool
    requires { place < routes.now }
{
    let route = routes.stop(place).route;
    route != 0 && routes.route(route).ruined != number
}

// Removes a string of at most this many stops, which has the customer in it, from the customer's route.
fn ruin_at(
    setting: &Surroundings<'_>,
    routes: &mut Routes,
    taken: &mut Taken,
    random: &mut Random,
    customer: u16,
    longest: u16,
)
    requires routes { routes.old ≡ place_count setting.now }
    requires taken { taken.old ≡ place_count setting.now }
    requires customer { customer < routes.old }
    ensures routes { routes.new ≡ routes.old }
    ensures taken { taken.new ≡ taken.old }
{
    let route = routes.stop(customer).route;
    let position = position(routes, customer, setting.instance().customers());
    let cut = draw_cut(random, routes.route(route).stops, position, longest);
    let first = step_back(routes, customer, position.saturating_sub(cut.first));
    take_string(setting, routes, taken, first, cut);
}

// Removes the customers of a cut, from the string's first stop on.
fn take_string(
    setting: &Surroundings<'_>,
    routes: &mut Routes,
    taken: &mut Taken,
    first: u16,
    cut: Removal,
)
    requires routes { routes.old ≡ place_count setting.now }
    requires taken { taken.old ≡ place_count setting.now }
    requires first { first < routes.old }
    ensures routes { routes.new ≡ routes.old }
    ensures taken { taken.new ≡ taken.old }
{
    let mut at = first;
    for index in 0..cut.stops {
        if at == 0 {
            break;
        }
        let after = routes.stop(at).after;
        if index < cut.kept_from || cut.kept_to <= index {
            routes.take(setting, at);
            taken.add(at);
        }
        at = after;
    }
}

// The number of stops before a customer on its route, which has at most this many.
fn position(routes: &Routes, customer: u16, most: u16) -> u16
    requires customer { customer < routes.now }
    requires most { most < MAX_NODES }
    ensures { result < MAX_NODES }
{
    let mut at = customer;
    for index in 0..most {
        at = routes.stop(at).before;
        if at == 0 {
            return index;
        }
    }
    0
}

// The place this many stops before a customer.
fn step_back(routes: &Routes, customer: u16, steps: u16) -> u16
    requires { customer < routes.now }
    ensures { result < routes.now }
{
    let mut at = customer;
    for _ in 0..steps {
        at = routes.stop(at).before;
    }
    at
}

// Draws the customers to remove from a route of this many stops: a string around a position. Half of the longer strings keep some stops
// in the middle.
fn draw_cut(random: &mut Random, stops: u16, position: u16, longest: u16) -> Removal
    requires { position < MAX_NODES }
{
    let taken = 1 + random.below(longest.min(stops).max(1));
    let splits = random.below(2) == 1 && taken > 1 && taken < stops;
    let (kept_from, kept) = if splits {
        (1 + random.below(taken - 1), 1 + random.below(stops - taken))
    } else {
        (0, 0)
    };
    let whole = taken.saturating_add(kept);
    let lowest = (position + 1).saturating_sub(whole);
    let highest = position.min(stops.saturating_sub(whole)).max(lowest);
    Removal {
        first: lowest + random.below(highest - lowest + 1),
        stops: whole,
        kept_from,
        kept_to: kept_from.saturating_add(kept),
    }
}
