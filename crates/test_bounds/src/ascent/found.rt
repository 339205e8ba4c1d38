//! How well the prices found bound the plans of four points, and when none are found.
ghost use Rattle.std.specs.Prelude.{◌≡◌};
ghost use Rattle.vrp_model.specs.Problem.{place_count};

use crate::assertion::assert_same;
use std::alloc::Global;
use std::process::Abort;
use test_fixtures::{FOUR, at_points, with_arcs};
use vrp_bound::Tables;
use vrp_bound_prices::{FoundPrices, NearLooks, Relaxation, Size, Walks, find_prices};
use vrp_model::{Instance, Unhurried, Watch};

#[test]
fn found_prices_bound(rt: HostRuntime) {
    let instance = at_points(rt.alloc(), FOUR, &[0, 1, 2, 1], 3).expect(&rt, "an instance");
    let relaxation = found_prices(&rt, rt.alloc(), &instance, true).relaxation;
    assert_same(&rt, relaxation.scale(), 1_000, "the scale");
    let least = least_of_tours(&rt, rt.alloc(), relaxation.relaxed());
    assert_bounds(&rt, &relaxation, least);
}

// A watch that always gives this answer.
#[derive(Drop)]
struct Answering(bool);

impl Watch for Answering {
    fn should_continue(&self) -> bool {
        self.0
    }
}

// The prices and the ng-sets found for a plan of cost 46, in a million steps, or in none if it is stopped.
fn found_prices<'a>(
    rt: &impl Abort,
    alloc: Global,
    instance: &'a Instance,
    goes_on: bool,
) -> FoundPrices<'a>
    ensures { result.ng_sets.places ≡ place_count instance.now }
{
    let found = find_prices(alloc, instance, 46, 3, 1_000_000, &Answering(goes_on));
    found.expect(rt, "memory").expect(rt, "prices")
}

// The least cost of tours that carry everything.
fn least_of_tours(rt: &impl Abort, alloc: Global, instance: &Instance) -> u64 {
    let tables = Tables::over_all(alloc, instance).expect(rt, "memory");
    let least = tables.q_bound(0, 0, instance.whole_demand());
    least.expect(rt, "tours")
}

// Tours of this total cost in a relaxation of the four points show that no plan costs 44, and allow a cost of 46.
fn assert_bounds(rt: &impl Abort, relaxation: &Relaxation<'_>, least: u64) {
    assert!(rt; least < 4_000_000_000_000_000_000);
    let bound = relaxation.lower_bound_by(least).rounded_up();
    assert!(rt; 44 < bound && bound <= 46, "{bound}");
}

// The prices found bound the ng-walks too, which bound as well as plain walks.
#[test]
fn found_prices_bound_walks(rt: HostRuntime) {
    let instance = at_points(rt.alloc(), FOUR, &[0, 1, 2, 1], 3).expect(&rt, "an instance");
    let found = found_prices(&rt, rt.alloc(), &instance, true);
    assert_same(&rt, found.ng_sets.masks(), 4, "masks");
    let looks = NearLooks::new(rt.alloc(), &instance, &found.ng_sets);
    let looks = looks.expect(&rt, "memory");
    let least = least_of_walks(&rt, rt.alloc(), found.relaxation.relaxed(), looks);
    assert_bounds(&rt, &found.relaxation, least);
}

// The least cost of tours by the arcs of an instance.
fn least_of_walks(rt: &impl Abort, alloc: Global, instance: &Instance, looks: NearLooks) -> u64 {
    let size = Size::in_units(instance, 1);
    let mut walks = Walks::new(alloc, instance, 1, 1, size, looks).expect(rt, "memory");
    walks.enter(&[0, 0, 0, 0]);
    let least = walks.fill().expect(rt, "tours");
    u64::try_from(least).unwrap_or(0)
}

// A different weight for each reverse arc.
const ONE_DIRECTION: &[u64] = &[0, 3, 9, 4, 8, 0, 2, 7, 5, 6, 0, 1, 9, 3, 8, 0];

// When stopped before the first round, it has found no prices, if costs are not symmetric: arcs cost what they do in the instance.
#[test]
fn stopped_before_the_first_round(rt: HostRuntime) {
    let instance = with_arcs(rt.alloc(), ONE_DIRECTION, &[0, 1, 2, 1], 3);
    let instance = instance.expect(&rt, "an instance");
    let relaxation = found_prices(&rt, rt.alloc(), &instance, false).relaxation;
    assert!(rt; relaxation.relaxed().customers() == 3 && instance.customers() == 3);
    for customer in 1..4 {
        assert_scaled(&rt, &instance, &relaxation, customer);
    }
}

// If costs are symmetric, one round is made all the same, in which each customer pays its share of the least route through it: 20/3,
// 40/3 and 43/3. Then the least tours visit the first and the second customer, and the first again, for 10/3.
#[test]
fn shares_without_a_round(rt: HostRuntime) {
    let instance = at_points(rt.alloc(), FOUR, &[0, 1, 2, 1], 3).expect(&rt, "an instance");
    let found = found_prices(&rt, rt.alloc(), &instance, false);
    let least = least_of_tours(&rt, rt.alloc(), found.relaxation.relaxed());
    assert!(rt; least < 4_000_000_000_000_000_000);
    let bound = found.relaxation.lower_bound_by(least);
    assert_same(&rt, bound.rounded_up(), 38, "20/3 + 40/3 + 43/3 + 10/3");
}

// The arc to a customer costs `scale` times its cost in the instance.
fn assert_scaled(rt: &impl Abort, instance: &Instance, relaxation: &Relaxation<'_>, customer: u16) {
    let (scale, priced) = (relaxation.scale(), relaxation.relaxed());
    assert!(rt; customer <= instance.customers() && customer <= priced.customers());
    let weight = instance.weight(0, customer);
    assert_same(rt, priced.weight(0, customer), scale * weight, customer);
}

// 1,200 nodes in one place, whose customers demand nothing.
#[test]
fn none_at_the_most_nodes(rt: HostRuntime) {
    let points = vec![in rt.alloc(); (0, 0); 1_200].expect(&rt, "memory");
    let demands = vec![in rt.alloc(); 0; 1_200].expect(&rt, "memory");
    let instance = at_points(rt.alloc(), &points, &demands, 7).expect(&rt, "an instance");
    let found = find_prices(rt.alloc(), &instance, 0, 3, 1_000_000, &Unhurried);
    assert!(rt; found.expect(&rt, "memory").is_none());
}
