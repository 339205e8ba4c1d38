//! The costs of the words of small instances in their relaxations, by hand and by trying every word.
ghost use Rattle.std.specs.Prelude.{All};
ghost use Rattle.vrp_bound_prices.specs.CapacityCut.{IsCut};

use crate::assertion::assert_same;
use std::alloc::Global;
use std::process::Abort;
use test_fixtures::{FOUR, LINE, at_points, with_arcs};
use vrp_bound_prices::{CapacityCut, Relaxation};
use vrp_model::{Instance, NO_COST, NgSets};

// A partial plan: its last place, the customers that it serves, as bits, the number of unserved ones, and its loads and
// costs.
#[derive(Clone, Copy, Debug, Default)]
struct Prefix {
    at: u16,
    served: u32,
    left: u16,
    load: u64,
    cost: u64,
    relaxed_load: u64,
    relaxed_cost: u64,
}

const ONE_DIRECTION: &[u64] = &[0, 3, 9, 4, 8, 0, 2, 7, 5, 6, 0, 1, 9, 3, 8, 0];

const DEMANDS: &[([u64; 4], u64)] = &[
    ([0, 1, 2, 1], 3),
    ([0, 3, 5, 4], 9),
    ([0, 3, 5, 4], 5),
    ([0, 0, 2, 0], 2),
    ([0, 0, 0, 0], 0),
    ([0, 700, 900, 100], 1_000),
];

const UNITS: &[u64] = &[1, 2, 3, 100, 1_000_000_000];

const CUT_PRICES: &[u64] = &[1, 30];

const PRICES: &[[i64; 4]] = &[
    [0, 0, 0, 0],
    [0, 12, -5, 3],
    [-900, -20, 30, 0],
    [7, 100, 200, 300],
];

#[test]
fn every_word_costs_at_least_its_bound(rt: HostRuntime) {
    let mut words = 0u64;
    for (demands, capacity) in DEMANDS {
        let near = at_points(rt.alloc(), FOUR, demands, *capacity).expect(&rt, "an instance");
        words = words.saturating_add(words_of_all(&rt, rt.alloc(), &near));
        let far = with_arcs(rt.alloc(), ONE_DIRECTION, demands, *capacity).expect(
            &rt,
            "an instance",
        );
        words = words.saturating_add(words_of_all(&rt, rt.alloc(), &far));
        let few = far.with_trucks(2);
        words = words.saturating_add(words_of_all(&rt, rt.alloc(), &few));
    }
    assert!(rt; words > 5_000);
}

// With each unit and all prices, and with a cut for each set of customers.
fn words_of_all(rt: &impl Abort, alloc: Global, instance: &Instance) -> u64 {
    words_by_prices(rt, alloc, instance).saturating_add(words_by_cuts(rt, alloc, instance))
}

fn words_by_prices(rt: &impl Abort, alloc: Global, instance: &Instance) -> u64 {
    let mut words = 0u64;
    for &unit in UNITS {
        for prices in PRICES {
            let made = relaxed(rt, alloc, instance, (10, unit), prices, &[]);
            words = words.saturating_add(words_of(rt, made));
        }
    }
    words
}

fn words_by_cuts(rt: &impl Abort, alloc: Global, instance: &Instance) -> u64 {
    let mut words = 0u64;
    for set in 0..8u8 {
        for &cut_price in CUT_PRICES {
            let cuts = [
                cut(rt, alloc, instance, set, cut_price),
                cut(rt, alloc, instance, 5, 2),
            ];
            let made = relaxed(rt, alloc, instance, (10, 1), &[0, 50, 50, 50], &cuts);
            words = words.saturating_add(words_of(rt, made));
        }
    }
    words
}

// The cut of a set of customers, given as bits.
fn cut(rt: &impl Abort, alloc: Global, instance: &Instance, set: u8, cut_price: u64) -> CapacityCut
    ensures { IsCut instance.now result }
{
    let places = usize::from(instance.customers()) + 1;
    let inside = marks(rt, alloc, places, set);
    assert!(rt; inside.len() == places && cut_price <= 1_000);
    CapacityCut::new(instance, inside, cut_price)
}

fn marks(rt: &impl Abort, alloc: Global, places: usize, set: u8) -> Vec<bool> {
    let mut inside = vec![in alloc; false; places].expect(rt, "memory");
    for customer in 1..4u8 {
        if let Some(mark) = inside.get_mut(usize::from(customer)) {
            *mark = set >> (customer - 1) & 1 == 1;
        }
    }
    inside
}

// The number of feasible words, if there is a relaxation.
fn words_of(rt: &impl Abort, made: Option<Relaxation<'_>>) -> u64 {
    let Some(relaxation) = made else {
        return 0;
    };
    let prefix = Prefix {
        left: relaxation.problem().customers(),
        ..Prefix::default()
    };
    words_under(rt, &relaxation, prefix, 20)
}

// The number of words that continue a partial plan with at most this many symbols. Each is feasible in the relaxation, and its
// cost there bounds its cost.
fn words_under(rt: &impl Abort, relaxation: &Relaxation<'_>, prefix: Prefix, steps: u16) -> u64 {
    let room = relaxation.relaxed().capacity();
    assert_same(rt, prefix.relaxed_load <= room, true, prefix);
    if steps == 0 {
        return 0;
    }
    if prefix.at == 0 && prefix.left == 0 {
        assert_bounded(rt, relaxation, prefix);
        return 1;
    }
    let mut words = 0u64;
    if prefix.at != 0 {
        words = words_under(rt, relaxation, after(relaxation, prefix, 0), steps - 1);
    }
    for customer in 1..relaxation.problem().customers() + 1 {
        let child = after(relaxation, prefix, customer);
        let serves = customer < 32 && prefix.served >> customer & 1 == 0;
        if serves && child.load <= relaxation.problem().capacity() {
            words = words.saturating_add(words_under(rt, relaxation, child, steps - 1));
        }
    }
    words
}

fn assert_bounded(rt: &impl Abort, relaxation: &Relaxation<'_>, prefix: Prefix) {
    assert!(rt; prefix.relaxed_cost < 4_000_000_000_000_000_000);
    let bound = relaxation.lower_bound_by(prefix.relaxed_cost);
    assert_same(rt, bound.rounded_up() <= prefix.cost, true, prefix);
}

// The partial plan with one more symbol.
fn after(relaxation: &Relaxation<'_>, prefix: Prefix, symbol: u16) -> Prefix {
    let (problem, relaxed) = (relaxation.problem(), relaxation.relaxed());
    let last = problem.customers().min(relaxed.customers());
    let (from, to) = (prefix.at.min(last), symbol.min(last));
    let (load, relaxed_load) = if to == 0 {
        (0, 0)
    } else {
        (prefix.load, prefix.relaxed_load)
    };
    Prefix {
        at: to,
        served: prefix.served | 1 << to.min(31),
        left: prefix.left.saturating_sub(u16::from(to > 0)),
        load: load.saturating_add(problem.demand(to)),
        cost: prefix.cost.saturating_add(problem.weight(from, to)),
        relaxed_load: relaxed_load.saturating_add(relaxed.demand(to)),
        relaxed_cost: prefix.relaxed_cost.saturating_add(relaxed.weight(from, to)),
    }
}

// The relaxation by this scale, unit, prices and cuts, if there is one.
fn relaxed<'a>(
    rt: &impl Abort,
    alloc: Global,
    instance: &'a Instance,
    scale_and_unit: (u64, u64),
    prices: &[i64],
    cuts: &[CapacityCut],
) -> Option<Relaxation<'a>>
    requires { All (IsCut instance.now) cuts.now }
{
    let (scale, unit) = scale_and_unit;
    assert!(rt; 1 <= scale && scale <= 1_000 && 1 <= unit && cuts.len() <= 100);
    assert!(rt; prices.len() == usize::from(instance.customers()) + 1);
    Relaxation::new(alloc, instance, scale, unit, prices, cuts).expect(rt, "memory")
}

// Three nodes on a line.
fn three_nodes(rt: &impl Abort, alloc: Global, demands: &[u64], capacity: u64) -> Instance {
    at_points(alloc, LINE, demands, capacity).expect(rt, "an instance")
}

const PRICED_ARCS: &[(u16, u16, u64)] = &[
    (0, 1, 57),
    (1, 0, 57),
    (0, 2, 97),
    (1, 2, 54),
    (2, 1, 54),
];

// Costs in the relaxation, and what a plan that costs no less there costs at least, in hundredths.
const BOUNDS_WITH_CHARGES: &[(u64, u64)] = &[
    (0, 0),
    (8, 0),
    (9, 10),
    (208, 2_000),
    (209, 2_010),
    (40_000_000_000_008, 100 * NO_COST),
    (40_000_000_000_018, 100 * NO_COST),
];

const BOUNDS_WITH_REBATES: &[(u64, u64)] = &[(0, 80), (2, 100), (3, 110)];

const BOUNDS_IN_THIRDS: &[(u64, u64)] = &[(9, 300), (10, 334), (11, 367), (12, 400)];

#[test]
fn values_on_three_nodes(rt: HostRuntime) {
    let (rt, alloc) = (&rt, rt.alloc());
    let instance = three_nodes(rt, alloc, &[0, 1, 1], 2);
    let charged = relaxed(rt, alloc, &instance, (10, 1), &[0, 7, -3], &[]);
    let charged = charged.expect(rt, "a relaxation");
    assert_same(rt, charged.scale(), 10, "the scale");
    assert_arcs(rt, charged.relaxed(), 2, PRICED_ARCS);
    assert_bounds(rt, &charged, BOUNDS_WITH_CHARGES);
    // The least tour serves both customers, and costs 57, 54 and 97.
    assert_tours_bound(rt, alloc, &charged, Some(2_000));
    let rebated = relaxed(rt, alloc, &instance, (10, 1), &[0, -7, 3], &[]);
    let rebated = rebated.expect(rt, "a relaxation");
    assert_bounds(rt, &rebated, BOUNDS_WITH_REBATES);
    let thirds = relaxed(rt, alloc, &instance, (3, 1), &[0, 0, 0], &[]);
    assert_bounds(rt, &thirds.expect(rt, "a relaxation"), BOUNDS_IN_THIRDS);
}

fn assert_bounds(rt: &impl Abort, relaxation: &Relaxation<'_>, bounds: &[(u64, u64)]) {
    for &(least, hundredths) in bounds {
        assert!(rt; least < 4_000_000_000_000_000_000);
        let bound = relaxation.lower_bound_by(least);
        assert_same(rt, bound.hundredths, hundredths, least);
        assert_same(rt, bound.rounded_up(), hundredths.div_ceil(100), least);
    }
}

// What every plan costs at least, in hundredths, by walks that remember nobody.
fn assert_tours_bound(
    rt: &impl Abort,
    alloc: Global,
    relaxation: &Relaxation<'_>,
    hundredths: Option<u64>,
) {
    let ng_sets = NgSets::nearest(alloc, relaxation.problem(), 0).expect(rt, "memory");
    let bound = relaxation
        .lower_bound(alloc, &ng_sets, 1_000)
        .expect(rt, "memory");
    assert_same(rt, bound.map(|bound| bound.hundredths), hundredths, "tours");
}

fn assert_arcs(rt: &impl Abort, instance: &Instance, customers: u16, arcs: &[(u16, u16, u64)]) {
    assert!(rt; instance.customers() == customers);
    for &(from, to, weight) in arcs {
        assert!(rt; from <= customers && to <= customers);
        assert_same(rt, instance.weight(from, to), weight, (from, to));
    }
}

// A set of customers, the capacity, the arcs from the depot to each and between them, and the highest cost in the relaxation
// of a plan of cost 0.
type PricedCut = (u8, u64, [u64; 3], u64);

const PRICED_CUTS: &[PricedCut] = &[
    (0, 2, [50, 100, 50], 40),
    (1, 2, [47, 100, 47], 34),
    (2, 2, [50, 97, 47], 34),
    (3, 2, [47, 97, 50], 34),
    (3, 1, [47, 97, 50], 28),
    (2, 1, [50, 97, 47], 34),
];

#[test]
fn cut_prices_on_three_nodes(rt: HostRuntime) {
    for &priced_cuts in PRICED_CUTS {
        assert_priced_cut(&rt, rt.alloc(), priced_cuts);
    }
}

fn assert_priced_cut(rt: &impl Abort, alloc: Global, priced_cuts: PricedCut) {
    let (set, capacity, [first, second, between], most) = priced_cuts;
    let instance = three_nodes(rt, alloc, &[0, 1, 1], capacity);
    let cuts = [cut(rt, alloc, &instance, set, 3)];
    let made = relaxed(rt, alloc, &instance, (10, 1), &[0, 10, 10], &cuts);
    let relaxation = made.expect(rt, "a relaxation");
    let arcs = [
        (0, 1, first.saturating_add(10)),
        (0, 2, second.saturating_add(10)),
        (2, 1, between.saturating_add(20)),
    ];
    assert_arcs(rt, relaxation.relaxed(), 2, &arcs);
    let more = most.saturating_add(1);
    assert_bounds(rt, &relaxation, &[(most, 0), (more, 10)]);
}

// A set of customers, a cut price, and whether there is a relaxation.
const ENDS_OF_CUT_PRICES: &[(u8, u64, bool)] = &[
    (1, 5, true),
    (1, 6, false),
    (2, 5, true),
    (2, 6, false),
    (3, 5, true),
    (3, 6, false),
    (0, 1_000, true),
];

#[test]
fn cut_prices_at_their_ends(rt: HostRuntime) {
    let instance = three_nodes(&rt, rt.alloc(), &[0, 1, 1], 2);
    for &(set, cut_price, is_made) in ENDS_OF_CUT_PRICES {
        let cuts = [cut(&rt, rt.alloc(), &instance, set, cut_price)];
        let made = relaxed(&rt, rt.alloc(), &instance, (1, 1), &[0, 0, 0], &cuts);
        assert_same(&rt, made.is_some(), is_made, (set, cut_price));
    }
}

// Prices, and whether there is a relaxation.
const ENDS_OF_PRICES: &[([i64; 3], bool)] = &[
    ([0, -5, 0], true),
    ([0, -6, 0], false),
    ([0, -5, -1], false),
    ([0, 999_999_995, 0], true),
    ([0, 999_999_996, 0], false),
    ([0, 0, 999_999_990], true),
    ([0, 0, 999_999_991], false),
    ([0, i64::MAX, i64::MAX], false),
    ([i64::MIN, i64::MIN, 0], false),
];

#[test]
fn prices_at_their_ends(rt: HostRuntime) {
    let instance = three_nodes(&rt, rt.alloc(), &[0, 1, 1], 2);
    for &(prices, is_made) in ENDS_OF_PRICES {
        let made = relaxed(&rt, rt.alloc(), &instance, (1, 1), &prices, &[]);
        assert_same(&rt, made.is_some(), is_made, prices);
    }
}

// The demands of the places, the capacity, a unit, the customers' demands in units, and the capacity in units.
type Counted = ([u64; 3], u64, u64, [u64; 2], u64);

const COUNTED: &[Counted] = &[
    ([0, 0, 5], 5, 1, [1, 5], 6),
    ([0, 0, 5], 5, 2, [1, 2], 3),
    ([0, 3, 5], 5, 2, [1, 2], 2),
    ([0, 3, 5], 5, 10, [1, 1], 2),
    ([0, 9, 5], 1_000_000_000, 1, [9, 5], 1_000_000_000),
];

#[test]
fn demands_in_units(rt: HostRuntime) {
    for &counted in COUNTED {
        assert_counted(&rt, rt.alloc(), counted);
    }
    let instance = three_nodes(&rt, rt.alloc(), &[0, 0, 5], 1_000_000_000);
    let made = relaxed(&rt, rt.alloc(), &instance, (1, 1), &[0, 0, 0], &[]);
    assert!(rt; made.is_none());
}

fn assert_counted(rt: &impl Abort, alloc: Global, counted: Counted) {
    let (demands, capacity, unit, units, room) = counted;
    let instance = three_nodes(rt, alloc, &demands, capacity);
    let made = relaxed(rt, alloc, &instance, (1, unit), &[0, 0, 0], &[]);
    let relaxation = made.expect(rt, "a relaxation");
    let priced = relaxation.relaxed();
    assert!(rt; priced.customers() == 2);
    assert_same(rt, [priced.demand(1), priced.demand(2)], units, unit);
    assert_same(rt, priced.capacity(), room, unit);
}

// Nothing is paid up to the charges: 500,000,000 on each of the two arcs of 1,199 customers.
const BOUNDS_OF_THE_MOST_NODES: &[(u64, u64)] = &[(1_199_000_000_000, 0), (1_199_000_000_001, 100)];

#[test]
fn the_most_nodes(rt: HostRuntime) {
    let instance = most_nodes(&rt, rt.alloc());
    let relaxation = charged(&rt, rt.alloc(), &instance, &[]);
    assert_bounds(&rt, &relaxation, BOUNDS_OF_THE_MOST_NODES);
    // No tables are made over customers without demand.
    assert_tours_bound(&rt, rt.alloc(), &relaxation, None);
}

// 1,200 nodes in one place, whose customers demand nothing.
fn most_nodes(rt: &impl Abort, alloc: Global) -> Instance {
    let points = vec![in alloc; (0, 0); 1_200].expect(rt, "memory");
    let demands = vec![in alloc; 0; 1_200].expect(rt, "memory");
    at_points(alloc, &points, &demands, 7).expect(rt, "an instance")
}

// The relaxation by these cuts, and the same price for each of this many nodes.
fn charged<'a>(
    rt: &impl Abort,
    alloc: Global,
    instance: &'a Instance,
    cuts: &[CapacityCut],
) -> Relaxation<'a>
    requires { All (IsCut instance.now) cuts.now }
{
    let prices = vec![in alloc; 500_000_000; 1_200].expect(rt, "memory");
    let made = relaxed(rt, alloc, instance, (1, 1), &prices, cuts);
    made.expect(rt, "a relaxation")
}

// The set of all customers has only arcs to and from the depot, and customers without demand need no truck.
#[test]
fn a_cut_of_the_most_customers(rt: HostRuntime) {
    let instance = most_nodes(&rt, rt.alloc());
    let cuts = [cut_of_all(&rt, rt.alloc(), &instance)];
    let relaxation = charged(&rt, rt.alloc(), &instance, &cuts);
    let arcs = [(0, 1_199, 499_999_000), (1, 1_199, 1_000_000_000)];
    assert_arcs(&rt, relaxation.relaxed(), 1_199, &arcs);
    assert_bounds(&rt, &relaxation, BOUNDS_OF_THE_MOST_NODES);
}

// The cut of all customers, none of whom has a demand.
fn cut_of_all(rt: &impl Abort, alloc: Global, instance: &Instance) -> CapacityCut
    ensures { IsCut instance.now result }
{
    let places = usize::from(instance.customers()) + 1;
    let inside = vec![in alloc; true; places].expect(rt, "memory");
    let cut = CapacityCut::new(instance, inside, 1_000);
    assert_same(rt, cut.trucks(), 0, "trucks");
    cut
}
