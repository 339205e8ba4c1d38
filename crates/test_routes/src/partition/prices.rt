//! Reduced costs and lower bounds by hand, and which prices are refused.

use crate::assertion::assert_same;
use crate::sets::{every_place, set_of};
use std::alloc::Global;
use std::process::Abort;
use vrp_model::PLACES;
use vrp_partition::{
    Cut, PriceOffer, Prices, Route, SCALE, none_negative, reduced_costs, within_gap,
};

// A unit of cost, in units of a price.
const UNIT: i64 = SCALE as i64;

const THREE: &[u16] = &[1, 2, 3];

// Each customer demands 1, and the capacity is 2.
const CAPACITY: u32 = 2;

// A cut: its customers, the count and the price.
type ToldCut = (&'static [u16], u32, u64);

fn cut_of((customers, count, price): ToldCut) -> Cut {
    Cut {
        set: set_of(customers),
        count,
        price,
    }
}

fn offer(
    rt: &impl Abort,
    alloc: Global,
    duals: &[i64],
    subset_rows: &[Cut],
    capacity_cuts: &[Cut],
) -> PriceOffer {
    let mut all = Vec::from_slice(alloc, duals).expect(rt, "memory");
    for _ in duals.len()..PLACES {
        all.push(0).expect(rt, "memory");
    }
    PriceOffer {
        duals: all,
        subset_rows: Vec::from_slice(alloc, subset_rows).expect(rt, "memory"),
        capacity_cuts: Vec::from_slice(alloc, capacity_cuts).expect(rt, "memory"),
        truck_price: 0,
        work: 0,
    }
}

// A route, and its reduced cost in units of cost. Customers 1, 2 and 3 have prices 5, 7 and 8, their triple 2; they need two
// trucks, at a price of 3 for each. So a choice costs at least 20 - 2 + 6 = 24.
const REDUCED: &[(&[u16], u32, i64)] = &[
    (&[], 1, 2),
    (&[1], 10, 3),
    (&[2], 10, 1),
    (&[3], 11, 1),
    (&[1, 2], 13, 1),
    (&[1, 3], 14, 1),
    (&[2, 3], 20, 5),
    (&[1, 2, 3], 21, 1),
    (&[4], 6, 7),
    (&[1, 4], 9, 2),
];

const TRIPLE: ToldCut = (THREE, 0, 2 * SCALE);

const TWO_TRUCKS: ToldCut = (THREE, 2, 3 * SCALE);

#[test]
fn reduced_costs_by_hand(rt: HostRuntime) {
    let (rt, alloc) = (&rt, rt.alloc());
    let duals = [0, 5 * UNIT, 7 * UNIT, 8 * UNIT];
    let mut offer = offer(rt, alloc, &duals, &[cut_of(TRIPLE)], &[cut_of(TWO_TRUCKS)]);
    offer.truck_price = SCALE;
    let prices = Prices::admit(offer, &[1u32; PLACES], CAPACITY, set_of(THREE), 0).expect(
        rt, "prices",
    );
    assert_same(
        rt,
        prices.lower_bound(set_of(THREE), 2),
        i128::from(22 * UNIT),
        "lower bound",
    );
    let mut pool = Vec::new(alloc);
    for &(customers, cost, reduced) in REDUCED {
        let set = set_of(customers);
        assert_same(
            rt,
            prices.reduced_cost(set, cost),
            reduced.saturating_mul(UNIT),
            set,
        );
        pool.push(Route { set, cost }).expect(rt, "memory");
    }
    let costs = reduced_costs(alloc, &prices, &pool).expect(rt, "memory");
    assert_same(rt, none_negative(&costs), true, "none is negative");
    for (gap, kept) in [(7, 10), (5, 9), (2, 7), (1, 5)] {
        let gap = gap * UNIT;
        let at_gap = within_gap(alloc, &prices, &pool, &costs, gap).expect(rt, "memory");
        assert_same(rt, at_gap.len(), kept, gap);
    }
}

// The duals of an offer, how many cuts it has of each kind, and these cuts.
#[derive(Clone, Copy, Debug)]
struct Offered {
    dual: i64,
    subset_rows: usize,
    truck_price: u64,
    subset_row: ToldCut,
    capacity_cuts: usize,
    capacity_cut: ToldCut,
    least_routes: u16,
}

const HIGHEST: u64 = 1 << 50;

const FARTHEST: i64 = 1 << 52;

const GOOD: Offered = Offered {
    dual: -FARTHEST,
    subset_rows: 512,
    truck_price: 0,
    subset_row: (THREE, 0, HIGHEST),
    capacity_cuts: 512,
    capacity_cut: (THREE, 2, HIGHEST),
    least_routes: 0,
};

const ADMITTED: &[(Offered, bool)] = &[
    (
        Offered {
            truck_price: 1 << 50,
            ..GOOD
        },
        true,
    ),
    (
        Offered {
            truck_price: (1 << 50) + 1,
            ..GOOD
        },
        false,
    ),
    (GOOD, true),
    (
        Offered {
            dual: FARTHEST,
            ..GOOD
        },
        true,
    ),
    (
        Offered {
            dual: FARTHEST + 1,
            ..GOOD
        },
        false,
    ),
    (
        Offered {
            dual: -FARTHEST - 1,
            ..GOOD
        },
        false,
    ),
    (
        Offered {
            dual: i64::MIN,
            ..GOOD
        },
        false,
    ),
    (
        Offered {
            subset_rows: 513,
            ..GOOD
        },
        false,
    ),
    (
        Offered {
            capacity_cuts: 513,
            ..GOOD
        },
        false,
    ),
];

// A cut of which a good offer has many: the set, the count, the price, and whether it is admitted.
type Admitted = (&'static [u16], u32, u64, bool);

const SUBSET_ROWS: &[Admitted] = &[
    (THREE, 0, HIGHEST + 1, false),
    (&[0, 1, 2, 3], 0, 1, false),
    (&[255], u32::MAX, 1, true),
];

const CAPACITY_CUTS: &[Admitted] = &[
    (THREE, 2, HIGHEST + 1, false),
    (THREE, 3, 1, false),
    (&[1, 2], 2, 1, false),
    (&[1, 2], 1, 1, true),
    (&[0, 1, 2], 1, 1, false),
    (&[], 1, 1, false),
    (&[], 0, 1, true),
];

// A cut, where each choice in question has at least so many routes: the set, the count, that number, and whether the cut is admitted.
const GRANTED: &[(&[u16], u32, u16, bool)] = &[
    (THREE, 3, 3, true),
    (THREE, 3, 9, true),
    (THREE, 3, 2, false),
    (THREE, 2, 0, true),
    (&[1, 2], 2, 9, false),
    (&[0, 1, 2, 3], 2, 9, false),
];

#[test]
fn prices_that_are_refused(rt: HostRuntime) {
    let (rt, alloc) = (&rt, rt.alloc());
    for &(offered, wanted) in ADMITTED {
        assert_admitted(rt, alloc, offered, wanted);
    }
    for &(customers, count, price, wanted) in SUBSET_ROWS {
        let subset_row = (customers, count, price);
        assert_admitted(rt, alloc, Offered { subset_row, ..GOOD }, wanted);
    }
    for &(customers, count, price, wanted) in CAPACITY_CUTS {
        let capacity_cut = (customers, count, price);
        let offered = Offered {
            capacity_cut,
            ..GOOD
        };
        assert_admitted(rt, alloc, offered, wanted);
    }
    for &(customers, count, least_routes, wanted) in GRANTED {
        let capacity_cut = (customers, count, 1);
        let offered = Offered {
            capacity_cut,
            least_routes,
            ..GOOD
        };
        assert_admitted(rt, alloc, offered, wanted);
    }
    let short = PriceOffer {
        duals: Vec::from_slice(alloc, &[0; 255]).expect(rt, "memory"),
        subset_rows: Vec::new(alloc),
        capacity_cuts: Vec::new(alloc),
        truck_price: 0,
        work: 0,
    };
    let prices = Prices::admit(short, &[1u32; PLACES], CAPACITY, set_of(THREE), 0);
    assert_same(rt, prices.is_some(), false, "255 duals");
}

fn assert_admitted(rt: &impl Abort, alloc: Global, offered: Offered, wanted: bool) {
    let subset_row = cut_of(offered.subset_row);
    let capacity_cut = cut_of(offered.capacity_cut);
    let offer = PriceOffer {
        duals: vec![in alloc; offered.dual; PLACES].expect(rt, "memory"),
        subset_rows: vec![in alloc; subset_row; offered.subset_rows].expect(rt, "memory"),
        capacity_cuts: vec![in alloc; capacity_cut; offered.capacity_cuts].expect(rt, "memory"),
        truck_price: offered.truck_price,
        work: 0,
    };
    let prices = Prices::admit(
        offer,
        &[1u32; PLACES],
        CAPACITY,
        set_of(THREE),
        offered.least_routes,
    );
    assert_same(rt, prices.is_some(), wanted, offered);
}

// The price of each place, the lower bound and the reduced cost of a route with all 256 places that costs 2 ^ 32 - 1. The cuts of each
// kind cost 2 ^ 59 together, and each capacity cut requires 2 ^ 32 - 1 routes.
const AT_THE_LIMITS: &[(i64, i128, i64)] = &[
    (FARTHEST, 1 << 91, (1 << 52) - (1 << 20) - (1 << 60)),
    (
        -FARTHEST,
        (1 << 91) - (1 << 61),
        (1 << 52) - (1 << 20) + (1 << 60),
    ),
];

#[test]
fn prices_at_the_limits(rt: HostRuntime) {
    let (rt, alloc) = (&rt, rt.alloc());
    let every = set_of(&every_place());
    for &(dual, low, reduced) in AT_THE_LIMITS {
        let subset_row = cut_of(GOOD.subset_row);
        let capacity_cut = Cut {
            set: every,
            count: u32::MAX,
            price: HIGHEST,
        };
        let offer = PriceOffer {
            duals: vec![in alloc; dual; PLACES].expect(rt, "memory"),
            subset_rows: vec![in alloc; subset_row; GOOD.subset_rows].expect(rt, "memory"),
            capacity_cuts: vec![in alloc; capacity_cut; GOOD.capacity_cuts].expect(rt, "memory"),
            truck_price: 0,
            work: 0,
        };
        let prices = Prices::admit(offer, &[u32::MAX; PLACES], 1, every, 0).expect(rt, "prices");
        assert_same(rt, prices.lower_bound(every, 128), low, dual);
        assert_same(rt, prices.reduced_cost(every, u32::MAX), reduced, dual);
    }
}
