//! The greater of the two bounds, by hand.

use crate::assertion::assert_same;
use crate::bound::over::Over;
use std::alloc::Global;
use std::process::Abort;
use test_fixtures::{LINE, at_points};
use vrp_bound::bound;

// The second customer is farther out on the line.
const FAR: &[(i64, i64)] = &[(0, 0), (3, 4), (30, 40)];

// A place, a load, the sum of the least arcs in, a rest, how many routes may still be opened, and the answer.
type Asked = (u16, u64, u64, u64, Option<u16>, Option<u64>);

const TWO_CUSTOMERS: &[(&[(i64, i64)], [u64; 3], Asked)] = &[
    (LINE, [0, 1, 1], (0, 0, 10, 2, None, Some(20))),
    (LINE, [0, 1, 1], (1, 1, 5, 1, None, Some(15))),
    (LINE, [0, 2, 2], (0, 0, 10, 4, None, Some(20))),
    (LINE, [0, 2, 2], (0, 0, 10, 1, None, None)),
    (LINE, [0, 2, 2], (1, 2, 5, 2, None, Some(15))),
    // the capacity bound is the greater: both tours go to the near customer
    (FAR, [0, 1, 1], (0, 0, 50, 2, None, Some(55))),
    // no tables
    (LINE, [0, 0, 1], (0, 0, 10, 1, None, Some(15))),
];

#[test]
fn bounds_of_two_customers(rt: HostRuntime) {
    for &(points, demands, asked) in TWO_CUSTOMERS {
        assert_answer(&rt, rt.alloc(), points, demands, asked);
    }
}

const SO_MANY_TRUCKS: &[([u64; 3], Asked)] = &[
    // at the depot: too few trucks, exactly enough, more than enough
    ([0, 1, 1], (0, 0, 10, 2, Some(0), None)),
    ([0, 1, 1], (0, 0, 10, 2, Some(1), Some(20))),
    ([0, 1, 1], (0, 0, 10, 2, Some(65_535), Some(20))),
    ([0, 2, 2], (0, 0, 10, 4, Some(1), None)),
    ([0, 2, 2], (0, 0, 10, 4, Some(2), Some(20))),
    // enough, but nothing carries exactly the rest
    ([0, 2, 2], (0, 0, 10, 1, Some(1), None)),
    // at a customer, the room on the current truck counts
    ([0, 1, 1], (1, 1, 5, 1, Some(0), Some(15))),
    ([0, 1, 1], (1, 2, 5, 1, Some(0), None)),
    ([0, 1, 1], (1, 2, 5, 1, Some(1), Some(15))),
    ([0, 2, 2], (1, 2, 5, 2, Some(0), None)),
    ([0, 2, 2], (1, 2, 5, 2, Some(1), Some(15))),
    ([0, 1, 2], (1, 1, 5, 2, Some(0), None)),
    ([0, 1, 2], (1, 1, 5, 2, Some(1), Some(25))),
    ([0, 1, 2], (1, 1, 10, 3, Some(0), None)),
    ([0, 1, 2], (1, 1, 10, 3, Some(1), Some(35))),
    // nothing is left
    ([0, 1, 1], (0, 0, 0, 0, Some(0), Some(0))),
    ([0, 1, 1], (2, 2, 0, 0, Some(0), Some(10))),
    // the remaining customer demands nothing
    ([0, 0, 1], (0, 0, 5, 0, Some(0), Some(5))),
    // no tables
    ([0, 0, 1], (0, 0, 10, 1, Some(0), None)),
    ([0, 0, 1], (0, 0, 10, 1, Some(1), Some(15))),
    ([0, 0, 1], (1, 0, 5, 1, Some(0), Some(10))),
    ([0, 0, 1], (1, 2, 5, 1, Some(0), None)),
];

#[test]
fn bounds_with_so_many_trucks(rt: HostRuntime) {
    for &(demands, asked) in SO_MANY_TRUCKS {
        assert_answer(&rt, rt.alloc(), LINE, demands, asked);
    }
}

fn assert_answer(
    rt: &impl Abort,
    alloc: Global,
    points: &[(i64, i64)],
    demands: [u64; 3],
    asked: Asked,
) {
    let instance = at_points(alloc, points, &demands, 2).expect(rt, "an instance");
    let over = Over::these(rt, alloc, &instance, &[1, 2]);
    assert_bound(rt, &over, asked);
}

fn assert_bound(rt: &impl Abort, over: &Over<'_>, asked: Asked) {
    let (at, load, inbound_sum, rest, left, answer) = asked;
    let instance = over.instance;
    assert!(rt; at <= instance.customers() && load <= instance.capacity());
    assert!(rt; (at != 0 || load == 0) && inbound_sum <= 50);
    assert!(rt; rest <= over.demand && rest <= instance.whole_demand());
    let found = bound(&over.tables, instance, at, load, inbound_sum, rest, left);
    assert_same(rt, found, answer, (at, load, rest, left));
}
