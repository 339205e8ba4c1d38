//! Amounts in whole units.

use crate::assertion::assert_same;
use std::alloc::Global;
use std::process::Abort;
use vrp_bound::Quotients;

// A unit, the greatest amount in the table, the size of the table, an amount, and its whole units.
type Counted = (u64, u64, usize, u64, u64);

const QUOTIENTS: &[Counted] = &[
    (1, 100, 0, 99, 99),
    (1, 0, 0, 1_000_000_000_000, 1_000_000_000_000),
    (100, 500, 501, 0, 0),
    (100, 500, 501, 99, 0),
    (100, 500, 501, 499, 4),
    (100, 500, 501, 500, 5),
    (100, 500, 501, 501, 5),
    (100, 500, 501, 1_000_000_000_000, 10_000_000_000),
    (7, 0, 1, 20, 2),
];

#[test]
fn lookup_and_division(rt: HostRuntime) {
    for &counted in QUOTIENTS {
        assert_counted(&rt, rt.alloc(), counted);
    }
}

fn assert_counted(rt: &impl Abort, alloc: Global, counted: Counted) {
    let (unit, most, count, amount, whole) = counted;
    assert!(rt; 1 <= unit && most <= 500);
    let quotients = Quotients::up_to(alloc, unit, most).expect(rt, "memory");
    let found = (quotients.count(), quotients.whole_units(amount));
    assert_same(rt, found, (count, whole), counted);
}
