//! Common divisors.

use crate::assertion::assert_same;
use vrp_bound::gcd;

// Two numbers and their greatest common divisor.
const DIVISORS: &[(u64, u64, u64)] = &[
    (0, 0, 0),
    (0, 5, 5),
    (5, 0, 5),
    (1, 7, 1),
    (6, 6, 6),
    (12, 18, 6),
    (18, 12, 6),
    (200, 650, 50),
    (8, 9, 1),
    (1_000_000_000, 999_999_999, 1),
    (600_000_000, 1_000_000_000, 200_000_000),
];

#[test]
fn common_divisors(rt: HostRuntime) {
    for &(one, other, divisor) in DIVISORS {
        assert_same(&rt, gcd(one, other), divisor, (one, other));
    }
}
