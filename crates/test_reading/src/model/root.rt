//! Whole square roots.
use crate::assertion::assert_same;
use vrp_model::isqrt;

const ROOTS: &[(u64, u64)] = &[
    (0, 0),
    (1, 1),
    (3, 1),
    (4, 2),
    (80_000_000_000_000_000, 282_842_712),
    (u64::MAX, 4_294_967_295),
];

#[test]
fn roots(rt: HostRuntime) {
    for &(x, root) in ROOTS {
        assert_same(&rt, isqrt(x), root, x);
    }
}
