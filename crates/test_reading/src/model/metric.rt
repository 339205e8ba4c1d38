//! Distances compared with known values.
use crate::assertion::assert_same;
use vrp_model::Metric;
use vrp_model::Metric::{Att, Ceil2d, Euc2d, Man2d, Max2d};

// The coordinate differences of two points, and the distance: Euclidean, rounded up, and pseudo-Euclidean.
const BY_ROOTS: &[(u8, u8, [u64; 3])] = &[
    (0, 0, [0, 0, 0]),
    (0, 1, [1, 1, 1]),
    (1, 1, [1, 2, 1]),
    (1, 2, [2, 3, 1]),
    (2, 2, [3, 3, 1]),
    (1, 3, [3, 4, 1]),
    (3, 3, [4, 5, 2]),
    (3, 4, [5, 5, 2]),
    (2, 6, [6, 7, 2]),
    (2, 9, [9, 10, 3]),
    (3, 9, [9, 10, 3]),
    (6, 8, [10, 10, 4]),
];

#[test]
fn distances_by_roots(rt: HostRuntime) {
    for &(east, north, distances) in BY_ROOTS {
        let to = (i64::from(east), i64::from(north));
        let found = [
            Euc2d.distance((0, 0), to),
            Ceil2d.distance((0, 0), to),
            Att.distance((0, 0), to),
        ];
        assert_same(&rt, found, distances, to);
    }
}

// From one corner of the range to the farthest one.
#[test]
fn longest_distances(rt: HostRuntime) {
    let corner = (-100_000_000, -100_000_000);
    let opposite = (100_000_000, 100_000_000);
    let found = [
        Euc2d.distance(corner, opposite),
        Ceil2d.distance(corner, opposite),
        Man2d.distance(corner, opposite),
        Max2d.distance(corner, opposite),
        Att.distance(corner, opposite),
    ];
    let distances = [
        282_842_712,
        282_842_713,
        400_000_000,
        200_000_000,
        89_442_720,
    ];
    assert_same(&rt, found, distances, opposite);
}

#[test]
fn distances_along_the_axes(rt: HostRuntime) {
    let found = [
        Man2d.distance((0, 0), (1, 1)),
        Max2d.distance((0, 0), (1, 1)),
        Att.distance((0, 0), (0, 10)),
    ];
    assert_same(&rt, found, [2, 1, 4], "one step, and ten");
}
