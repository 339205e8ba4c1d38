//! The parts of instances of five places.

/// The arcs of a full matrix, with a different weight for each reverse arc.
pub(crate) const ONE_DIRECTION: &[u64] = &[
    0, 3, 9, 4, 5, 8, 0, 2, 7, 6, 5, 6, 0, 1, 4, 9, 3, 8, 0, 2, 4, 4, 7, 3, 0,
];

/// All arcs cost the same, so that the order of symbols decides.
pub(crate) const LEVEL: &[u64] = &[
    0, 1, 1, 1, 1, 1, 0, 1, 1, 1, 1, 1, 0, 1, 1, 1, 1, 1, 0, 1, 1, 1, 1, 1, 0,
];

/// The demands of the places and the capacity: tight and loose, and with demands of 0.
pub(crate) const DEMANDS: &[([u64; 5], u64)] = &[
    ([0, 1, 2, 1, 2], 3),
    ([0, 3, 5, 4, 2], 9),
    ([0, 3, 5, 4, 2], 20),
    ([0, 0, 2, 0, 1], 2),
    ([0, 0, 0, 0, 0], 0),
    ([0, 7, 9, 1, 3], 10),
];
