//! The number of entries of each layout.
use crate::assertion::assert_same;
use vrp_model::Layout;

const STRICT: [usize; 3] = [0, 3, 6];

const DIAGONAL: [usize; 3] = [1, 6, 10];

const ENTRIES: &[(Layout, [usize; 3])] = &[
    (Layout::FullMatrix, [1, 9, 16]),
    (Layout::UpperRow, STRICT),
    (Layout::LowerRow, STRICT),
    (Layout::UpperCol, STRICT),
    (Layout::LowerCol, STRICT),
    (Layout::UpperDiagRow, DIAGONAL),
    (Layout::LowerDiagRow, DIAGONAL),
    (Layout::UpperDiagCol, DIAGONAL),
    (Layout::LowerDiagCol, DIAGONAL),
];

#[test]
fn entries_of_one_three_and_four_nodes(rt: HostRuntime) {
    for &(layout, entries) in ENTRIES {
        let found = [layout.entries(1), layout.entries(3), layout.entries(4)];
        assert_same(&rt, found, entries, layout);
    }
}
