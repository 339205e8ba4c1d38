//! Files that are cut off.
use crate::assertion::assert_same;
use crate::text::fixture::{SMALL, refusal_of};
use vrp_text::TextError::{BadNumber, BadValue, Missing, UnknownKeyword, WrongCount};
use vrp_text::{Key, TextError};

// From this length on, the small file cut off there is refused for this reason, or is not refused.
const REFUSALS: &[(usize, Option<TextError>)] = &[
    (0, Some(Missing(Key::Problem))),
    // NAME : A
    (1, Some(UnknownKeyword(1))),
    (4, Some(Missing(Key::Problem))),
    // COMMENT : three nodes
    (10, Some(UnknownKeyword(2))),
    (16, Some(Missing(Key::Problem))),
    // TYPE : CVRP
    (32, Some(UnknownKeyword(3))),
    (35, Some(BadValue(3))),
    (42, Some(Missing(Key::Dimension))),
    // DIMENSION : 3
    (44, Some(UnknownKeyword(4))),
    (52, Some(BadValue(4))),
    (56, Some(Missing(Key::Capacity))),
    // EDGE_WEIGHT_TYPE : EUC_2D
    (58, Some(UnknownKeyword(5))),
    (73, Some(BadValue(5))),
    (82, Some(Missing(Key::Capacity))),
    // CAPACITY : 2
    (84, Some(UnknownKeyword(6))),
    (91, Some(BadValue(6))),
    (95, Some(Missing(Key::NodeCoord))),
    // NODE_COORD_SECTION and its rows
    (97, Some(UnknownKeyword(7))),
    (114, Some(Missing(Key::Demand))),
    // DEMAND_SECTION and its rows
    (134, Some(UnknownKeyword(11))),
    (147, Some(Missing(Key::Depot))),
    // DEPOT_SECTION
    (161, Some(UnknownKeyword(15))),
    (173, Some(WrongCount(Key::Depot))),
    // 1
    (175, None),
    // -1
    (177, Some(BadNumber(17))),
    (178, None),
    // EOF
    (180, Some(UnknownKeyword(18))),
    (182, None),
];

// The refusal of the small file when it is cut off after this many bytes, if it is refused.
fn refusal_after(length: usize) -> Option<TextError> {
    let mut refusal = None;
    for &(from, row) in REFUSALS {
        if from <= length {
            refusal = row;
        }
    }
    refusal
}

// The file is cut off after each byte in turn.
#[test]
fn cut_after_every_byte(rt: HostRuntime) {
    let bytes = SMALL.as_bytes();
    assert!(rt; bytes.len() == 183);
    for length in 0..184 {
        let refusal = refusal_of(rt.alloc(), &bytes[..length], None);
        assert_same(&rt, refusal, refusal_after(length), length);
    }
}
