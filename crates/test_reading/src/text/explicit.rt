//! Files that are explicit, and files that are not.
use crate::text::fixture::{FileChange, MATRIX, SMALL, assert_files_refused};
use vrp_text::Key;
use vrp_text::TextError::{BadNumber, BadValue, Missing, NotWhole, Repeated, Unsupported};

const EXPLICIT_FILES: &[FileChange<'_>] = &[
    (MATRIX, "FULL_MATRIX", "FUNCTION", BadValue(6)),
    (MATRIX, "FULL_MATRIX", "", BadValue(6)),
    (
        MATRIX,
        "NAME : M",
        "EDGE_WEIGHT_FORMAT : FUNCTION",
        BadValue(1),
    ),
    (MATRIX, "3 0 4", "3 0 -4", BadNumber(9)),
    (MATRIX, "3 0 4", "3 0 1000000001", BadNumber(9)),
    (MATRIX, "3 0 4", "3 .1 4", NotWhole(9)),
    (MATRIX, "NAME : M", "EDGE_WEIGHT_SECTION\n-1", BadNumber(2)),
    (MATRIX, "EOF", "NODE_COORD_SECTION 1", BadValue(18)),
    (MATRIX, "EOF", "EDGE_WEIGHT_TYPE : EUC_2D", Repeated(18)),
    // The type may come after skipped data.
    (
        SMALL,
        "EDGE_WEIGHT_TYPE : EUC_2D\nCAPACITY : 2",
        "EDGE_WEIGHT_FORMAT : FUNCTION\nDISPLAY_DATA_SECTION\n?\nEDGE_WEIGHT_TYPE : EXPLICIT",
        BadValue(5),
    ),
    (
        SMALL,
        "EUC_2D\nCAPACITY : 2",
        "EXPLICIT\nEDGE_WEIGHT_FORMAT : FUNCTION",
        BadValue(6),
    ),
    // An explicit file's coordinates are ignored, and so are another file's weights.
    (
        SMALL,
        "EUC_2D\nCAPACITY : 2\nNODE_COORD_SECTION\n1 0 0",
        "EXPLICIT\nCAPACITY : 2\nNODE_COORD_SECTION\n1 ? 0",
        Missing(Key::WeightFormat),
    ),
    (
        MATRIX,
        "EXPLICIT\nEDGE_WEIGHT_FORMAT : FULL_MATRIX\nEDGE_WEIGHT_SECTION\n0",
        "ATT\nEDGE_WEIGHT_FORMAT : FUNCTION\nEDGE_WEIGHT_SECTION\n?",
        Missing(Key::NodeCoord),
    ),
    // A faulty first type makes no file explicit, and neither does a second one.
    (
        MATRIX,
        "EXPLICIT\nEDGE_WEIGHT_FORMAT : FULL_MATRIX\n",
        "GEO\nEDGE_WEIGHT_TYPE : EXPLICIT\n",
        Unsupported(5),
    ),
    (
        MATRIX,
        "NAME : M\nTYPE : CVRP",
        "EDGE_WEIGHT_SECTION\n?\nEDGE_WEIGHT_TYPE : ATT",
        Repeated(6),
    ),
    (
        MATRIX,
        "NAME : M\nTYPE : CVRP",
        "EDGE_WEIGHT_SECTION\n?\nEDGE_WEIGHT_TYPE",
        BadValue(3),
    ),
    // Without a type, or with one behind EOF, a file is not explicit.
    (
        MATRIX,
        "EDGE_WEIGHT_TYPE : EXPLICIT\nEDGE_WEIGHT_FORMAT : FULL_MATRIX\nEDGE_WEIGHT_SECTION\n0",
        "EDGE_WEIGHT_FORMAT : FUNCTION\nEDGE_WEIGHT_SECTION\n?",
        Missing(Key::WeightKind),
    ),
    (
        SMALL,
        "EDGE_WEIGHT_TYPE : EUC_2D\nCAPACITY : 2\nNODE_COORD_SECTION\n1 0 0",
        "CAPACITY : 2\nNODE_COORD_SECTION\n1 ? 0",
        BadNumber(7),
    ),
    (
        SMALL,
        SMALL,
        "NODE_COORD_SECTION\n?\nEOF\nEDGE_WEIGHT_TYPE : EXPLICIT",
        BadNumber(2),
    ),
];

// The first EDGE_WEIGHT_TYPE before EOF says whether a file is explicit, wherever it is.
#[test]
fn explicit_files(rt: HostRuntime) {
    assert_files_refused(&rt, rt.alloc(), EXPLICIT_FILES);
}
