//! Files with a faulty keyword line.
use crate::text::fixture::{Change, SMALL, assert_changes_refused};
use vrp_text::TextError::{BadValue, Repeated, UnknownKeyword, Unsupported};

const KEYWORD_LINES: &[Change<'_>] = &[
    // Not a keyword.
    (
        "CAPACITY : 2\n",
        "CAPACITY : 2\nVEHICLES : 2\n",
        UnknownKeyword(7),
    ),
    ("CAPACITY :", "CAPACITY_ :", UnknownKeyword(6)),
    ("TYPE : CVRP", "Type : CVRP", UnknownKeyword(3)),
    ("2 3 4", "e5 3 4", UnknownKeyword(9)),
    ("EOF", "EOF2", UnknownKeyword(18)),
    // A keyword that is not supported.
    ("EOF", "EDGE_DATA_FORMAT : EDGE_LIST", Unsupported(18)),
    ("EOF", "EDGE_DATA_SECTION", Unsupported(18)),
    ("EOF", "FIXED_EDGES_SECTION 1", Unsupported(18)),
    ("NAME : A", "TOUR_SECTION\nTOUR_SECTION", Unsupported(1)),
    // A repeated keyword, with any text behind it and whether it is used or not.
    (
        "CAPACITY : 2\n",
        "CAPACITY : 2\nCAPACITY : 2\n",
        Repeated(7),
    ),
    ("EOF", "TYPE : TSP", Repeated(18)),
    ("EOF", "DIMENSION", Repeated(18)),
    ("EOF", "EDGE_WEIGHT_TYPE : EXPLICIT", Repeated(18)),
    ("EOF", "NODE_COORD_SECTION", Repeated(18)),
    ("EOF", "DEMAND_SECTION 1", Repeated(18)),
    ("EOF", "DEPOT_SECTION", Repeated(18)),
    (
        "EOF",
        "EDGE_WEIGHT_SECTION\nx\nEDGE_WEIGHT_SECTION",
        UnknownKeyword(19),
    ),
    (
        "EOF",
        "EDGE_WEIGHT_SECTION\n?\nEDGE_WEIGHT_SECTION",
        Repeated(20),
    ),
    (
        "EOF",
        "EDGE_WEIGHT_FORMAT : FUNCTION\nEDGE_WEIGHT_FORMAT : FUNCTION",
        Repeated(19),
    ),
    // A value that is not supported.
    ("CVRP", "TOUR", Unsupported(3)),
    ("EUC_2D", "GEO", Unsupported(5)),
    ("EUC_2D", "EUC_3D 5", Unsupported(5)),
    // A bad value.
    ("CVRP", "", BadValue(3)),
    ("CVRP", "CVRP,", BadValue(3)),
    ("CAPACITY : 2", "CAPACITY : 3,5", BadValue(6)),
    ("DIMENSION : 3", "DIMENSION : 0", BadValue(4)),
    ("DIMENSION : 3", "DIMENSION : 1201", BadValue(4)),
    ("DIMENSION : 3", "DIMENSION : 3.5", BadValue(4)),
    ("EUC_2D", "EUC_2", BadValue(5)),
    ("EUC_2D", ": EUC_2D", BadValue(5)),
    ("CAPACITY : 2", "CAPACITY : 0", BadValue(6)),
    ("CAPACITY : 2", "CAPACITY : 1000000001", BadValue(6)),
    ("CAPACITY : 2", "CAPACITY : 1e19", BadValue(6)),
    ("CAPACITY : 2", "CAPACITY", BadValue(6)),
    ("CAPACITY : 2", "CAPACITY : : 2", BadValue(6)),
    ("CAPACITY : 2", "CAPACITY\n2", BadValue(6)),
    ("EOF", "EDGE_WEIGHT_FORMAT", BadValue(18)),
    ("EOF", "EDGE_WEIGHT_FORMAT : MATRIX", BadValue(18)),
    // Text behind a section's keyword.
    ("NODE_COORD_SECTION", "NODE_COORD_SECTION 3", BadValue(7)),
    ("DEMAND_SECTION", "DEMAND_SECTION : :", BadValue(11)),
    ("DEPOT_SECTION\n1", "DEPOT_SECTION 1", BadValue(15)),
    ("EOF", "EDGE_WEIGHT_SECTION : 1", BadValue(18)),
    ("EOF", "DISPLAY_DATA_SECTION 1", BadValue(18)),
];

// The small file with one text replaced is refused for this reason.
#[test]
fn keyword_lines(rt: HostRuntime) {
    assert_changes_refused(&rt, rt.alloc(), SMALL, KEYWORD_LINES);
}
