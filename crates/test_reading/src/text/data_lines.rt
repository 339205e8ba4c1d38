//! Files with a faulty data line, and files with more than one fault.
use crate::text::fixture::{Change, SMALL, assert_changes_refused};
use vrp_text::Key;
use vrp_text::TextError::{
    BadNumber, BadValue, DataOutside, NotWhole, UnknownKeyword, Unsupported, WrongCount,
};

const DATA_LINES: &[Change<'_>] = &[
    // Data outside any section.
    ("NAME : A", "5\nNAME : A", DataOutside(1)),
    // A byte order mark is not a blank: it is part of a token.
    ("NAME : A", "\u{feff}NAME : A", DataOutside(1)),
    ("NAME : A", "\n \t\r\n: NAME", DataOutside(3)),
    ("CAPACITY : 2\n", "CAPACITY : 2\n5\n", DataOutside(7)),
    ("EOF", "COMMENT\n1\nEOF", DataOutside(19)),
    ("-1\nEOF", "-1\nDISPLAY_DATA_TYPE\n\n-1\n", DataOutside(20)),
    // Not a numeral.
    ("2 3 4", "2 1000000000000000000 4", BadNumber(9)),
    ("2 3 4", "2 1e19 4", BadNumber(9)),
    ("2 3 4", "2 . 4", BadNumber(9)),
    ("2 3 4", "2 3 e5", BadNumber(9)),
    ("2 3 4", "2 1.2.3 4", BadNumber(9)),
    ("2 3 4", "2 0x1 4", BadNumber(9)),
    ("2 3 4", "2 3, 4", BadNumber(9)),
    ("2 3 4", "2 3,5 4", BadNumber(9)),
    ("\n2 1\n", "\n2 1,0\n", BadNumber(13)),
    ("\n-1\n", "\n-\n", BadNumber(17)),
    ("\n-1\n", "\n-1 x\n", BadNumber(17)),
    ("\n-1\n", "\n-1\n\n--\n", BadNumber(19)),
    // Out of range.
    ("2 3 4", "2 999999999999999999e18 4", BadNumber(9)),
    ("2 3 4", "1000000001 3 4", BadNumber(9)),
    ("2 3 4", "-1000000001 3 4", BadNumber(9)),
    ("3 6 8", "3 6 100000001", BadNumber(10)),
    ("3 6 8", "3 -100000001 8", BadNumber(10)),
    ("\n2 1\n", "\n2 -1\n", BadNumber(13)),
    ("\n2 1\n", "\n2 1000000001\n", BadNumber(13)),
    ("\n2 1\n", "\n-1000000001 1\n", BadNumber(13)),
    ("\n1\n-1\n", "\n1000000001\n-1\n", BadNumber(16)),
    ("\n-1\n", "\n-1\n-1000000001\n", BadNumber(18)),
    // Not whole.
    ("2 3 4", "2 3.5 4", NotWhole(9)),
    ("2 3 4", "2 3 1e-18", NotWhole(9)),
    ("2 3 4", "2.5 3 4", NotWhole(9)),
    ("\n2 1\n", "\n2 .5\n", NotWhole(13)),
    ("\n-1\n", "\n-1.5\n", NotWhole(17)),
    ("\n-1\n", "\n-1\n0.1\n", NotWhole(18)),
    // Behind the last row the kinds of numbers continue in turn.
    ("3 6 8", "3 6 8 1000000001", BadNumber(10)),
    ("3 6 8", "3 6 8 4 100000001", BadNumber(10)),
    ("\n3 1\n", "\n3 1\n4 -1\n", BadNumber(15)),
    ("\n3 1\n", "\n3 1\n4 1 -7\n0\n", WrongCount(Key::Demand)),
];

// The small file with one text replaced is refused for this reason.
#[test]
fn data_lines(rt: HostRuntime) {
    assert_changes_refused(&rt, rt.alloc(), SMALL, DATA_LINES);
}

const FIRST_FAULTS: &[Change<'_>] = &[
    ("2 3 4", "2 3.5 x", NotWhole(9)),
    ("2 3 4", "2 x 3.5", BadNumber(9)),
    ("2 3 4\n3 6 8", "2 3.5 4\n3 x 8", NotWhole(9)),
    (
        "2 3 4\n3 6 8\nDEMAND",
        "2 3 4\n3 x 8\nDEMANDS",
        BadNumber(10),
    ),
    (
        "2\nNODE_COORD_SECTION\n1 0 0",
        "0\nNODE_COORD_SECTION\n1 0 .5",
        BadValue(6),
    ),
    ("NAME : A", "0\nVEHICLES : 2", DataOutside(1)),
    ("NAME : A", "VEHICLES : 2\n0", UnknownKeyword(1)),
    ("NAME : A\nCOMMENT", "TYPE : TSP\nTYPE", Unsupported(1)),
    ("NAME : A\nCOMMENT", "TYPE : VRP\nTYPE", BadValue(1)),
    // Reported before missing keywords.
    ("TYPE : CVRP\nDIMENSION : 3", "DIMENSION : 0", BadValue(3)),
    (SMALL, "0", DataOutside(1)),
    ("DEPOT_SECTION\n1\n-1\n", "eof", UnknownKeyword(15)),
    // Reported before a wrong count, bad nodes and faults of the instance.
    (
        "\n3 1\nDEPOT_SECTION\n1\n",
        "\n3\nDEPOT_SECTION\n?\n",
        BadNumber(16),
    ),
    (
        "\n3 1\nDEPOT_SECTION\n1\n",
        "\n2 1\nDEPOT_SECTION\n.1\n",
        NotWhole(16),
    ),
    (
        "\n3 1\nDEPOT_SECTION\n1\n",
        "\n3 9\nDEPOT_SECTION\n.1\n",
        NotWhole(16),
    ),
];

// The first faulty line, and in it the first faulty token, is reported before all later checks.
#[test]
fn first_faults(rt: HostRuntime) {
    assert_changes_refused(&rt, rt.alloc(), SMALL, FIRST_FAULTS);
}
