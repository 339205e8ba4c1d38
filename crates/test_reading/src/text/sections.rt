//! Files with something missing, and sections of the wrong length.
use crate::text::fixture::{FileChange, MATRIX, SMALL, assert_files_refused};
use vrp_text::Key;
use vrp_text::TextError::{Missing, WrongCount};

// The rows of the small file's sections.
const POINTS: &str = "NODE_COORD_SECTION\n1 0 0\n2 3 4\n3 6 8\n";

const DEMANDS: &str = "DEMAND_SECTION\n1 0\n2 1\n3 1\n";

const MISSING: &[FileChange<'_>] = &[
    (SMALL, SMALL, "", Missing(Key::Problem)),
    (SMALL, "TYPE : CVRP\n", "", Missing(Key::Problem)),
    (SMALL, "DIMENSION : 3\n", "", Missing(Key::Dimension)),
    (SMALL, "CAPACITY : 2\n", "", Missing(Key::Capacity)),
    (
        SMALL,
        "EDGE_WEIGHT_TYPE : EUC_2D\n",
        "",
        Missing(Key::WeightKind),
    ),
    (SMALL, POINTS, "", Missing(Key::NodeCoord)),
    (SMALL, DEMANDS, "", Missing(Key::Demand)),
    (SMALL, "DEPOT_SECTION\n1\n-1\n", "", Missing(Key::Depot)),
    (SMALL, "EUC_2D", "EXPLICIT", Missing(Key::WeightFormat)),
    (
        MATRIX,
        "EDGE_WEIGHT_FORMAT : FULL_MATRIX\n",
        "",
        Missing(Key::WeightFormat),
    ),
    (
        MATRIX,
        "EDGE_WEIGHT_SECTION\n0 1 2\n3 0 4\n5 6 0\n",
        "",
        Missing(Key::EdgeWeight),
    ),
    (MATRIX, "EXPLICIT", "MAN_2D", Missing(Key::NodeCoord)),
    // More than one keyword is missing.
    (
        SMALL,
        "TYPE : CVRP\nDIMENSION : 3\n",
        "",
        Missing(Key::Problem),
    ),
    (
        SMALL,
        "DIMENSION : 3\nEDGE_WEIGHT_TYPE : EUC_2D\nCAPACITY : 2\n",
        "",
        Missing(Key::Dimension),
    ),
    (
        SMALL,
        "EDGE_WEIGHT_TYPE : EUC_2D\nCAPACITY : 2\n",
        "",
        Missing(Key::Capacity),
    ),
    (
        MATRIX,
        "EDGE_WEIGHT_FORMAT : FULL_MATRIX\nEDGE_WEIGHT_SECTION\n0 1 2\n3 0 4\n5 6 0\n",
        "",
        Missing(Key::WeightFormat),
    ),
    (
        SMALL,
        "NODE_COORD_SECTION\n1 0 0\n2 3 4\n3 6 8\nDEMAND_SECTION\n1 0\n2 1\n3 1\n",
        "",
        Missing(Key::NodeCoord),
    ),
    (
        SMALL,
        "DEMAND_SECTION\n1 0\n2 1\n3 1\nDEPOT_SECTION\n1\n-1\n",
        "",
        Missing(Key::Demand),
    ),
    (
        MATRIX,
        "EDGE_WEIGHT_SECTION\n0 1 2\n3 0 4\n5 6 0\nDEMAND_SECTION\n1 0\n2 1\n3 1\n",
        "",
        Missing(Key::EdgeWeight),
    ),
    // Reported before a wrong count.
    (
        SMALL,
        "DEPOT_SECTION\n1\n-1\n",
        "9 9\n",
        Missing(Key::Depot),
    ),
    (
        SMALL,
        "8\nDEMAND_SECTION\n1 0\n2 1\n3 1\n",
        "8 8\n",
        Missing(Key::Demand),
    ),
];

// Something is missing: the first in the order of the keys is reported.
#[test]
fn missing(rt: HostRuntime) {
    assert_files_refused(&rt, rt.alloc(), MISSING);
}

const WRONG_COUNTS: &[FileChange<'_>] = &[
    (
        SMALL,
        "DIMENSION : 3",
        "DIMENSION : 1200",
        WrongCount(Key::NodeCoord),
    ),
    (
        SMALL,
        "DIMENSION : 3",
        "DIMENSION : 2",
        WrongCount(Key::NodeCoord),
    ),
    (SMALL, "3 6 8\n", "", WrongCount(Key::NodeCoord)),
    (SMALL, "3 6 8", "3 6", WrongCount(Key::NodeCoord)),
    (SMALL, "3 6 8", "3 6 8 9", WrongCount(Key::NodeCoord)),
    (SMALL, "\n3 1\n", "\n", WrongCount(Key::Demand)),
    (SMALL, "\n3 1\n", "\n3\n", WrongCount(Key::Demand)),
    (SMALL, "\n3 1\n", "\n3 1\n4 0\n", WrongCount(Key::Demand)),
    (SMALL, "\n1\n-1\n", "\n-1\n", WrongCount(Key::Depot)),
    (SMALL, "\n1\n-1\n", "\n-1\n1\n", WrongCount(Key::Depot)),
    (SMALL, "\n1\n-1\n", "\n", WrongCount(Key::Depot)),
    (MATRIX, "5 6 0", "5 6", WrongCount(Key::EdgeWeight)),
    (MATRIX, "5 6 0", "5 6 0 7", WrongCount(Key::EdgeWeight)),
    (
        MATRIX,
        "FULL_MATRIX",
        "UPPER_ROW",
        WrongCount(Key::EdgeWeight),
    ),
    (
        MATRIX,
        "FULL_MATRIX",
        "LOWER_DIAG_COL",
        WrongCount(Key::EdgeWeight),
    ),
    // More than one count is wrong.
    (
        SMALL,
        "3 6 8\nDEMAND_SECTION\n1 0\n",
        "DEMAND_SECTION\n",
        WrongCount(Key::NodeCoord),
    ),
    (
        SMALL,
        "\n3 1\nDEPOT_SECTION\n1\n",
        "\nDEPOT_SECTION\n",
        WrongCount(Key::Demand),
    ),
    (
        MATRIX,
        "5 6 0\nDEMAND_SECTION\n1 0\n",
        "DEMAND_SECTION\n",
        WrongCount(Key::EdgeWeight),
    ),
    // Reported before bad nodes.
    (
        SMALL,
        "2 3 4\n3 6 8\nDEMAND_SECTION\n1 0\n",
        "9 3 4\n3 6 8\nDEMAND_SECTION\n",
        WrongCount(Key::Demand),
    ),
    (
        SMALL,
        "\n2 1\n3 1\n",
        "\n2 1\n2 1\n3 1\n",
        WrongCount(Key::Demand),
    ),
    (
        SMALL,
        "\n3 1\nDEPOT_SECTION\n1\n",
        "\n9 1\nDEPOT_SECTION\n",
        WrongCount(Key::Depot),
    ),
];

// A section has too many numbers or too few: the first in the order of the keys is reported.
#[test]
fn wrong_counts(rt: HostRuntime) {
    assert_files_refused(&rt, rt.alloc(), WRONG_COUNTS);
}
