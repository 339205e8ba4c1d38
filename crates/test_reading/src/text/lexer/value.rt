//! The meaning of keywords' values.
use crate::assertion::assert_same;
use vrp_model::{Layout, MAX_CAPACITY, MAX_NODES, Metric};
use vrp_text::FileLineFault::{BadValue, Unsupported};
use vrp_text::{
    FileLineFault, WeightFormat, WeightKind, capacity, dimension, problem_type, weight_format,
    weight_kind,
};

// A word, and its meaning.
type Row<T> = (&'static str, Result<T, FileLineFault>);

const PROBLEM_TYPES: &[Row<()>] = &[
    ("CVRP", Ok(())),
    ("TSP", Err(Unsupported)),
    ("ATSP", Err(Unsupported)),
    ("SOP", Err(Unsupported)),
    ("HCP", Err(Unsupported)),
    ("TOUR", Err(Unsupported)),
    ("", Err(BadValue)),
    ("cvrp", Err(BadValue)),
    ("CVRPTW", Err(BadValue)),
    ("VRP", Err(BadValue)),
];

#[test]
fn problem_types(rt: HostRuntime) {
    for &(word, want) in PROBLEM_TYPES {
        assert_same(&rt, problem_type(word.as_bytes()), want, word);
    }
}

const DIMENSIONS: &[Row<u16>] = &[
    ("1", Ok(1)),
    ("+7.0", Ok(7)),
    ("1.2e3", Ok(1200)),
    ("", Err(BadValue)),
    ("0", Err(BadValue)),
    ("-1", Err(BadValue)),
    ("2.5", Err(BadValue)),
    ("1201", Err(BadValue)),
    ("65537", Err(BadValue)),
    ("two", Err(BadValue)),
];

#[test]
fn dimensions(rt: HostRuntime) {
    for &(word, want) in DIMENSIONS {
        assert_same(&rt, dimension(word.as_bytes()), want, word);
    }
}

const CAPACITIES: &[Row<u64>] = &[
    ("1", Ok(1)),
    ("+7.0", Ok(7)),
    ("1e9", Ok(1_000_000_000)),
    ("", Err(BadValue)),
    ("0", Err(BadValue)),
    ("-1", Err(BadValue)),
    ("2.5", Err(BadValue)),
    ("1000000001", Err(BadValue)),
    ("two", Err(BadValue)),
];

#[test]
fn capacities(rt: HostRuntime) {
    for &(word, want) in CAPACITIES {
        assert_same(&rt, capacity(word.as_bytes()), want, word);
    }
}

const WEIGHT_KINDS: &[Row<WeightKind>] = &[
    ("EXPLICIT", Ok(WeightKind::Explicit)),
    ("EUC_2D", Ok(WeightKind::Points(Metric::Euc2d))),
    ("CEIL_2D", Ok(WeightKind::Points(Metric::Ceil2d))),
    ("MAN_2D", Ok(WeightKind::Points(Metric::Man2d))),
    ("MAX_2D", Ok(WeightKind::Points(Metric::Max2d))),
    ("ATT", Ok(WeightKind::Points(Metric::Att))),
    ("EUC_3D", Err(Unsupported)),
    ("MAX_3D", Err(Unsupported)),
    ("MAN_3D", Err(Unsupported)),
    ("GEO", Err(Unsupported)),
    ("XRAY1", Err(Unsupported)),
    ("XRAY2", Err(Unsupported)),
    ("SPECIAL", Err(Unsupported)),
    ("", Err(BadValue)),
    ("euc_2d", Err(BadValue)),
    ("EUC", Err(BadValue)),
    ("EUC_2D_", Err(BadValue)),
    ("EUC_4D", Err(BadValue)),
    ("XRAY3", Err(BadValue)),
];

#[test]
fn weight_kinds(rt: HostRuntime) {
    for &(word, want) in WEIGHT_KINDS {
        assert_same(&rt, weight_kind(word.as_bytes()), want, word);
    }
}

const LAYOUTS: &[(&str, Layout)] = &[
    ("FULL_MATRIX", Layout::FullMatrix),
    ("UPPER_ROW", Layout::UpperRow),
    ("LOWER_ROW", Layout::LowerRow),
    ("UPPER_DIAG_ROW", Layout::UpperDiagRow),
    ("LOWER_DIAG_ROW", Layout::LowerDiagRow),
    ("UPPER_COL", Layout::UpperCol),
    ("LOWER_COL", Layout::LowerCol),
    ("UPPER_DIAG_COL", Layout::UpperDiagCol),
    ("LOWER_DIAG_COL", Layout::LowerDiagCol),
];

// A layout is the same for explicit weights and for other files.
#[test]
fn layouts(rt: HostRuntime) {
    for &(word, layout) in LAYOUTS {
        let want = Ok(WeightFormat::Matrix(layout));
        assert_same(&rt, weight_format(false, word.as_bytes()), want, word);
        assert_same(&rt, weight_format(true, word.as_bytes()), want, word);
    }
}

// Whether the weights are explicit, and a row.
const NO_LAYOUTS: &[(bool, Row<WeightFormat>)] = &[
    (false, ("FUNCTION", Ok(WeightFormat::Function))),
    (true, ("FUNCTION", Err(BadValue))),
    (false, ("", Err(BadValue))),
    (false, ("full_matrix", Err(BadValue))),
    (false, ("MATRIX", Err(BadValue))),
    (false, ("UPPER", Err(BadValue))),
    (false, ("DIAG_ROW", Err(BadValue))),
];

#[test]
fn no_layouts(rt: HostRuntime) {
    for &(explicit, (word, want)) in NO_LAYOUTS {
        assert_same(&rt, weight_format(explicit, word.as_bytes()), want, word);
    }
}
