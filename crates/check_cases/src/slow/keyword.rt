//! The keywords, and what may follow each.

use crate::slow::distance::Metric;
use crate::slow::fault::Wrong;
use crate::slow::layout::Layout;
use crate::slow::lines::{Line, first_with};
use crate::slow::number::whole;

/// The keywords that occur at most once, in the order in which a missing one is reported.
pub(crate) const KEYS: [&str; 9] = [
    "TYPE",
    "DIMENSION",
    "CAPACITY",
    "EDGE_WEIGHT_TYPE",
    "EDGE_WEIGHT_FORMAT",
    "NODE_COORD_SECTION",
    "EDGE_WEIGHT_SECTION",
    "DEMAND_SECTION",
    "DEPOT_SECTION",
];

const SECTIONS: [&str; 5] = [
    "NODE_COORD_SECTION",
    "EDGE_WEIGHT_SECTION",
    "DEMAND_SECTION",
    "DEPOT_SECTION",
    "DISPLAY_DATA_SECTION",
];

const REMARKS: [&str; 4] = ["NAME", "COMMENT", "NODE_COORD_TYPE", "DISPLAY_DATA_TYPE"];

const LEFT_OUT: [&str; 4] = [
    "EDGE_DATA_FORMAT",
    "EDGE_DATA_SECTION",
    "FIXED_EDGES_SECTION",
    "TOUR_SECTION",
];

const TYPES_LEFT_OUT: [&str; 5] = ["TSP", "ATSP", "SOP", "HCP", "TOUR"];

const METRICS_LEFT_OUT: [&str; 7] = [
    "EUC_3D", "MAX_3D", "MAN_3D", "GEO", "XRAY1", "XRAY2", "SPECIAL",
];

const MOST_NODES: i64 = 1_200;

const MOST_CAPACITY: i64 = 1_000_000_000;

fn is_one_of(word: &str, words: &[&str]) -> bool {
    words.iter().any(|other| *other == word)
}

/// Whether a keyword begins a section.
pub(crate) fn is_section(keyword: &str) -> bool {
    is_one_of(keyword, &SECTIONS)
}

/// Whether a file needs a keyword; this depends on whether its weights are listed or follow from points.
pub(crate) fn is_needed(keyword: &str, is_explicit: bool) -> bool {
    match keyword {
        "EDGE_WEIGHT_FORMAT" | "EDGE_WEIGHT_SECTION" => is_explicit,
        "NODE_COORD_SECTION" => !is_explicit,
        _ => true,
    }
}

/// The fault of a keyword's line.
pub(crate) fn fault(lines: &[Line<'_>], line: Line<'_>, is_explicit: bool) -> Option<Wrong> {
    let is_key = is_one_of(line.keyword, &KEYS);
    if is_one_of(line.keyword, &REMARKS) {
        None
    } else if is_one_of(line.keyword, &LEFT_OUT) {
        Some(Wrong::Unsupported)
    } else if !is_key && !is_section(line.keyword) {
        Some(Wrong::UnknownKeyword)
    } else if is_key && is_repeated(lines, line) {
        Some(Wrong::Repeated)
    } else if is_section(line.keyword) {
        bad_value_unless(line.text.is_empty())
    } else {
        value_fault(line.keyword, line.value(), is_explicit)
    }
}

// Whether an earlier line has the line's keyword.
fn is_repeated(lines: &[Line<'_>], line: Line<'_>) -> bool {
    first_with(lines, line.keyword).is_some_and(|first| first.number < line.number)
}

// The fault in the value of a keyword that is not a section's.
fn value_fault(keyword: &str, value: &str, is_explicit: bool) -> Option<Wrong> {
    match keyword {
        "TYPE" if is_one_of(value, &TYPES_LEFT_OUT) => Some(Wrong::Unsupported),
        "TYPE" => bad_value_unless(value == "CVRP"),
        "DIMENSION" => bad_value_unless(whole(value, 1, MOST_NODES).is_ok()),
        "CAPACITY" => bad_value_unless(whole(value, 1, MOST_CAPACITY).is_ok()),
        "EDGE_WEIGHT_TYPE" if is_one_of(value, &METRICS_LEFT_OUT) => Some(Wrong::Unsupported),
        "EDGE_WEIGHT_TYPE" => bad_value_unless(
            value == "EXPLICIT" || Metric::named(value).is_some(),
        ),
        _ => bad_value_unless(
            Layout::named(value).is_some() || (value == "FUNCTION" && !is_explicit),
        ),
    }
}

fn bad_value_unless(is_good: bool) -> Option<Wrong> {
    if is_good { None } else { Some(Wrong::BadValue) }
}
