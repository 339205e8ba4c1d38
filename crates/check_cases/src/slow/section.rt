//! Sections: the data lines under a keyword, and the numbers in them.

use crate::slow::fault::{Fault, Wrong};
use crate::slow::keyword::is_section;
use crate::slow::lines::{Line, tokens};
use crate::slow::number::whole;
use std::alloc::{AllocError, Global};

const MOST_COORDINATE: i64 = 100_000_000;

const MOST: i64 = 1_000_000_000;

// The least and the greatest number allowed in a section after this many others.
fn range(section: &str, behind: usize) -> (i64, i64) {
    match section {
        "NODE_COORD_SECTION" if behind % 3 != 0 => (-MOST_COORDINATE, MOST_COORDINATE),
        "DEMAND_SECTION" if behind % 2 != 0 => (0, MOST),
        "EDGE_WEIGHT_SECTION" => (0, MOST),
        _ => (-MOST, MOST),
    }
}

// Whether the data of a section are skipped.
fn is_skipped(section: &str, is_explicit: bool) -> bool {
    match section {
        "NODE_COORD_SECTION" => is_explicit,
        "EDGE_WEIGHT_SECTION" => !is_explicit,
        "DISPLAY_DATA_SECTION" => true,
        _ => false,
    }
}

/// The fault of a data line.
pub(crate) fn fault(
    alloc: Global,
    lines: &[Line<'_>],
    line: Line<'_>,
    is_explicit: bool,
) -> Result<Option<Wrong>, AllocError> {
    if !is_section(line.keyword) {
        return Ok(Some(Wrong::DataOutside));
    }
    if is_skipped(line.keyword, is_explicit) {
        return Ok(None);
    }
    let mut behind = tokens_before(alloc, lines, line)?;
    for token in tokens(alloc, line.text)? {
        let (low, high) = range(line.keyword, behind);
        if let Err(wrong) = whole(token, low, high) {
            return Ok(Some(wrong));
        }
        behind = behind.saturating_add(1);
    }
    Ok(None)
}

// The number of tokens before this line in its section.
fn tokens_before(alloc: Global, lines: &[Line<'_>], line: Line<'_>) -> Result<usize, AllocError> {
    let mut count = 0usize;
    for other in lines {
        if other.is_data && other.keyword == line.keyword && other.number < line.number {
            count = count.saturating_add(tokens(alloc, other.text)?.len());
        }
    }
    Ok(count)
}

/// The numbers of a section.
pub(crate) fn numbers(alloc: Global, lines: &[Line<'_>], section: &str) -> Result<Vec<i64>, Fault> {
    let mut numbers = Vec::new(alloc);
    for line in lines {
        if line.is_data && line.keyword == section {
            for token in tokens(alloc, line.text)? {
                let number = whole(token, i64::MIN, i64::MAX);
                let number = number.map_err(|wrong| Fault::Line(line.number, wrong))?;
                numbers.push(number).map_err(AllocError::from)?;
            }
        }
    }
    Ok(numbers)
}
