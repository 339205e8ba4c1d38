//! The positions of the route list and the caption on a page.
ghost use Rattle.std.specs.Prelude.{◌≤◌, ◌≤ℤ◌, pos};

use crate::writing::frame::{Frame, MARGIN};
use crate::writing::points::Point;

/// The size of the list's letters, in units of the page.
pub(crate) const LIST_LETTERS: i64 = 200;

/// The size of the caption's letters.
pub(crate) const CAPTION_LETTERS: i64 = 280;

/// The length of the sample line before each route of the list.
pub(crate) const SAMPLE: i64 = 600;

/// The space between a route's sample line and its text.
pub(crate) const SPACE: i64 = 100;

// The distance between lines of the list.
const STEP: i64 = 320;

/// The layout of a page.
#[derive(Clone, Copy, PartialEq, Eq)]
pub(crate) struct PageLayout {
    /// The width of the page.
    pub(crate) width: i64,
    /// The height of the page.
    pub(crate) height: i64,
    // Where the list begins.
    list: Point,
    // The number of routes in each column of the list.
    rows: usize,
    // The distance between these columns.
    column: i64,
}

impl PageLayout {
    /// The layout of a page with a list of this many routes, whose longest text and whose caption have this many letters. The
    /// list is beside the map if that is high enough, and otherwise below it, in as many columns as fit.
    pub(crate) fn around(map: Frame, routes: usize, longest: usize, caption: usize) -> PageLayout {
        let written = text_width(caption, CAPTION_LETTERS).saturating_add(2 * MARGIN);
        let layout = if routes == 0 {
            PageLayout::without_list(map)
        } else if signed(routes).saturating_mul(STEP) <= map.height().saturating_sub(2 * MARGIN) {
            PageLayout::beside(map, routes, longest)
        } else {
            PageLayout::below(map, routes, longest)
        };
        PageLayout {
            width: layout.width.max(written),
            ..layout
        }
    }

    // The map alone.
    fn without_list(map: Frame) -> PageLayout {
        PageLayout {
            width: map.width(),
            height: map.height().saturating_add(MARGIN),
            list: Point { x: 0, y: 0 },
            rows: 0,
            column: 0,
        }
    }

    // With the list beside the map.
    fn beside(map: Frame, routes: usize, longest: usize) -> PageLayout {
        let column = column_width(longest);
        PageLayout {
            width: map.width().saturating_add(column),
            height: map.height().saturating_add(MARGIN),
            list: Point {
                x: map.width(),
                y: MARGIN,
            },
            rows: routes,
            column,
        }
    }

    // With the list below the map.
    fn below(map: Frame, routes: usize, longest: usize) -> PageLayout {
        let column = column_width(longest);
        let columns = columns(map.width().saturating_sub(MARGIN), column);
        let rows = routes.div_ceil(columns);
        let list = signed(rows).saturating_add(1).saturating_mul(STEP);
        PageLayout {
            width: signed(columns)
                .saturating_mul(column)
                .saturating_add(MARGIN)
                .max(map.width()),
            height: map.height().saturating_add(list).saturating_add(MARGIN),
            list: Point {
                x: MARGIN,
                y: map.height(),
            },
            rows,
            column,
        }
    }

    /// Where the list entry of this route begins.
    pub(crate) fn listed(self, index: usize) -> Point {
        let rows = self.rows.max(1);
        let x = signed(index / rows).saturating_mul(self.column);
        let y = signed(index % rows).saturating_mul(STEP);
        Point {
            x: self.list.x.saturating_add(x),
            y: self.list.y.saturating_add(y),
        }
    }

    /// Where the caption begins.
    pub(crate) fn caption(self) -> Point {
        Point {
            x: MARGIN,
            y: self.height.saturating_sub(MARGIN - SPACE),
        }
    }
}

// The width of a column of the list, with the space behind it, when its longest text has this many letters.
fn column_width(longest: usize) -> i64
    ensures { pos 1 ≤ℤ result }
{
    text_width(longest, LIST_LETTERS)
        .saturating_add(SAMPLE + SPACE + MARGIN)
        .max(1)
}

// How many columns of this width fit, at least one.
fn columns(room: i64, column: i64) -> usize
    requires { pos 1 ≤ℤ column }
    ensures { 1 ≤ result }
{
    usize::try_from(room / column).unwrap_or(1).max(1)
}

// An upper bound on the width of a text. On average its letters are at most three fifths of their size wide.
fn text_width(letters: usize, size: i64) -> i64 {
    signed(letters).saturating_mul(size) / 5 * 3
}

// A count as a length.
fn signed(count: usize) -> i64 {
    i64::try_from(count).unwrap_or(i64::MAX)
}
