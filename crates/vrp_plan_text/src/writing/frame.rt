//! The drawn part of the plane, and where its points lie on the page.
ghost use Rattle.std.specs.Prelude.{◌≤ℤ◌, pos};

use crate::writing::points::Point;

/// The greatest width and height of the map, in units of the page.
pub(crate) const SIDE: i64 = 9_200;

/// The margin on each side of the map.
pub(crate) const MARGIN: i64 = 400;

/// A part of the plane.
#[derive(Clone, Copy, PartialEq, Eq)]
pub(crate) struct Frame {
    left: i64,
    right: i64,
    bottom: i64,
    top: i64,
}

impl Frame {
    /// The smallest part that has all these points.
    pub(crate) fn around(points: &[Point]) -> Frame {
        let first = points.first().copied().unwrap_or(Point { x: 0, y: 0 });
        let mut frame = Frame {
            left: first.x,
            right: first.x,
            bottom: first.y,
            top: first.y,
        };
        for point in points {
            frame = frame.with(*point);
        }
        frame
    }

    // The smallest part that also has this point.
    fn with(self, point: Point) -> Frame {
        Frame {
            left: self.left.min(point.x),
            right: self.right.max(point.x),
            bottom: self.bottom.min(point.y),
            top: self.top.max(point.y),
        }
    }

    // The longer of its sides, and 1 if all points are the same.
    fn extent(self) -> i64
        ensures { pos 1 ≤ℤ result }
    {
        let wide = self.right.saturating_sub(self.left);
        let high = self.top.saturating_sub(self.bottom);
        wide.max(high).max(1)
    }

    // The length on the page.
    fn scaled(self, length: i64) -> i64 {
        length.saturating_mul(SIDE) / self.extent()
    }

    /// The position of a point on the page, whose y axis points down.
    pub(crate) fn on_page(self, point: Point) -> Point {
        let x = self.scaled(point.x.saturating_sub(self.left));
        let y = self.scaled(self.top.saturating_sub(point.y));
        Point {
            x: x.saturating_add(MARGIN),
            y: y.saturating_add(MARGIN),
        }
    }

    /// The width of the map on the page, with its margins.
    pub(crate) fn width(self) -> i64 {
        self.scaled(self.right.saturating_sub(self.left))
            .saturating_add(2 * MARGIN)
    }

    /// The height of the map on the page, with its margins.
    pub(crate) fn height(self) -> i64 {
        self.scaled(self.top.saturating_sub(self.bottom))
            .saturating_add(2 * MARGIN)
    }
}
