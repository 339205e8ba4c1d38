//! Colours and dashes that tell the routes of a picture apart, and the sizes of shapes.

// Dark and light colours alternate. In grey no two are alike: their lightness is 13, 62, 26, 54, 34, 69, 39 and 49 of 100.
const COLORS: [&str; 8] = [
    "#14213d", "#d98200", "#7a0c2e", "#2f8f83", "#0b5d34", "#b39be8", "#1f56c4", "#c2502e",
];

/// The colour of this route.
pub(crate) fn color(index: usize) -> &'static str {
    COLORS[index % COLORS.len()]
}

/// The sizes of shapes, in units of the page.
#[derive(Clone, Copy)]
pub(crate) struct Sizes {
    /// The width of a route's line.
    pub(crate) line: i64,
    /// The radius of a customer's dot.
    pub(crate) dot: i64,
    /// Half a side of the depot's square.
    pub(crate) depot: i64,
    /// The size of the letters of a node's number.
    pub(crate) letters: i64,
    // Dash patterns: lengths drawn and left out, alternating; the first is a solid line.
    dashes: [&'static str; 3],
}

impl Sizes {
    /// The sizes for this many customers: the more there are, the smaller.
    pub(crate) fn of(customers: u16) -> Sizes {
        let (line, dot, depot, letters, dashes) = match customers {
            0..=60 => (36, 50, 110, 170, ["none", "220 90", "60 80"]),
            61..=150 => (30, 40, 100, 130, ["none", "180 75", "50 65"]),
            151..=500 => (24, 30, 90, 100, ["none", "150 60", "40 55"]),
            _ => (18, 22, 80, 80, ["none", "110 45", "30 40"]),
        };
        Sizes {
            line,
            dot,
            depot,
            letters,
            dashes,
        }
    }

    /// The dashes of this route. Pairs of colour and dashes repeat after 24 routes.
    pub(crate) fn dashes(self, index: usize) -> &'static str {
        self.dashes[index % self.dashes.len()]
    }
}
