//! The distances of points, each by its defining inequality.

/// The metric of the weight between two points.
#[derive(Clone, Copy, Debug)]
pub(crate) enum Metric {
    Nearest,
    RoundedUp,
    Sum,
    Greater,
    PseudoEuclidean,
}

type Point = (i64, i64);

// The steps of the search for a distance. No distance is as great as ten times the first.
const STEPS: [u128; 9] = [
    100_000_000,
    10_000_000,
    1_000_000,
    100_000,
    10_000,
    1_000,
    100,
    10,
    1,
];

impl Metric {
    /// The metric that a word names.
    pub(crate) fn named(word: &str) -> Option<Metric> {
        match word {
            "EUC_2D" => Some(Metric::Nearest),
            "CEIL_2D" => Some(Metric::RoundedUp),
            "MAN_2D" => Some(Metric::Sum),
            "MAX_2D" => Some(Metric::Greater),
            "ATT" => Some(Metric::PseudoEuclidean),
            _ => None,
        }
    }

    /// The weight between two points: the least number that is not too small.
    pub(crate) fn distance(self, from: Point, to: Point) -> u64 {
        let east = u128::from(from.0.abs_diff(to.0));
        let north = u128::from(from.1.abs_diff(to.1));
        let mut k = 0u128;
        for step in STEPS {
            for _ in 0..10u8 {
                // If the step's last number is too small, all of them are.
                let next = k.saturating_add(step);
                if self.is_too_small(next.saturating_sub(1), east, north) {
                    k = next;
                }
            }
        }
        u64::try_from(k).unwrap_or(u64::MAX)
    }

    // Whether the weight is greater than k, given the differences of the coordinates. With s for the sum of their squares:
    // the nearest number to the distance is the least k with 4 s < (2 k + 1)², the distance rounded up is the least k with s
    // <= k², and the pseudo-Euclidean weight is the least k with s <= 10 k².
    fn is_too_small(self, k: u128, east: u128, north: u128) -> bool {
        let square = east
            .saturating_mul(east)
            .saturating_add(north.saturating_mul(north));
        match self {
            Metric::Nearest => {
                let odd = k.saturating_mul(2).saturating_add(1);
                odd.saturating_mul(odd) <= square.saturating_mul(4)
            }
            Metric::RoundedUp => k.saturating_mul(k) < square,
            Metric::Sum => k < east.saturating_add(north),
            Metric::Greater => k < east || k < north,
            Metric::PseudoEuclidean => k.saturating_mul(k).saturating_mul(10) < square,
        }
    }
}

/// Whether the metrics of the command agree with these on the points of a small square.
pub(crate) fn agree_on_a_square() -> bool {
    let pairs = [
        (Metric::Nearest, vrp_model::Metric::Euc2d),
        (Metric::RoundedUp, vrp_model::Metric::Ceil2d),
        (Metric::Sum, vrp_model::Metric::Man2d),
        (Metric::Greater, vrp_model::Metric::Max2d),
        (Metric::PseudoEuclidean, vrp_model::Metric::Att),
    ];
    for (slow, proved) in pairs {
        for east in 0..60u8 {
            if !agree_on_a_column(slow, proved, east) {
                return false;
            }
        }
    }
    true
}

fn agree_on_a_column(slow: Metric, proved: vrp_model::Metric, east: u8) -> bool {
    for north in 0..60u8 {
        let to = (i64::from(east), i64::from(north));
        if proved.distance((0, 0), to) != slow.distance((0, 0), to) {
            return false;
        }
    }
    true
}
