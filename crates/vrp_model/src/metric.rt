//! The weight between two points, from their coordinates.
ghost use Rattle.std.specs.Prelude.{◌≡◌, ℕ, ◌≤◌};
ghost use Rattle.vrp_model.specs.Distance.{IsCeiling, IsEuclidean, IsPseudoEuclidean};
ghost use Rattle.vrp_model.specs.Grid.{IsCoordinate};

use crate::root::isqrt;

/// A distance function of TSPLIB 95.
#[derive(Clone, Copy, Debug, PartialEq, Eq)]
pub enum Metric {
    /// `EUC_2D`: the straight line, to the nearest whole number.
    Euc2d,
    /// `CEIL_2D`: the straight line, rounded up.
    Ceil2d,
    /// `MAN_2D`: the sum of the coordinates' differences.
    Man2d,
    /// `MAX_2D`: the greater of the coordinates' differences.
    Max2d,
    /// `ATT`: the pseudo-Euclidean distance, the root of a tenth of the square, rounded up.
    Att,
}

impl Metric {
    ghost use Rattle.vrp_model.specs.Distance.{IsDistance};

    /// The weight of the arc between two points, whose coordinates are at most 100,000,000 from 0.
    pub fn distance(self, from: (i64, i64), to: (i64, i64)) -> u64
        requires from_east { IsCoordinate from.0 }
        requires from_north { IsCoordinate from.1 }
        requires to_east { IsCoordinate to.0 }
        requires to_north { IsCoordinate to.1 }
        ensures distance { IsDistance self from to result }
        // No other number is the distance.
        ensures only { (other : ℕ) → IsDistance self from to other → other ≡ result }
        ensures small { result ≤ 400000000 }
    {
        let east = from.0.abs_diff(to.0);
        let north = from.1.abs_diff(to.1);
        let square = east * east + north * north;
        match self {
            Metric::Euc2d => nearest_root(square),
            Metric::Ceil2d => ceiling_root(square),
            Metric::Man2d => east + north,
            Metric::Max2d => east.max(north),
            Metric::Att => pseudo_root(square),
        }
    }
}

// The whole number nearest to the square root.
fn nearest_root(square: u64) -> u64
    ensures { IsEuclidean square result }
{
    let root = isqrt(square);
    if square - root * root > root {
        root + 1
    } else {
        root
    }
}

// The square root, rounded up.
fn ceiling_root(square: u64) -> u64
    ensures { IsCeiling square result }
{
    let root = isqrt(square);
    if root * root < square { root + 1 } else { root }
}

// The square root of a tenth, rounded up.
fn pseudo_root(square: u64) -> u64
    ensures { IsPseudoEuclidean square result }
{
    ceiling_root(square.div_ceil(10))
}
