//! Devex weights: reference weights by which the entering column, or the leaving position, is chosen.
use crate::fixed_point::{ONE, quotient};

/// The weight of a column or position at first.
pub(crate) const LIGHT: u64 = 1 << 16;

/// Weights beyond this are all set back.
pub(crate) const HEAVY: u64 = 1 << 36;

const MOST_RATIO: u64 = 1 << 46;

const MOST_WEIGHT: u128 = 1 << 60;

const MOST_SCORED: i64 = (1 << 28) - 1;

/// A square of a size in relation to a weight.
#[derive(Clone, Copy, Debug)]
pub(crate) struct Score {
    square: u64,
    weight: u64,
}

impl Score {
    /// No score is smaller.
    pub(crate) fn least() -> Score {
        Score {
            square: 0,
            weight: 1,
        }
    }

    /// The score of a size, a value or a reduced cost.
    #[inline(always)]
    pub(crate) fn of(size: i64, weight: u64) -> Score {
        let size = (size >> 12).min(MOST_SCORED).max(0).cast_unsigned();
        let square = size.wrapping_mul(size);
        Score { square, weight }
    }

    /// Whether it is larger.
    #[inline(always)]
    pub(crate) fn beats(self, other: Score) -> bool {
        let left = u128::from(self.square).wrapping_mul(u128::from(other.weight));
        left > u128::from(other.square).wrapping_mul(u128::from(self.weight))
    }
}

/// The weight after a step in which the pivot's weight was `pivot_weight`, where the entry is this multiple of the pivot.
#[inline(always)]
pub(crate) fn heavier(weight: u64, ratio: i64, pivot_weight: u64) -> u64 {
    let ratio = u128::from(ratio.unsigned_abs().min(MOST_RATIO) >> 20);
    let product = ratio
        .wrapping_mul(ratio)
        .wrapping_mul(u128::from(pivot_weight));
    let bounded = (product >> 32).min(MOST_WEIGHT);
    weight.max((bounded & 0xffff_ffff_ffff_ffff) as u64)
}

/// The weight of what leaves for what enters, after a step with this pivot.
pub(crate) fn after_pivot(pivot_weight: u64, pivot: i64) -> u64 {
    heavier(LIGHT, quotient(ONE, pivot), pivot_weight)
}
