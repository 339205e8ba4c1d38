//! The ratio tests, in two passes (Harris): the first finds the shortest step with a tolerance, the second the largest pivot within it.
use crate::entries::Table;
use crate::fixed_point::{ONE, UNIT, wide_product};
use crate::shortlist::Candidate;
use crate::simplex::LEAST_PIVOT;

// The tolerance of values, and that of reduced costs.
const VALUE_TOLERANCE: i64 = ONE >> 22;

const COST_TOLERANCE: i64 = UNIT >> 15;

// The shortest step so far, as a quotient.
#[derive(Clone, Copy, Debug)]
struct Ratio {
    upper: i64,
    lower: i64,
}

impl Ratio {
    // No step is as long.
    fn endless() -> Ratio {
        Ratio { upper: 1, lower: 0 }
    }

    #[inline(always)]
    fn shorten(&mut self, upper: i64, lower: i64) {
        if wide_product(upper, self.lower) < wide_product(self.upper, lower) {
            *self = Ratio { upper, lower };
        }
    }

    #[inline(always)]
    fn allows(&self, upper: i64, lower: i64) -> bool {
        wide_product(upper, self.lower) <= wide_product(self.upper, lower)
    }
}

/// The position whose value reaches 0 first when a column enters in this direction.
pub(crate) fn leaving_position(values: &[i64], direction: &Table) -> Option<u16> {
    let mut bound = Ratio::endless();
    for (&value, &entry) in values.iter().zip(direction.iter()) {
        if entry > LEAST_PIVOT {
            bound.shorten(value.max(0).wrapping_add(VALUE_TOLERANCE), entry);
        }
    }
    let mut best = None;
    let mut largest = LEAST_PIVOT;
    for (position, (&value, &entry)) in (0u16..).zip(values.iter().zip(direction.iter())) {
        if entry > largest && bound.allows(value.max(0), entry) {
            largest = entry;
            best = Some(position);
        }
    }
    best
}

/// The column whose reduced cost reaches 0 first, by its entry in the pivot row.
pub(crate) fn entering_candidate(candidates: &[Candidate]) -> Option<usize> {
    let mut bound = Ratio::endless();
    for candidate in candidates {
        if candidate.entry > LEAST_PIVOT {
            let upper = candidate.reduced.max(0).wrapping_add(COST_TOLERANCE);
            bound.shorten(upper, candidate.entry);
        }
    }
    let mut best = None;
    let mut largest = LEAST_PIVOT;
    for (index, candidate) in candidates.iter().enumerate() {
        let is_allowed = bound.allows(candidate.reduced.max(0), candidate.entry);
        if candidate.entry > largest && is_allowed {
            largest = candidate.entry;
            best = Some(index);
        }
    }
    best
}
