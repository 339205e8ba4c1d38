//! The amount to add per unit of demand so that no arc is negative.
use crate::ascent::walks::Walks;

impl Walks {
    /// The least number such that no entered arc is negative once the number is added to it for each unit that its two ends
    /// demand together. 0 if no arc is negative. The contract leaves the number open.
    pub fn least_lift(&self) -> i64 {
        let mut lift = 0;
        for to in 0..self.places() {
            lift = self.lift_into(to).max(lift);
        }
        lift
    }

    // The least lift for the arcs into a place.
    fn lift_into(&self, to: usize) -> i64 {
        let mut lift = 0;
        for from in 0..self.places() {
            let units = self.demand(from).saturating_add(self.demand(to));
            lift = lift.max(lift_of(self.arc(from, to), units));
        }
        lift
    }
}

// The least lift for an arc between places that together demand this many units.
fn lift_of(arc: i64, units: usize) -> i64 {
    let units = i64::try_from(units).unwrap_or(i64::MAX).max(1);
    let short = arc.saturating_neg().max(0);
    short.saturating_add(units.saturating_sub(1)) / units
}
