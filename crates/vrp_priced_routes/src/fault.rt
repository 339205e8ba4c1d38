//! Why a pass is refused.

/// Why a pass is refused.
#[derive(Clone, Copy, Debug, PartialEq, Eq)]
pub enum PassFault {
    /// Not every feasible plan in the range obeys each entry row, as far as `EntryRow::is_needed_for` tells.
    EntryRow,
    /// There isn't one ng-set for each place.
    NearSets,
    /// In units of demand the capacity is more than `MAX_UNITS`.
    Demands,
    /// The limit is more than 2 ^ 61 price units above the lower bound, or some route may cost so much below 0.
    Gap,
}
