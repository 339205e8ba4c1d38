//! The label of endings of routes.
ghost use Rattle.std.specs.Prelude.{◌≡◌};
ghost use Rattle.vrp_labels.specs.Label.{root_label};

use vrp_duals::RowSet;
use vrp_model::CustomerSet;

/// A label of the endings of routes that begin at a customer, or, read from the other side, of the beginnings that end there.
#[derive(Clone, Copy, Debug)]
pub struct Label {
    /// The customers that are remembered.
    pub visited: CustomerSet,
    /// The subset rows in state 1.
    pub rows: RowSet,
    /// In price units.
    pub cost: i64,
    /// In units of demand.
    pub load: u32,
    /// The customer, or the depot's 0 for no stop.
    pub at: u16,
}

impl Label {
    /// The label of no stop.
    pub fn root() -> Label
        ensures { result ≡ root_label }
    {
        Label {
            visited: CustomerSet::empty(),
            rows: RowSet::empty(),
            cost: 0,
            load: 0,
            at: 0,
        }
    }
}
