//! The keys: the keywords that a file may have once.
ghost use Rattle.std.specs.Prelude.{Some};
ghost use Rattle.vrp_text.specs.Keyword.{key_text};

use std::fmt;

/// A keyword that a file may have once, in the order of the checks.
#[derive(Clone, Copy, Debug, PartialEq, Eq)]
pub enum Key {
    /// TYPE
    Problem,
    /// DIMENSION
    Dimension,
    /// CAPACITY
    Capacity,
    /// EDGE_WEIGHT_TYPE
    WeightKind,
    /// EDGE_WEIGHT_FORMAT
    WeightFormat,
    /// NODE_COORD_SECTION
    NodeCoord,
    /// EDGE_WEIGHT_SECTION
    EdgeWeight,
    /// DEMAND_SECTION
    Demand,
    /// DEPOT_SECTION
    Depot,
}

impl fmt::Display for Key {
    ghost output = { λ key. Some (key_text key) };

    fn fmt<W: fmt::Write>(&self, f: &mut fmt::Formatter<W>) -> fmt::Result {
        f.write_str(match self {
            Key::Problem => "TYPE",
            Key::Dimension => "DIMENSION",
            Key::Capacity => "CAPACITY",
            Key::WeightKind => "EDGE_WEIGHT_TYPE",
            Key::WeightFormat => "EDGE_WEIGHT_FORMAT",
            Key::NodeCoord => "NODE_COORD_SECTION",
            Key::EdgeWeight => "EDGE_WEIGHT_SECTION",
            Key::Demand => "DEMAND_SECTION",
            Key::Depot => "DEPOT_SECTION",
        })
    }
}
