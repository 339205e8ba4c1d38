//! The scope of tables of ng-walks: some customers of an instance, in their unit, and the ng-sets of the walks.
ghost use Rattle.std.specs.Prelude.{◌≡◌, ◌^◌, ◌≤◌};
ghost use Rattle.vrp_bound.specs.Inner.Scaled.{scaled};

use crate::units::UnitScope;
use vrp_model::NgSets;

/// Some customers of an instance, and the ng-sets of walks through them.
#[derive(Clone, Copy)]
pub(crate) struct NgScope<'a> {
    pub(crate) units: UnitScope<'a>,
    pub(crate) ng_sets: &'a NgSets,
    // In units, by place.
    pub(crate) demands: &'a [u64],
    // The number of ng-sets at a place.
    pub(crate) masks: usize,
    ghost of_places: { ng_sets.now.places ≡ units.places },
    ghost amounts: { demands.now ≡ (scaled units).demands },
    ghost bits: { masks ≡ 2 ^ ng_sets.now.size },
    ghost some: { 1 ≤ masks },
    ghost few: { masks ≤ 16 },
}

impl<'a> NgScope<'a> {
    /// The scope of these customers, whose demands are by place.
    pub(crate) fn new(units: UnitScope<'a>, ng_sets: &'a NgSets, demands: &'a [u64]) -> NgScope<'a>
        requires places { ng_sets.now.places ≡ units.places }
        requires demands { demands.now ≡ (scaled units).demands }
        ensures units { result.units ≡ units.entry }
        ensures ng_sets { result.ng_sets.now ≡ ng_sets.entry.now }
    {
        NgScope {
            units,
            ng_sets,
            demands,
            masks: ng_sets.masks(),
        }
    }
}
