//! The ng-sets of the walks in the rounds, and the looks that they take.
ghost use Rattle.std.specs.Prelude.{◌≡◌, ◌≤◌, IfOk};
ghost use Rattle.vrp_model.specs.declared.ng_sets.TheConstants.{MOST_NEAR};
ghost use Rattle.vrp_model.specs.Problem.{place_count};

use crate::ascent::near_looks::NearLooks;
use crate::ascent::size::Size;
use std::alloc::Global;
use vrp_model::{Instance, MOST_NEAR, NgSets, NoMemory};

/// The ng-sets, the looks that follow from them, and the size of the tables.
#[derive(Debug, Drop)]
pub(crate) struct Remembered {
    /// The near customers of each place, and the ng-sets.
    pub(crate) ng_sets: NgSets,
    /// The looks by these ng-sets.
    pub(crate) looks: NearLooks,
    /// The size of the tables with these looks.
    pub(crate) size: Size,
}

impl Remembered {
    /// The ng-sets if this many customers are near each place. The size is that of the instance, without looks.
    pub(crate) fn new(
        alloc: Global,
        instance: &Instance,
        size: Size,
        near: usize,
    ) -> Result<Remembered, NoMemory>
        requires few { near ≤ MOST_NEAR }
        ensures { IfOk result (λ made. made.ng_sets.places ≡ place_count instance.now) }
    {
        let ng_sets = NgSets::nearest(alloc, instance, near)?;
        let looks = NearLooks::new(alloc, instance, &ng_sets)?;
        let size = size.with_looks(looks.count());
        Ok(Remembered {
            ng_sets,
            looks,
            size,
        })
    }
}
