//! The table of the tours: the least cost of closed walks of one truck each, by their total load.
ghost use Rattle.std.specs.Prelude.{◌≡◌, ◌≤◌, IfOk, length};
ghost use Rattle.vrp_model.specs.Route.{load_of};
ghost use Rattle.vrp_bound.specs.Inner.CompletionCells.{mark};
ghost use Rattle.vrp_bound.specs.Inner.Scaled.{AreToursOver, AreToursOverSoFar, AreWalksOver, IsLeastTours, room_over, scaled};

use crate::units::UnitScope;
use crate::walks::MARK;
use std::alloc::Global;
use vrp_model::NoMemory;

/// The cells, by load, up to the whole demand.
pub(crate) fn tours(
    alloc: Global,
    scope: UnitScope<'_>,
    walks: &[u64],
    room: u64,
    demand: u64,
) -> Result<Vec<u64>, NoMemory>
    requires walks { AreWalksOver scope walks.now }
    requires room { room ≡ room_over scope }
    requires demand { demand ≡ load_of (scaled scope) scope.customers.now }
    ensures { IfOk result (λ cells. AreToursOver scope.entry cells.items) }
{
    let count = demand as usize + 1;
    let mut cells = Vec::with_capacity(alloc, count)?;
    for rest in 0..count {
        let cell = least_tours(scope, walks, &cells, room as usize);
        cells.push_reserved(cell);
    }
    Ok(cells)
}

// The least cost of tours that carry as much as there are cells: over the load of the first tour, plus the tours for the
// rest.
fn least_tours(scope: UnitScope<'_>, walks: &[u64], cells: &[u64], room: usize) -> u64
    requires walks { AreWalksOver scope walks.now }
    requires so_far { AreToursOverSoFar scope cells.now }
    requires room { room ≡ room_over scope }
    requires rest { length cells.now ≤ load_of (scaled scope) scope.customers.now }
    ensures least { IsLeastTours scope.entry (length cells.now) result }
    ensures within { result ≤ mark }
{
    let rest = cells.len();
    if rest == 0 {
        return 0;
    }
    let mut least = MARK;
    for load in 1..room.min(rest) + 1 {
        least = least.min(walks[load * scope.places] + cells[rest - load]);
    }
    least
}
