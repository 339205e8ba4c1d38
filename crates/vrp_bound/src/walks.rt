//! The table of the walks: the least cost of a walk from each place to the depot, by its load.
ghost use Rattle.std.specs.Prelude.{◌≡◌, ◌+◌, ◌*◌, ◌≤◌, ◌<◌, IfOk, length, vec_len, vec_capacity};
ghost use Rattle.vrp_model.specs.Problem.{place_count};
ghost use Rattle.vrp_bound.specs.Inner.CompletionCells.{mark};
ghost use Rattle.vrp_bound.specs.Inner.Scaled.{ArePlainWalks, ArePlainWalksSoFar, AreWalksOver, IsLeastPlainWalk, room_over, scaled};

use crate::ng_scope::NgScope;
use crate::ng_walks::walks_by_ng_set;
use crate::units::UnitScope;
use std::alloc::Global;
use vrp_model::NoMemory;

/// The mark for "no walk" or "no tours": above every cost, and twice it still fits.
pub(crate) const MARK: u64 = 4_000_000_000_000_000_000;

/// The cells, by load and then by place, for loads up to the capacity. `demands` is by place.
pub(crate) fn walks(
    alloc: Global,
    scope: UnitScope<'_>,
    demands: &[u64],
    room: u64,
) -> Result<Vec<u64>, NoMemory>
    requires demands { demands.now ≡ (scaled scope).demands }
    requires room { room ≡ room_over scope }
    ensures { IfOk result (λ cells. AreWalksOver scope.entry cells.items) }
{
    match scope.ng_sets {
        Some(ng_sets) => {
            let scope = NgScope::new(scope, ng_sets, demands);
            walks_by_ng_set(alloc, scope, room)
        }
        None => plain_walks(alloc, scope, demands, room),
    }
}

// The cells of walks that remember only their next stop, by load and then by place.
fn plain_walks(
    alloc: Global,
    scope: UnitScope<'_>,
    demands: &[u64],
    room: u64,
) -> Result<Vec<u64>, NoMemory>
    requires demands { demands.now ≡ (scaled scope).demands }
    requires room { room ≡ room_over scope }
    ensures { IfOk result (λ cells. ArePlainWalks scope.entry cells.items) }
{
    let loads = room as usize + 1;
    let mut cells = Vec::with_capacity(alloc, loads * scope.places)?;
    for load in 0..loads {
        push_row(&mut cells, scope, demands, load);
    }
    Ok(cells)
}

// Adds the cells of a load, after those of smaller loads.
fn push_row(cells: &mut Vec<u64>, scope: UnitScope<'_>, demands: &[u64], load: usize)
    requires demands { demands.now ≡ (scaled scope).demands }
    requires so_far { ArePlainWalksSoFar scope cells.old.items }
    requires next { vec_len cells.old ≡ load * place_count scope.instance.now }
    requires fits { vec_len cells.old + place_count scope.instance.now ≤ vec_capacity cells.old }
    ensures len { vec_len cells.new ≡ vec_len cells.old + place_count scope.entry.instance.now }
    ensures capacity { vec_capacity cells.new ≡ vec_capacity cells.old }
    ensures so_far { ArePlainWalksSoFar scope.entry cells.new.items }
{
    for at in 0..scope.places as u16 {
        let cell = least_walk(scope, demands, cells, load, at);
        cells.push_reserved(cell);
    }
}

// The least cost of a walk from a place with this load: over its first stop, plus the walk from there.
fn least_walk(scope: UnitScope<'_>, demands: &[u64], cells: &[u64], load: usize, at: u16) -> u64
    requires demands { demands.now ≡ (scaled scope).demands }
    requires so_far { ArePlainWalksSoFar scope cells.now }
    requires place { at < place_count scope.instance.now }
    requires next { length cells.now ≡ load * place_count scope.instance.now + at }
    ensures least { IsLeastPlainWalk scope.entry at load result }
    ensures within { result ≤ mark }
{
    if load == 0 {
        return scope.instance.weight(at, 0);
    }
    let mut least = MARK;
    for customer in scope.customers {
        let stop = usize::from(*customer);
        let demand = demands[stop] as usize;
        if *customer != at && demand <= load {
            let behind = cells[(load - demand) * scope.places + stop];
            least = least.min(scope.instance.weight(at, *customer) + behind);
        }
    }
    least
}
