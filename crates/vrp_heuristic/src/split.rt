//! The split of a giant tour into routes.
ghost use Rattle.std.specs.Prelude.{◌≡◌, ◌<◌, ◌+◌, length};
ghost use Rattle.std.specs.List.{All};
ghost use Rattle.vrp_heuristic.specs.Inner.Tables.{IsPlace, IsPredecessor};
ghost use Rattle.vrp_model.specs.Problem.{place_count};

use std::alloc::Global;
use vrp_model::{Instance, NoMemory};

/// The cheapest routes up to a position of a tour: their cost, and where the last of them begins.
#[derive(Clone, Copy, PartialEq, Eq, PartialOrd, Ord)]
struct Predecessor {
    cost: u64,
    start: usize,
}

/// The word of the cheapest routes that a tour can be cut into (Prins 2004). No clause says that they are.
pub(crate) fn split(alloc: Global, instance: &Instance, tour: &[u16]) -> Result<Vec<u16>, NoMemory>
    requires { All (IsPlace (place_count instance.now)) tour.now }
{
    let mut predecessors = Vec::from_elem(
        alloc,
        Predecessor {
            cost: u64::MAX,
            start: 0,
        },
        tour.len() + 1,
    )?;
    predecessors[0] = Predecessor { cost: 0, start: 0 };
    for start in 0..tour.len() {
        add_routes(instance, tour, start, &mut predecessors);
    }
    let mut starts = Vec::from_elem(alloc, false, tour.len() + 1)?;
    mark_starts(&predecessors, tour.len(), &mut starts);
    word_of(alloc, tour, &starts)
}

// Adds the routes that begin at a position, behind the cheapest routes up to there.
fn add_routes(instance: &Instance, tour: &[u16], start: usize, predecessors: &mut [Predecessor])
    requires tour { All (IsPlace (place_count instance.now)) tour.now }
    requires start { start < length tour.now }
    requires len { length predecessors.old ≡ length tour.now + 1 }
    requires predecessors { All (IsPredecessor (length predecessors.old)) predecessors.old }
    ensures { All (IsPredecessor (length predecessors.old)) predecessors.new }
{
    let mut cost = predecessors[start].cost;
    let mut load: u64 = 0;
    let mut last = 0;
    for end in start..tour.len() {
        let place = tour[end];
        load = load.saturating_add(instance.demand(place));
        if load > instance.capacity() {
            break;
        }
        cost = cost.saturating_add(instance.weight(last, place));
        last = place;
        let here = Predecessor {
            cost: cost.saturating_add(instance.weight(place, 0)),
            start,
        };
        if here.cost < predecessors[end + 1].cost {
            predecessors[end + 1] = here;
        }
    }
}

// Marks the positions at which a route begins, in the cheapest routes up to a position.
fn mark_starts(predecessors: &[Predecessor], last: usize, starts: &mut [bool])
    requires last { last < length predecessors.now }
    requires len { length starts.old ≡ length predecessors.now }
    requires predecessors { All (IsPredecessor (length predecessors.now)) predecessors.now }
{
    let mut at = last;
    for _ in 0..predecessors.len() {
        at = predecessors[at].start;
        starts[at] = true;
    }
}

// The word of a tour whose routes begin at these positions.
fn word_of(alloc: Global, tour: &[u16], starts: &[bool]) -> Result<Vec<u16>, NoMemory>
    requires { length starts.now ≡ length tour.now + 1 }
{
    let mut word = Vec::new(alloc);
    for index in 0..tour.len() {
        if index > 0 && starts[index] {
            word.push(0)?;
        }
        word.push(tour[index])?;
    }
    word.push(0)?;
    Ok(word)
}
