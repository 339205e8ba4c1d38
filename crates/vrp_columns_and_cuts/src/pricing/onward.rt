//! What the rest of a route costs at least: q-routes without the 2-cycles that labels remember (Christofides, Mingozzi and Toth 1981).

use crate::pricing::price_table::PriceTable;
use crate::pricing::pricer::RoutePricer;
use std::alloc::Global;
use vrp_model::NoMemory;

// No way home costs so much.
const FAR: i64 = 1 << 61;

// The least cost of a way home, and the least of those that go on to another place next.
#[derive(Clone, Copy, Debug)]
struct OnwardCell {
    least: i64,
    other: i64,
    next: u16,
}

// An arc to a place that may come next.
#[derive(Clone, Copy, Debug)]
struct OnwardArc {
    price: i64,
    next: u16,
    demand: u16,
    // Whether the next place remembers the one before: then no way turns back at once.
    is_remembered: bool,
}

/// For each room, from 0 to the capacity, and each place what the way home costs at least that takes on no more than the room. Rows count
/// for nothing there, and a customer may come twice, but not with one other between that remembers it.
#[derive(Debug, Drop)]
pub struct OnwardTable {
    places: usize,
    cells: Vec<OnwardCell>,
}

impl OnwardTable {
    /// The table of an instance under prices.
    pub fn new(
        alloc: Global,
        pricer: &RoutePricer,
        prices: &PriceTable<'_>,
    ) -> Result<OnwardTable, NoMemory> {
        let arcs = arcs_by_place(alloc, pricer, prices)?;
        let mut table = OnwardTable {
            places: usize::from(pricer.places()),
            cells: Vec::new(alloc),
        };
        for room in 0..pricer.loads() {
            for (place, arcs) in arcs.iter().enumerate() {
                let cell = table.next_cell(arcs, room, place);
                table.cells.push(cell)?;
            }
        }
        Ok(table)
    }

    /// What the way home from a place costs at least, if there is this room.
    #[inline(always)]
    pub fn least(&self, room: u16, place: u16) -> i64 {
        match self.cell(room, place) {
            Some(cell) => cell.least,
            None => FAR,
        }
    }

    #[inline(always)]
    fn cell(&self, room: u16, place: u16) -> Option<OnwardCell> {
        let at = usize::from(room)
            .wrapping_mul(self.places)
            .wrapping_add(usize::from(place));
        self.cells.get(at).copied()
    }

    // The cell of a room and a place, by those of less room.
    fn next_cell(&self, arcs: &[OnwardArc], room: u16, place: usize) -> OnwardCell {
        let mut best = OnwardCell {
            least: FAR,
            other: FAR,
            next: 0,
        };
        for arc in arcs {
            if arc.next == 0 {
                improve(&mut best, 0, arc.price);
            } else if arc.demand <= room {
                if let Some(cell) = self.cell(room - arc.demand, arc.next) {
                    let turns = arc.is_remembered && usize::from(cell.next) == place;
                    let rest = if turns { cell.other } else { cell.least };
                    improve(&mut best, arc.next, rest.wrapping_add(arc.price));
                }
            }
        }
        best
    }
}

// The arcs from each place.
fn arcs_by_place(
    alloc: Global,
    pricer: &RoutePricer,
    prices: &PriceTable<'_>,
) -> Result<Vec<Vec<OnwardArc>>, NoMemory> {
    let mut arcs = Vec::new(alloc);
    for place in 0..pricer.places() {
        arcs.push(arcs_from(alloc, pricer, prices, place)?)?;
    }
    Ok(arcs)
}

// The arcs from a place.
fn arcs_from(
    alloc: Global,
    pricer: &RoutePricer,
    prices: &PriceTable<'_>,
    place: u16,
) -> Result<Vec<OnwardArc>, NoMemory> {
    let mut arcs = Vec::new(alloc);
    for next in prices.followers(place).iter() {
        if next != place {
            arcs.push(OnwardArc {
                price: prices.arc(place, next),
                next,
                demand: pricer.demand(next),
                is_remembered: pricer.masks().bit(next, place) != 0,
            })?;
        }
    }
    Ok(arcs)
}

// Looks at one more place that may come next.
#[inline(always)]
fn improve(best: &mut OnwardCell, next: u16, cost: i64) {
    if cost < best.least {
        best.other = best.least;
        best.least = cost;
        best.next = next;
    } else if cost < best.other {
        best.other = cost;
    }
}
