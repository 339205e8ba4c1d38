//! The least walks home from each place with each load, over arcs that may be negative, and the least tours. Walks have
//! ng-sets.
ghost use Rattle.std.specs.Prelude.{◌≤◌};

use crate::amounts::demand_in_units;
use crate::ascent::cells::{FAR, NO_WALK, WalkCells};
use crate::ascent::growth::Growth;
use crate::ascent::near_looks::{NearLook, NearLooks};
use crate::ascent::size::Size;
use std::alloc::Global;
use vrp_model::{Instance, NoMemory};

/// The tables of one problem with prices, made once and filled in each round: the least walks home and the least tours. Costs
/// are scaled and may be negative; loads and demands are in units. With large prices, sums of costs may wrap.
#[derive(Debug, Drop)]
pub struct Walks {
    places: usize,
    // The demand of each place in units; 0 for the depot.
    demands: Vec<usize>,
    growth: Growth,
    cells: WalkCells,
    // The least tour of each load.
    tour: Vec<i64>,
    // The least tours by their total load.
    tours: Vec<i64>,
}

impl Walks {
    /// Empty tables of this size, for walks with the ng-sets of these looks. The size is that of the instance in this unit,
    /// with these looks, which belong to the same instance. There are no arcs until prices are entered; then an arc's weight
    /// counts `scale` times. The contract leaves the contents open.
    pub fn new(
        alloc: Global,
        instance: &Instance,
        scale: u64,
        unit: u64,
        size: Size,
        looks: NearLooks,
    ) -> Result<Walks, NoMemory>
        requires some { 1 ≤ unit }
    {
        let places = usize::from(instance.customers()) + 1;
        let loads = (size.room as usize).saturating_add(1);
        Ok(Walks {
            places,
            demands: demands(alloc, instance, unit)?,
            cells: WalkCells::new(alloc, loads, looks.masks(), places)?,
            growth: Growth::new(alloc, instance, scale, looks)?,
            tour: vec![in alloc; FAR; loads]?,
            tours: vec![in alloc; FAR; (size.whole as usize).saturating_add(1)]?,
        })
    }

    /// From now on the tables are filled only over the arcs of a sparse graph: those between each place and this many nearest
    /// ones, those of the depot, and those where ng-sets matter. Weights are symmetric. If memory is refused, nothing changes.
    /// The contract leaves the arcs open.
    pub fn keep_nearest(&mut self, alloc: Global, count: usize) -> Result<(), NoMemory> {
        self.growth.keep_nearest(alloc, count)
    }

    /// From now on the tables are filled over all arcs. The contract leaves the arcs open.
    pub fn keep_all(&mut self) {
        self.growth.keep_all();
    }

    /// How many looks along rows of arcs fill the walks of one load; one at an arc of a sparse graph counts for several. The
    /// contract leaves the number open.
    pub fn arcs_looked_at(&self) -> u64 {
        self.growth.arcs_looked_at()
    }

    /// Fills the tables from the arcs that were entered last. Answers the least cost of tours that carry the whole demand;
    /// `None` if no tours do. The contract leaves the cost open.
    pub fn fill(&mut self) -> Option<i64> {
        self.fill_walks();
        self.keep_tours();
        self.join_tours();
        let whole = self.tours.last().copied()?;
        if whole < NO_WALK { Some(whole) } else { None }
    }

    /// Fills the table of the walks from the arcs that were entered last, and leaves the tours unchanged. The contract leaves
    /// the contents open.
    pub fn fill_walks(&mut self) {
        self.growth.mark_near();
        self.cells.begin(self.growth.arcs_home());
        for load in 0..self.tour.len() {
            self.extend_load(load);
        }
    }

    // Extends each walk that carries a load by a place before it.
    fn extend_load(&mut self, load: usize) {
        self.cells.widen(load);
        let (size, most) = (self.cells.of_load(), self.cells.most_row());
        let Some((walks, larger)) = self.cells.split(load) else {
            return;
        };
        let least = walks.get(most..).unwrap_or(&[]);
        for (stop, (&cost, &demand)) in least.iter().zip(&self.demands).enumerate() {
            if stop > 0 && cost < NO_WALK {
                let start = demand.saturating_sub(1).saturating_mul(size);
                if let Some(rows) = larger.get_mut(start..start.saturating_add(size)) {
                    self.growth.extend(walks, stop, cost, rows);
                }
            }
        }
    }

    // Copies the least tours from the depot's cells.
    fn keep_tours(&mut self) {
        for (load, tour) in self.tour.iter_mut().enumerate() {
            *tour = self.cells.cell(load, 0, 0);
        }
    }

    // Computes the least tours for rising loads.
    fn join_tours(&mut self) {
        for rest in 0..self.tours.len() {
            let cost = if rest == 0 {
                0
            } else {
                least_split(&self.tour, &self.tours, rest)
            };
            if let Some(cell) = self.tours.get_mut(rest) {
                *cell = cost;
            }
        }
    }

    // The arcs into a place, and their scaled weights.
    pub(crate) fn arcs_into(&mut self, to: usize) -> Option<(&mut [i64], &[i64])> {
        self.growth.arcs_into(to)
    }

    // The number of places.
    pub(crate) fn places(&self) -> usize {
        self.places
    }

    /// The number of loads, 0 included: one more than the lesser of the whole demand and the capacity. The contract leaves
    /// the number open.
    pub fn loads(&self) -> usize {
        self.tour.len()
    }

    /// The total demand of all customers. The contract leaves the number open.
    pub fn whole(&self) -> usize {
        self.tours.len().saturating_sub(1)
    }

    // The least cost of tours with this total load.
    pub(crate) fn tours_cost(&self, rest: usize) -> i64 {
        at(&self.tours, rest)
    }

    /// The demand of a place; 0 for the depot and for a number that is not a place. The contract leaves the number open.
    pub fn demand(&self, place: usize) -> usize {
        self.demands.get(place).copied().unwrap_or(0)
    }

    /// The cost of the least walk home from a place that carries this load behind it and remembers no more than this ng-set
    /// there. The ng-set is the bits of a number, the lowest for the nearest customer. The answer comes from the last
    /// filling. At the depot, with ng-set 0, it is the least tour of the load. It is at least `NO_WALK` if there is none. The
    /// load is below `loads`, and the ng-set has no more bits than there are near customers. The contract leaves the cost
    /// open.
    pub fn cell(&self, load: usize, place: usize, ng_set: usize) -> i64 {
        self.cells.cell(load, place, ng_set)
    }

    // The greatest ng-set.
    pub(crate) fn most(&self) -> usize {
        self.cells.most()
    }

    // The looks before a stop that take ng-sets into account.
    pub(crate) fn near_looks(&self, stop: usize) -> &[NearLook] {
        self.growth.near_looks(stop)
    }

    // The neighbors of a place, if the tables are filled over a sparse graph.
    pub(crate) fn neighbors(&self, place: usize) -> Option<&[u16]> {
        self.growth.neighbors(place)
    }

    // Whether ng-sets don't matter between a place and the stop after it.
    pub(crate) fn is_far(&self, place: usize, stop: usize) -> bool {
        self.growth.is_far(place, stop)
    }

    // The cost of an arc.
    pub(crate) fn arc(&self, from: usize, to: usize) -> i64 {
        self.growth.arc(from, to)
    }
}

/// The number at a position of a list; 0 past its end.
pub(crate) fn at(values: &[i64], place: usize) -> i64 {
    values.get(place).copied().unwrap_or(0)
}

/// A row of a table that lies row after row, each of this length; empty past its end.
pub(crate) fn row_of(table: &[i64], length: usize, row: usize) -> &[i64] {
    let start = row.saturating_mul(length);
    let end = start.saturating_add(length);
    table.get(start..end).unwrap_or(&[])
}

// The demand of each place in units.
fn demands(alloc: Global, instance: &Instance, unit: u64) -> Result<Vec<usize>, NoMemory>
    requires some { 1 ≤ unit }
{
    let mut demands = Vec::with_capacity(alloc, usize::from(instance.customers()) + 1)?;
    demands.push(0)?;
    for index in 0..instance.customers() {
        demands.push(demand_in_units(instance, unit, index + 1) as usize)?;
    }
    Ok(demands)
}

// The least cost of tours that carry the rest: one tour, plus tours for what it leaves.
fn least_split(tour: &[i64], tours: &[i64], rest: usize) -> i64 {
    let mut least = FAR;
    let most = rest.min(tour.len().saturating_sub(1));
    for load in 1..most.saturating_add(1) {
        let cost = at(tour, load).wrapping_add(at(tours, rest.saturating_sub(load)));
        least = least.min(cost);
    }
    least
}
