//! The least completions of partial plans over some customers of an instance: filled once, then looked up.
ghost use Rattle.std.specs.Prelude.{◌≡◌, ◌≤◌, ◌<◌, All, Contains, IfOk, IfSome, is_some};
ghost use Rattle.std.specs.List.Sorted.{IsStrictlyIncreasing};
ghost use Rattle.vrp_model.specs.Problem.{customers as customers_of, place_count};
ghost use Rattle.vrp_model.specs.Route.{load_of};
ghost use Rattle.vrp_bound.specs.Inner.Filled.{AreCellsOver, AreHeld, IsHeldBound, IsLeastOver};
ghost use Rattle.vrp_bound.specs.Inner.Scaled.{IsOfPlaces, near_with};
ghost use Rattle.vrp_bound.specs.Inner.Scope.{IsScope};

use crate::completion_table::{CompletionTable, Looks, completion_table, least_completion, lookup};
use crate::quotients::Quotients;
use crate::scope::{MOST_STEPS, Scope, are_made, demand_of_all};
use crate::tours::tours;
use crate::units::{UnitScope, demands_in_units, unit_of};
use crate::walks::{MARK, walks};
use std::alloc::Global;
use vrp_model::{Instance, NgSets, NoMemory};

/// Some customers of an instance, and the cells from which the least completions are read.
#[derive(Debug, Drop)]
pub(crate) struct Completions<'a> {
    pub(crate) instance: &'a Instance,
    pub(crate) customers: Vec<u16>,
    // None if the tables would be too large, or a customer has no demand.
    pub(crate) cells: Option<CompletionCells>,
}

// The cells: each is a least cost, or a mark if there is none.
#[derive(Debug, Drop)]
pub(crate) struct CompletionCells {
    // Divides the demand of each customer. Loads, rests and the room are counted in units.
    pub(crate) unit: u64,
    pub(crate) quotients: Quotients,
    // The lesser of the whole demand and the capacity.
    room: u64,
    // By load, then by place.
    walks: Vec<u64>,
    // By the load carried.
    tours: Vec<u64>,
    // By place, room and rest. None if there would be too many cells or a cost is too large; then `walks` and `tours` are
    // searched.
    pub(crate) completion_table: Option<Vec<u32>>,
}

/// How cells are kept.
#[derive(Clone, Copy, Debug, PartialEq)]
pub struct Shape {
    /// The unit that loads and rests are counted in.
    pub unit: u64,
    /// How many amounts have their units in a table; greater ones are divided.
    pub quotients: usize,
    /// Whether there is a completion table.
    pub has_completion_table: bool,
}

impl<'a> Completions<'a> {
    /// Completions over these customers, by rising place, for this many looks.
    pub(crate) fn new(
        alloc: Global,
        instance: &'a Instance,
        customers: &[u16],
        looks: Looks,
    ) -> Result<Completions<'a>, NoMemory>
        requires rising { IsStrictlyIncreasing customers.now }
        requires customers { All (Contains (customers_of instance.now)) customers.now }
        ensures held { IfOk result (λ held. AreHeld held) }
        ensures instance { IfOk result (λ held. held.instance.now ≡ instance.now) }
        ensures customers { IfOk result (λ held. held.customers.items ≡ customers.now) }
    {
        let scope = Scope::new(instance, customers);
        let cells = if are_made(scope, MOST_STEPS) {
            Some(CompletionCells::fill(alloc, scope, None, looks)?)
        } else {
            None
        };
        Ok(Completions {
            instance,
            customers: Vec::from_slice(alloc, customers)?,
            cells,
        })
    }

    /// The least cost of carrying the rest from a place, when the open truck has this load. `None` if nothing carries exactly
    /// the rest; 0 if there are no cells.
    #[inline(always)]
    pub(crate) fn bound(&self, at: u16, load: u64, rest: u64) -> Option<u64>
        requires held { AreHeld self.now }
        requires place { at < place_count self.now.instance.now }
        requires load { load ≤ self.now.instance.now.capacity }
        requires depot { at ≡ 0 → load ≡ 0 }
        requires rest { rest ≤ load_of self.now.instance.now self.now.customers.items }
        ensures bound { IsHeldBound self.now at load rest result }
        ensures small { IfSome result (λ least. least < 4000000000000000000) }
    {
        let Some(cells) = &self.cells else {
            return Some(0);
        };
        let scope = Scope::new(self.instance, self.customers.as_slice());
        let least = cells.least(scope, None, at, load, rest);
        if least < MARK { Some(least) } else { None }
    }

    /// How the cells are kept, if there are any.
    pub(crate) fn shape(&self) -> Option<Shape>
        ensures { is_some result ≡ is_some self.now.cells }
    {
        let Some(cells) = &self.cells else {
            return None;
        };
        Some(Shape {
            unit: cells.unit,
            quotients: cells.quotients.count(),
            has_completion_table: cells.completion_table.is_some(),
        })
    }
}

impl CompletionCells {
    // The cells over customers who demand something each, and not too much together. Walks have these ng-sets, if any.
    pub(crate) fn fill(
        alloc: Global,
        scope: Scope<'_>,
        ng_sets: Option<&NgSets>,
        looks: Looks,
    ) -> Result<CompletionCells, NoMemory>
        requires scope { IsScope scope.instance.now scope.customers.now }
        requires places { IsOfPlaces ng_sets scope.places }
        ensures { IfOk result (λ cells. AreCellsOver scope.entry (near_with ng_sets.entry) cells) }
    {
        let units = UnitScope::new(scope, ng_sets, unit_of(scope));
        let demand = units.whole_units(demand_of_all(scope));
        let room = units.whole_units(scope.instance.capacity()).min(demand);
        let demands = demands_in_units(alloc, units)?;
        let walks = walks(alloc, units, &demands, room)?;
        let tours = tours(alloc, units, &walks, room, demand)?;
        let completion_table = completion_table(looks, alloc, units, &walks, &tours, room)?;
        let quotients = Quotients::up_to(alloc, units.unit, demand_of_all(scope))?;
        Ok(CompletionCells {
            unit: units.unit,
            quotients,
            room,
            walks,
            tours,
            completion_table,
        })
    }

    // The least cost of carrying the rest from a place, or the mark or more if nothing does. The load of every walk is a
    // whole number of units. So nothing carries a rest that is not whole, and the room of the open truck is rounded down. The
    // ng-sets are those of the walks.
    #[inline(always)]
    pub(crate) fn least(
        &self,
        scope: Scope<'_>,
        ng_sets: Option<&NgSets>,
        at: u16,
        load: u64,
        rest: u64,
    ) -> u64
        requires cells { AreCellsOver scope (near_with ng_sets) self.now }
        requires places { IsOfPlaces ng_sets scope.places }
        requires place { at < place_count scope.instance.now }
        requires load { load ≤ scope.instance.now.capacity }
        requires depot { at ≡ 0 → load ≡ 0 }
        requires rest { rest ≤ load_of scope.instance.now scope.customers.now }
        ensures { IsLeastOver scope.entry (near_with ng_sets.entry) at load rest result }
    {
        let units = UnitScope::new(scope, ng_sets, self.unit);
        let carried = self.quotients.whole_units(rest);
        let whole = carried * self.unit;
        if whole != rest {
            return MARK;
        }
        if at == 0 {
            return self.tours[carried as usize];
        }
        let free = self.quotients.whole_units(scope.instance.capacity() - load);
        match &self.completion_table {
            Some(cells) => {
                let table = CompletionTable {
                    cells,
                    tours: &self.tours,
                    room: self.room,
                };
                lookup(units, table, at, free, carried)
            }
            None => least_completion(units, &self.walks, &self.tours, at, free, carried),
        }
    }
}
