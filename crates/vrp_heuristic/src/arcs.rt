//! The weights of all arcs, in rows by start and in rows by end: each loop reads along one row.
ghost use Rattle.std.specs.Prelude.{◌≡◌, ◌<◌, ◌+◌, ◌*◌, IfOk, OnOk, length, vec_len};
ghost use Rattle.vrp_model.specs.Problem.{place_count};

use std::alloc::Global;
use std::marker::Model;
use vrp_model::{Instance, NoMemory};

/// The weights of the arcs between the places of an instance. An arc from a place to itself has weight 0.
#[derive(Drop)]
pub(crate) struct Arcs {
    places: u16,
    // Row by row: from each place, to each place. Unless the instance is symmetric, rows to each place, from each place, follow.
    cells: Vec<u32>,
    // Where the rows by end begin.
    into: usize,
}

impl Model for Arcs {
    ghost use Rattle.std.specs.Prelude.{ℕ, length};
    ghost use Rattle.vrp_heuristic.specs.Inner.Tables.{HasRows};

    // The number of places.
    ghost Value = { ℕ };

    ghost view = { λ a. a.places };

    ghost invariant = { λ a. HasRows a.places a.into (length a.cells.items) };
}

// What the rows of a table are sorted by.
#[derive(Clone, Copy)]
enum Rows {
    ByStart,
    ByEnd,
}

impl Arcs {
    /// The weights of an instance.
    pub(crate) fn new(alloc: Global, instance: &Instance) -> Result<Arcs, NoMemory>
        ensures { IfOk result (λ arcs. arcs ≡ place_count instance.now) }
    {
        let places = instance.customers() + 1;
        let square = usize::from(places) * usize::from(places);
        let into = if instance.symmetric() { 0 } else { square };
        let mut cells = Vec::with_capacity(alloc, square + into)?;
        push_rows(instance, Rows::ByStart, &mut cells)?;
        if into > 0 {
            push_rows(instance, Rows::ByEnd, &mut cells)?;
        }
        Ok(Arcs {
            places,
            cells,
            into,
        })
    }

    /// The weights of the arcs from a place, by end.
    #[inline(always)]
    pub(crate) fn from(&self, place: u16) -> &[u32]
        requires { place < self.now }
        ensures { length result.now ≡ self.now }
    {
        let places = usize::from(self.places);
        let start = usize::from(place) * places;
        &self.cells[start..start + places]
    }

    /// The weights of the arcs to a place, by start.
    #[inline(always)]
    pub(crate) fn into(&self, place: u16) -> &[u32]
        requires { place < self.now }
        ensures { length result.now ≡ self.now }
    {
        let places = usize::from(self.places);
        let start = self.into + usize::from(place) * places;
        &self.cells[start..start + places]
    }

    /// The weight of an arc.
    #[inline(always)]
    pub(crate) fn weight(&self, from: u16, to: u16) -> u32
        requires from { from < self.now }
        requires to { to < self.now }
    {
        self.from(from)[usize::from(to)]
    }
}

// Adds the rows of all places.
fn push_rows(instance: &Instance, rows: Rows, cells: &mut Vec<u32>) -> Result<(), NoMemory>
    ensures { OnOk result (vec_len cells.new ≡ vec_len cells.old + place_count instance.now * place_count instance.now) }
{
    for place in 0..instance.customers() + 1 {
        push_row(instance, rows, place, cells)?;
    }
    Ok(())
}

// Adds the row of a place: the arcs between it and each place.
fn push_row(
    instance: &Instance,
    rows: Rows,
    place: u16,
    cells: &mut Vec<u32>,
) -> Result<(), NoMemory>
    requires { place < place_count instance.now }
    ensures { OnOk result (vec_len cells.new ≡ vec_len cells.old + place_count instance.now) }
{
    for other in 0..instance.customers() + 1 {
        let weight = match rows {
            _ if other == place => 0,
            Rows::ByStart => instance.weight(place, other),
            Rows::ByEnd => instance.weight(other, place),
        };
        cells.push(weight as u32)?;
    }
    Ok(())
}
