//! The setting that all moves share.
ghost use Rattle.std.specs.Prelude.{◌≡◌, ◌<◌, IfOk};
ghost use Rattle.vrp_model.specs.Problem.{place_count};

use crate::arcs::Arcs;
use crate::detours::Detours;
use crate::near::Near;
use crate::triangle::obeys_triangle;
use std::alloc::Global;
use std::marker::Model;
use vrp_model::{Instance, NoMemory};

// From this many customers on a customer is put back beside a near place: to look along all routes would take longer than it gains.
const MANY_CUSTOMERS: u16 = 126;

/// An instance, its weights in rows, the near places of each place, and the customers on whose way each lies.
#[derive(Drop)]
pub struct Surroundings<'a> {
    instance: &'a Instance,
    arcs: Arcs,
    near: Near,
    detours: Detours,
    has_many: bool,
    gives_up: bool,
}

impl<'a> Model for Surroundings<'a> {
    ghost use Rattle.std.specs.Prelude.{◌≡◌};
    ghost use Rattle.vrp_model.specs.Problem.{Problem, place_count};

    ghost Value = { Problem };

    ghost view = { λ a. a.instance.now };

    ghost invariant = { λ a.
        (a.arcs ≡ place_count a.instance.now)
        × (a.near ≡ place_count a.instance.now)
        × (a.detours ≡ place_count a.instance.now) };
}

impl<'a> Surroundings<'a> {
    /// The setting of all moves over an instance. The error is lack of memory.
    pub fn new(alloc: Global, instance: &'a Instance) -> Result<Surroundings<'a>, NoMemory>
        ensures { IfOk result (λ setting. setting ≡ instance.now) }
    {
        let arcs = Arcs::new(alloc, instance)?;
        let places = instance.customers() + 1;
        let near = Near::new(alloc, &arcs, places)?;
        let detours = Detours::new(alloc, &arcs, &near, places)?;
        let has_many = instance.customers() >= MANY_CUSTOMERS;
        let gives_up = has_many && obeys_triangle(&arcs, &near, places);
        Ok(Surroundings {
            instance,
            arcs,
            near,
            detours,
            has_many,
            gives_up,
        })
    }

    /// The instance.
    #[inline(always)]
    pub(crate) fn instance(&self) -> &Instance
        ensures { result.now ≡ self.now }
    {
        self.instance
    }

    /// The weights of all arcs.
    #[inline(always)]
    pub(crate) fn arcs(&self) -> &Arcs
        ensures { result.now ≡ place_count self.now }
    {
        &self.arcs
    }

    /// The near places of each place.
    #[inline(always)]
    pub(crate) fn near(&self) -> &Near
        ensures { result.now ≡ place_count self.now }
    {
        &self.near
    }

    /// The customers on whose way each customer lies.
    #[inline(always)]
    pub(crate) fn detours(&self) -> &Detours
        ensures { result.now ≡ place_count self.now }
    {
        &self.detours
    }

    /// Whether there are so many customers that each is put back beside a near place.
    pub(crate) fn has_many(&self) -> bool {
        self.has_many
    }

    /// Whether a move may be given up as soon as its routes cost too much: no customer who is put back then makes them cheaper.
    pub(crate) fn gives_up(&self) -> bool {
        self.gives_up
    }

    /// The most routes of a plan.
    pub(crate) fn trucks(&self) -> u16 {
        match self.instance.trucks() {
            Some(trucks) => trucks,
            None => self.instance.customers(),
        }
    }
}
