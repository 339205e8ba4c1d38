//! A route of a solution: its number and its stops.
ghost use Rattle.std.specs.Prelude.{◌≡◌, ◌<◌, ◌∷◌, ◌++◌, [], IsTrue, OnOk, length};
ghost use Rattle.vrp_model.specs.Route.{load_of};
ghost use Rattle.vrp_plan_text.specs.Solution.{AreCustomers};
ghost use Rattle.vrp_plan_text.specs.Inner.Ordered.{start_of, turned};
ghost use Rattle.vrp_plan_text.specs.Inner.Served.{AreDifferent};

use std::alloc::AllocError;
use vrp_model::Instance;

/// A route with at least one stop.
#[derive(Drop)]
pub(crate) struct NonemptyRoute {
    /// The route's number in the solution.
    pub(crate) number: u64,
    pub(crate) stops: Vec<u16>,
}

impl NonemptyRoute {
    /// The first stop of the route when it runs forward: in a symmetric instance the lower of its ends. 0 if it has no stops.
    pub(crate) fn start(&self, symmetric: bool) -> u16
        ensures { result ≡ start_of symmetric self.now.stops.items }
    {
        let first = self.stops.first().copied().unwrap_or(0);
        let last = self.stops.last().copied().unwrap_or(0);
        if symmetric { first.min(last) } else { first }
    }

    /// Adds the stops to a word, from the start on, and the arc home.
    pub(crate) fn push_onto(&self, word: &mut Vec<u16>, symmetric: bool) -> Result<(), AllocError>
        ensures { OnOk result (word.new.items
            ≡ word.old.items ++ (turned symmetric self.now.stops.items ++ 0 ∷ [])) }
    {
        let start = word.len();
        word.extend_from_slice(&self.stops)?;
        if self.start(symmetric) != self.stops.first().copied().unwrap_or(0) {
            word.as_mut_slice()[start..].reverse();
        }
        word.push(0)?;
        Ok(())
    }

    /// The total demand of the route's customers.
    pub(crate) fn load(&self, instance: &Instance) -> u64
        requires customers { AreCustomers instance.now self.now.stops.items }
        requires once { AreDifferent self.now.stops.items }
        ensures { result ≡ load_of instance.now self.now.stops.items }
    {
        // The invariant of an instance bounds the number of customers.
        let _customers = instance.customers();
        let mut load = 0;
        for stop in &self.stops {
            load += instance.demand(*stop);
        }
        load
    }
}
