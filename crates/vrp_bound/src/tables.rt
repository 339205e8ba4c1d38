//! The tables over some customers of an instance, and their answers.
ghost use Rattle.std.specs.Prelude.{◌≡◌, ◌≤◌, ◌<◌, All, Contains, IfOk, IfSome, MatchOption};
ghost use Rattle.std.specs.List.Sorted.{IsStrictlyIncreasing};
ghost use Rattle.vrp_model.specs.Problem.{customers, place_count};
ghost use Rattle.vrp_model.specs.Route.{load_of};
ghost use Rattle.vrp_bound.specs.Tables.{AreMade, IsBound, tables_over};

use crate::completion_table::Looks;
use crate::completions::{Completions, Shape};
use std::alloc::Global;
use std::marker::Model;
use vrp_model::{Instance, NoMemory};

/// Tables over some customers of an instance that give a lower bound on what is still to pay.
#[derive(Debug, Drop)]
pub struct Tables<'a> {
    completions: Completions<'a>,
}

impl<'a> Model for Tables<'a> {
    ghost use Rattle.vrp_bound.specs.Tables.{TablesOf};
    ghost use Rattle.vrp_bound.specs.Inner.Filled.{AreHeld, tables_held};

    ghost Value = { TablesOf };

    ghost view = { λ a. tables_held a.completions };

    ghost invariant = { λ a. AreHeld a.completions };
}

impl<'a> Tables<'a> {
    /// Tables over these customers, by rising place.
    pub fn build(
        alloc: Global,
        instance: &'a Instance,
        unserved: &[u16],
    ) -> Result<Tables<'a>, NoMemory>
        requires rising { IsStrictlyIncreasing unserved.now }
        requires customers { All (Contains (customers instance.now)) unserved.now }
        ensures { IfOk result (λ made. made ≡ tables_over instance.now unserved.now) }
    {
        let completions = Completions::new(alloc, instance, unserved, Looks::Many)?;
        Ok(Tables { completions })
    }

    /// Tables with the same answers, made in less time and memory; each answer takes longer.
    pub fn for_few_looks(
        alloc: Global,
        instance: &'a Instance,
        unserved: &[u16],
    ) -> Result<Tables<'a>, NoMemory>
        requires rising { IsStrictlyIncreasing unserved.now }
        requires customers { All (Contains (customers instance.now)) unserved.now }
        ensures { IfOk result (λ made. made ≡ tables_over instance.now unserved.now) }
    {
        let completions = Completions::new(alloc, instance, unserved, Looks::Few)?;
        Ok(Tables { completions })
    }

    /// Tables over all customers.
    pub fn over_all(alloc: Global, instance: &'a Instance) -> Result<Tables<'a>, NoMemory>
        ensures { IfOk result (λ made. made ≡ tables_over instance.now (customers instance.now)) }
    {
        let customers = all_customers(alloc, instance)?;
        Tables::build(alloc, instance, &customers)
    }

    /// The least cost of carrying the rest from a place: the walk home of the open truck with this load, if one is out at a
    /// customer, and tours. A walk may visit a customer again, but not twice in a row. `None` if nothing carries exactly the
    /// rest. If a customer has no demand, or the tables would be too large, the answer is 0.
    // Called at each partial plan.
    #[inline(always)]
    pub fn q_bound(&self, at: u16, load: u64, rest: u64) -> Option<u64>
        requires place { at < place_count self.now.problem }
        requires load { load ≤ self.now.problem.capacity }
        requires depot { at ≡ 0 → load ≡ 0 }
        requires rest { rest ≤ load_of self.now.problem self.now.among }
        ensures bound { IsBound self.now.problem self.now.among at load rest result }
        ensures small { IfSome result (λ least. least < 4000000000000000000) }
    {
        self.completions.bound(at, load, rest)
    }

    /// How the tables are kept, if they are made.
    pub fn shape(&self) -> Option<Shape>
        ensures { let made = AreMade self.now.problem self.now.among in
            MatchOption result (made → ⊥) (λ _. made) }
    {
        self.completions.shape()
    }
}

/// All customers, by rising place.
pub(crate) fn all_customers(alloc: Global, instance: &Instance) -> Result<Vec<u16>, NoMemory>
    ensures { IfOk result (λ all. all.items ≡ customers instance.now) }
{
    Ok((1..instance.customers() + 1).collect(alloc)?)
}
