//! The data that all workers share.
ghost use Rattle.std.specs.Prelude.{◌≡◌, ◌⊎◌, ◌*◌, ◌-◌, ◌^◌, ◌≤◌, IsTrue, min};
ghost use Rattle.std.specs.Option.{ForSome, option_map};
ghost use Rattle.vrp_model.specs.Cheapest.{cost_of};
ghost use Rattle.vrp_model.specs.Route.{IsPlanOf};

use crate::gates::Gate;
use crate::resources::Resources;
use std::alloc::Global;
use std::marker::Model;
use vrp_bound::Tables;
use vrp_model::{Instance, Plan, plans_cost_less};

/// The search and what was prepared for it, the budget of each piece, the number of pieces, and the gate that hears of each.
/// Public for the crates of vrp_solver alone.
#[derive(Drop)]
pub struct Shared<'a, R, G: Gate> {
    /// Starts threads, and waits for them.
    pub rt: &'a R,
    pub alloc: Global,
    pub instance: &'a Instance,
    /// The tables over all customers.
    pub tables: &'a Tables<'a>,
    /// The plan that is offered before the search.
    pub start_plan: Option<&'a Plan>,
    /// The number of pieces.
    pub pieces: u32,
    /// The budget of each piece, at least 1.
    pub budget: u64,
    /// The gate, which hears of the search and may stop it.
    pub gate: &'a G,
}

impl<'a, R, G: Gate> Model for Shared<'a, R, G> {
    ghost use Rattle.std.specs.Prelude.{◌≡◌, ◌≤◌};
    ghost use Rattle.std.specs.Option.{ForSome, option_map};
    ghost use Rattle.vrp_model.specs.Problem.{customers};
    ghost use Rattle.vrp_model.specs.Route.{IsPlanOf};
    ghost use Rattle.vrp_answer.specs.Outcomes.{Search};

    ghost Value = { Search };

    ghost view = { λ s. record {
      problem = s.instance.now;
      start_plan = option_map (λ plan. plan.now) s.start_plan;
      pieces = s.pieces;
      budget = s.budget;
      may_stop = G.may_stop s.gate.now;
    } };

    ghost invariant = { λ s.
        (s.tables.now ≡ record { problem = s.instance.now; among = customers s.instance.now })
        × (1 ≤ s.budget)
        × ForSome (option_map (λ plan. plan.now) s.start_plan) (IsPlanOf s.instance.now) };
}

impl<'a, R, G: Gate> Shared<'a, R, G> {
    ghost use Rattle.vrp_model.specs.Problem.{customers};

    /// A search of an instance, with its tables over all customers.
    pub fn new(
        resources: &Resources<'a, R, G>,
        instance: &'a Instance,
        tables: &'a Tables<'a>,
        start_plan: Option<&'a Plan>,
        pieces: u32,
        budget: u64,
    ) -> Shared<'a, R, G>
        requires tables { tables.now ≡ record { problem = instance.now; among = customers instance.now } }
        requires start_plan { ForSome (option_map (λ plan. plan.now) start_plan) (IsPlanOf instance.now) }
        requires budget { 1 ≤ budget }
        ensures { result ≡ record {
          problem = instance.now;
          start_plan = option_map (λ plan. plan.now) start_plan.entry;
          pieces = pieces;
          budget = budget;
          may_stop = G.may_stop resources.now.gate.now;
        } }
    {
        let Resources { rt, alloc, gate } = *resources;
        Shared {
            rt,
            alloc,
            instance,
            tables,
            start_plan,
            pieces,
            budget,
            gate,
        }
    }

    /// The same search with this start plan, if there is one, unless its own is before it.
    pub fn with_plan<'b>(&'b self, plan: Option<&'b Plan>) -> Shared<'b, R, G>
        requires { ForSome (option_map (λ plan. plan.now) plan) (IsPlanOf self.now.problem) }
        ensures same { result ≡ record self.entry.now { start_plan = result.start_plan } }
        ensures no_costlier { cost_of result.start_plan ≤ cost_of self.entry.now.start_plan }
    {
        let start_plan = earlier_of(self.instance, self.start_plan, plan);
        Shared {
            start_plan,
            ..*self
        }
    }

    /// The budget of all pieces together, `u64::MAX` if it is more.
    pub fn budget_in_all(&self) -> u64
        ensures { result ≡ min (self.now.budget * self.now.pieces) (2 ^ 64 - 1) }
    {
        self.budget.saturating_mul(u64::from(self.pieces))
    }

    /// The budget of the next piece; 1, for its root alone, if the gate doesn't continue.
    pub fn piece_budget(&self) -> u64
        ensures some { 1 ≤ result }
        ensures within { result ≤ self.now.budget }
        ensures all { (result ≡ self.now.budget) ⊎ IsTrue self.now.may_stop }
    {
        if self.gate.should_continue() {
            self.budget
        } else {
            1
        }
    }
}

// Of two plans the one that is before the other, or the only one.
fn earlier_of<'b>(
    instance: &Instance,
    one: Option<&'b Plan>,
    other: Option<&'b Plan>,
) -> Option<&'b Plan>
    requires one { ForSome (option_map (λ plan. plan.now) one) (IsPlanOf instance.now) }
    requires other { ForSome (option_map (λ plan. plan.now) other) (IsPlanOf instance.now) }
    ensures lawful { ForSome (option_map (λ plan. plan.now) result) (IsPlanOf instance.now) }
    ensures no_costlier { cost_of (option_map (λ plan. plan.now) result)
        ≤ cost_of (option_map (λ plan. plan.now) one.entry) }
{
    // Any plan costs less than a missing one.
    plans_cost_less();
    let _customers = instance.customers();
    match one {
        Some(plan) => match other {
            Some(than) if !plan.is_before(than) => other,
            _ => one,
        },
        None => other,
    }
}
