//! A solution: the feasible plan that a text gives, and its stated cost.
ghost use Rattle.std.specs.Prelude.{◌≡◌, ◌≢◌, ◌↔◌, IfErr, IfOk, IsTrue};
ghost use Rattle.vrp_model.specs.Route.{IsPlanOf};
ghost use Rattle.vrp_plan_text.specs.Solution.{GivesPlan, IsRefusedFor, StatesOtherCost, stated_cost};

use crate::reading::error::SolutionError;
use crate::reading::lawful::{plan_of, refusal_of};
use crate::reading::listing::ListedPlan;
use std::alloc::Global;
use vrp_model::{Instance, Plan};

/// A feasible plan that a text gave.
#[derive(Debug, Drop)]
pub struct Solution {
    /// The plan, with its true cost.
    pub plan: Plan,
    /// Whether the text states a cost different from the plan's.
    pub states_other_cost: bool,
    /// The cost that the text states, if there is one and it is whole.
    pub stated_cost: Option<u64>,
}

impl Solution {
    /// Reads a solution of an instance in CVRPLIB's format: a line `Route #1: 5 2` for each route and a line `Cost 521`.
    /// Customers have the numbers of their places: from 1 by rising node, without the depot. A line ends with a line feed,
    /// optionally with a carriage return before it, or with the text. The line of the cost may be missing, and a route may
    /// have no stops. If the plan is not feasible, the error is the first fault, line by line and then route by route.
    pub fn read(alloc: Global, text: &[u8], instance: &Instance) -> Result<Solution, SolutionError>
        ensures read { IfOk result (λ solution. GivesPlan instance.now text.now solution.plan) }
        ensures lawful { IfOk result (λ solution. IsPlanOf instance.now solution.plan) }
        ensures other_cost { IfOk result (λ solution.
            IsTrue solution.states_other_cost ↔ StatesOtherCost text.now solution.plan.cost) }
        ensures stated { IfOk result (λ solution. solution.stated_cost ≡ stated_cost text.now) }
        ensures refused { IfErr result (λ error.
            error ≢ SolutionError.OutOfMemory → IsRefusedFor instance.now text.now error) }
    {
        let listing = ListedPlan::read(alloc, text, instance)?;
        match plan_of(alloc, instance, &listing.routes)? {
            Some(plan) => {
                let states_other_cost = listing.states_other_cost(plan.cost());
                let stated_cost = listing.stated_cost();
                Ok(Solution {
                    plan,
                    states_other_cost,
                    stated_cost,
                })
            }
            None => Err(refusal_of(alloc, instance, &listing.routes)?),
        }
    }
}
