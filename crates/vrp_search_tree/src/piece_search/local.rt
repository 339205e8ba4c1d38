//! The board of one thread: it keeps the first plan by cost and then by word, if any.
ghost use Rattle.std.specs.Prelude.{◌≡◌, ◌↔◌, ◌≤◌, IsTrue, Option, Some, OnOk, OnErr, ⊤};
ghost use Rattle.std.specs.Option.{option_map};
ghost use Rattle.vrp_model.specs.Problem.{Problem};
ghost use Rattle.vrp_model.specs.Route.{IsPlanOf, PricedPlan};
ghost use Rattle.vrp_model.specs.Cheapest.{cost_of};
ghost use Rattle.vrp_search_tree.specs.Board.{IsBeforeKept, KeepsPlanOf};

use crate::piece_search::board::Board;
use std::alloc::Global;
use std::marker::Model;
use vrp_model::{NO_COST, NoMemory, Plan};

/// The first plan so far, by cost and then by word, or none. Its floor is the plan's cost, `NO_COST` if there is none, and it
/// serves the problems for which this is a feasible plan.
#[derive(Debug, Drop)]
pub struct Local {
    plan: Option<Plan>,
}

impl Model for Local {
    ghost use Rattle.std.specs.Prelude.{Option};
    ghost use Rattle.vrp_model.specs.Route.{PricedPlan};

    ghost Value = { Option PricedPlan };

    ghost view = { λ a. a.plan };
}

impl Local {
    /// A board with a plan, or without one.
    pub fn open(plan: Option<Plan>) -> Local
        ensures { result ≡ plan }
    {
        Local { plan }
    }

    /// The first plan so far: the one given to `open`, or one that was offered.
    pub fn plan(&self) -> Option<&Plan>
        ensures { option_map (λ plan. plan.now) result ≡ self.now }
    {
        self.plan.as_ref()
    }

    /// The plan, when nothing more is offered.
    pub fn into_plan(self) -> Option<Plan>
        ensures { result ≡ self }
    {
        self.plan
    }

    // Whether a plan is before the one that is kept.
    fn would_keep(&self, plan: &Plan) -> bool
        ensures { IsTrue result ↔ IsBeforeKept plan.now self.now }
    {
        match &self.plan {
            Some(kept) => plan.is_before(kept),
            None => plan.cost() < NO_COST,
        }
    }
}

impl Board for Local {
    ghost serves = { λ local p. KeepsPlanOf p local };

    ghost floor = { λ local. cost_of local };

    ghost keeps = { λ earlier later. ⊤ };

    fn least(&mut self) -> u64
        ensures serves { (p : Problem) → KeepsPlanOf p self.old → KeepsPlanOf p self.new }
        ensures keeps { (earlier : Option PricedPlan) → ⊤ → ⊤ }
        ensures falls { cost_of self.new ≤ cost_of self.old }
        ensures answered { cost_of self.new ≤ result }
        ensures value { result ≡ cost_of self.old }
        ensures same { self.new ≡ self.old }
    {
        match &self.plan {
            Some(plan) => plan.cost(),
            None => NO_COST,
        }
    }

    fn offer(&mut self, alloc: Global, plan: &Plan) -> Result<(), NoMemory>
        requires { (p : Problem) × KeepsPlanOf p self.old × IsPlanOf p plan.now }
        ensures serves { (p : Problem) →
            KeepsPlanOf p self.old → IsPlanOf p plan.now → KeepsPlanOf p self.new }
        ensures keeps { (earlier : Option PricedPlan) → ⊤ → ⊤ }
        ensures falls { cost_of self.new ≤ cost_of self.old }
        ensures taken { OnOk result (cost_of self.new ≤ plan.now.cost) }
        ensures first { OnOk result (IsBeforeKept plan.now self.old → self.new ≡ Some plan.now) }
        ensures kept { (IsBeforeKept plan.now self.old → ⊥) → self.new ≡ self.old }
        ensures err { OnErr result (self.new ≡ self.old) }
    {
        if self.would_keep(plan) {
            self.plan = Some(plan.copy(alloc)?);
        }
        Ok(())
    }
}
