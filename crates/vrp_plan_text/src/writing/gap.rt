//! The optimality gap of a plan.
ghost use Rattle.std.specs.Option.{ForSome, option_map};
ghost use Rattle.std.specs.Prelude.{◌<◌};
ghost use Rattle.vrp_answer.specs.Finding.{told_by};
ghost use Rattle.vrp_plan_text.specs.Gap.{IsGap, IsGapOf};
ghost use Rattle.vrp_plan_text.specs.Json.{cost_told};
ghost use Rattle.vrp_model.specs.Route.{IsPlanOf};

use vrp_answer::Finding;
use vrp_model::{Instance, NO_COST, plans_cost_less};

/// Cost minus best lower bound in hundredths of a percent of that bound, rounded up: no feasible plan is cheaper by more than
/// that. `None` if there is no such number.
pub(crate) fn gap_of(instance: &Instance, finding: &Finding<'_>) -> Option<u64>
    requires { ForSome (option_map (λ plan. plan.now) finding.now.plan) (IsPlanOf instance.now) }
    ensures { let told = told_by finding.now in IsGapOf (cost_told told) told.best_lower_bound result }
{
    // All plans cost less than `NO_COST`.
    let _customers = instance.customers();
    plans_cost_less();
    match (finding.plan, finding.best_lower_bound) {
        (Some(plan), Some(bound)) => gap(plan.cost(), bound),
        _ => None,
    }
}

// The gap of a cost and a lower bound.
fn gap(cost: u64, bound: u64) -> Option<u64>
    requires { cost < NO_COST }
    ensures { IsGap cost bound result }
{
    if cost <= bound {
        return Some(0);
    }
    if bound == 0 {
        return None;
    }
    let above = (cost - bound) * 10_000;
    Some(above.div_ceil(bound))
}
