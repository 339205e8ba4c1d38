//! The plan by savings: the best one over several weights of the arc between customers.
ghost use Rattle.std.specs.Prelude.{IfOk, IfSome};
ghost use Rattle.std.specs.List.{All};
ghost use Rattle.vrp_model.specs.Problem.{place_count};
ghost use Rattle.vrp_model.specs.Route.{IsPlanOf};
ghost use Rattle.vrp_heuristic.specs.Inner.Joints.{IsBetween};

use crate::joined_routes::JoinedRoutes;
use crate::joint::{Joint, list_joints, sort_joints};
use crate::reach::Reach;
use std::alloc::Global;
use vrp_model::{Instance, NoMemory, Plan};
use vrp_search_tree::lawful_plan;

/// The weights, in tenths, that are tried for the arc between two customers.
const LEAST_TENTHS: u64 = 4;

const MOST_TENTHS: u64 = 20;

/// A plan by savings (Clarke and Wright 1964). At first a truck goes to each customer; then routes are joined end to end, the largest
/// saving first, while the load fits. In a symmetric instance a route may be reversed for that. The arc between two customers counts from
/// 4 to 20 tenths of its weight; the answer is the first of these plans, by cost and then by word. Each customer is joined only to its
/// some 40 nearest neighbours, or to those whose near neighbour it is. A joint that makes the plan costlier is made only if there are
/// more routes than trucks.
///
/// `None`: no such plan is feasible, for example within a limit on trucks. The contract leaves open which feasible plan is answered, and
/// when there is none.
pub fn savings_plan(alloc: Global, instance: &Instance) -> Result<Option<Plan>, NoMemory>
    ensures { IfOk result (λ plan. IfSome plan (IsPlanOf instance.now)) }
{
    let reach = Reach::new(alloc, instance)?;
    let mut joints = list_joints(alloc, instance, &reach)?;
    let mut best = None;
    for tenths in LEAST_TENTHS..MOST_TENTHS + 1 {
        sort_joints(instance, tenths, &mut joints);
        best = better(alloc, instance, &joints, best)?;
    }
    Ok(best)
}

// The plan of the routes after joining at these joints, if it is before the best so far, otherwise that one.
fn better(
    alloc: Global,
    instance: &Instance,
    joints: &[Joint],
    best: Option<Plan>,
) -> Result<Option<Plan>, NoMemory>
    requires joints { All (IsBetween (place_count instance.now)) joints.now }
    requires best { IfSome best (IsPlanOf instance.now) }
    ensures { IfOk result (λ plan. IfSome plan (IsPlanOf instance.now)) }
{
    let Some(plan) = joined(alloc, instance, joints)? else {
        return Ok(best);
    };
    match best {
        None => Ok(Some(plan)),
        Some(best) => Ok(Some(if plan.is_before(&best) { plan } else { best })),
    }
}

// The plan of the routes after joining at these joints, if it is feasible.
fn joined(alloc: Global, instance: &Instance, joints: &[Joint]) -> Result<Option<Plan>, NoMemory>
    requires { All (IsBetween (place_count instance.now)) joints.now }
    ensures { IfOk result (λ plan. IfSome plan (IsPlanOf instance.now)) }
{
    let mut routes = JoinedRoutes::one_each(alloc, instance)?;
    routes.join_all(instance, joints);
    let word = routes.word(alloc, instance)?;
    lawful_plan(alloc, instance, &word)
}
