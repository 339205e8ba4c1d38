//! Joints: where one route may be joined to another, and the loss by that.
ghost use Rattle.std.specs.Prelude.{◌≡◌, ◌≤◌, ◌<◌, IfOk, OnOk, vec_len};
ghost use Rattle.std.specs.List.{All};
ghost use Rattle.vrp_model.specs.Problem.{place_count};
ghost use Rattle.vrp_heuristic.specs.Inner.Joints.{IsBetween};

use crate::reach::Reach;
use std::alloc::Global;
use vrp_model::{Instance, MAX_WEIGHT, NoMemory};

/// The end of one route and the start of another. Joints are compared by loss, and then by the two places.
#[derive(Clone, Copy, PartialEq, Eq, PartialOrd, Ord)]
pub(crate) struct Joint {
    // Ten times the difference between the greatest possible saving and this one; the least loss is joined first.
    loss: u64,
    pub from: u16,
    pub to: u16,
}

/// The joints between near neighbours: each pair once in a symmetric instance, and otherwise both ways.
pub(crate) fn list_joints(
    alloc: Global,
    instance: &Instance,
    reach: &Reach,
) -> Result<Vec<Joint>, NoMemory>
    requires { vec_len reach.now.farthest ≡ place_count instance.now }
    ensures { IfOk result (λ joints. All (IsBetween (place_count instance.now)) joints.items) }
{
    let mut joints = Vec::new(alloc);
    for from in 1..instance.customers() + 1 {
        push_joints(instance, reach, from, &mut joints)?;
    }
    Ok(joints)
}

// Adds the joints from a customer.
fn push_joints(
    instance: &Instance,
    reach: &Reach,
    from: u16,
    joints: &mut Vec<Joint>,
) -> Result<(), NoMemory>
    requires reach { vec_len reach.now.farthest ≡ place_count instance.now }
    requires from { from < place_count instance.now }
    requires joints { All (IsBetween (place_count instance.now)) joints.old.items }
    ensures { OnOk result (All (IsBetween (place_count instance.now)) joints.new.items) }
{
    let least = if instance.symmetric() { from } else { 0 };
    for to in 1..instance.customers() + 1 {
        let is_new = least < to && to != from;
        if is_new && (reach.is_near(instance, from, to) || reach.is_near(instance, to, from)) {
            joints.push(Joint { loss: 0, from, to })?;
        }
    }
    Ok(())
}

/// Sorts joints, the best first, if an arc between customers counts this many tenths of its weight.
pub(crate) fn sort_joints(instance: &Instance, tenths: u64, joints: &mut Vec<Joint>)
    requires tenths { tenths ≤ 20 }
    requires between { All (IsBetween (place_count instance.now)) joints.old.items }
    ensures { All (IsBetween (place_count instance.now)) joints.new.items }
{
    for index in 0..joints.len() {
        let Joint { from, to, .. } = joints[index];
        let loss = loss(instance, tenths, from, to);
        joints[index] = Joint { loss, from, to };
    }
    joints.sort_unstable();
}

// Twenty times the greatest weight, minus the saving in tenths: the two arcs at the depot, minus the arc between, which counts this
// many tenths of its weight.
fn loss(instance: &Instance, tenths: u64, from: u16, to: u16) -> u64
    requires tenths { tenths ≤ 20 }
    requires from_within { from < place_count instance.now }
    requires to_within { to < place_count instance.now }
{
    let by_depot = instance.weight(from, 0) + instance.weight(0, to);
    20 * MAX_WEIGHT + tenths * instance.weight(from, to) - 10 * by_depot
}
