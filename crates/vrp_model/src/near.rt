//! The nearest customers of each place.
ghost use Rattle.std.specs.Prelude.{◌≡◌, ◌*◌, ◌+◌, ◌≤◌, ◌<◌, IfOk, OnOk, vec_len};
ghost use Rattle.vrp_model.specs.Problem.{place_count};

use crate::{Instance, NoMemory};
use std::alloc::Global;

// The arc to a customer; arcs are compared by weight and then by place.
#[derive(Clone, Copy, PartialEq, Eq, PartialOrd, Ord)]
struct CustomerArc {
    weight: u64,
    to: u16,
}

/// For each place, one after another, this many customers: those with the least arcs from it, and for equal weights the least
/// places. The depot fills up lists that are too short.
pub(crate) fn nearest_customers(
    alloc: Global,
    instance: &Instance,
    size: usize,
) -> Result<Vec<u16>, NoMemory>
    requires few { size ≤ 4 }
    ensures len { IfOk result (λ near. vec_len near ≡ place_count instance.now * size) }
{
    let mut near = Vec::with_capacity(alloc, (usize::from(instance.customers()) + 1) * size)?;
    let mut arcs = Vec::with_capacity(alloc, usize::from(instance.customers()))?;
    for place in 0..instance.customers() + 1 {
        list_arcs(&mut arcs, instance, place)?;
        push_nearest(&mut near, &arcs, size)?;
    }
    Ok(near)
}

// The other customers, by rising weight of the arc to them.
fn list_arcs(arcs: &mut Vec<CustomerArc>, instance: &Instance, from: u16) -> Result<(), NoMemory>
    requires place { from < place_count instance.now }
{
    arcs.clear();
    for to in 1..instance.customers() + 1 {
        if to != from {
            let weight = instance.weight(from, to);
            arcs.push(CustomerArc { weight, to })?;
        }
    }
    arcs.sort_unstable();
    Ok(())
}

// Adds the first of these, and the depot for those that are missing.
fn push_nearest(near: &mut Vec<u16>, arcs: &[CustomerArc], size: usize) -> Result<(), NoMemory>
    ensures len { OnOk result (vec_len near.new ≡ vec_len near.old + size) }
{
    for index in 0..size {
        let customer = match arcs.get(index) {
            Some(arc) => arc.to,
            None => 0,
        };
        near.push(customer)?;
    }
    Ok(())
}
