//! The exact cover: the cheapest choice among a few columns, depth first, by the customer in the fewest columns.
ghost use Rattle.std.specs.Prelude.{◌≡◌, ◌≤◌, ◌<◌, IfNone, IfOk, IfSome, filter};
ghost use Rattle.std.specs.Int.{bit_at};
ghost use Rattle.vrp_partition.specs.Covering.{IsLeast, is_inside};

use std::alloc::{AllocError, Global};
use vrp_model::{CustomerSet, PLACES};

/// A column of the set partitioning: a route's customers, its reduced cost, which is not negative, and its cost.
#[derive(Debug, Clone, Copy)]
pub struct Column {
    pub set: CustomerSet,
    pub reduced_cost: u64,
    pub cost: u32,
}

/// The columns of a choice, and their cost. If no choice below the incumbent was found, the cost is the incumbent's, and the columns are
/// no choice.
#[derive(Debug, Drop)]
pub struct Cover {
    pub cost: u64,
    pub parts: Vec<Column>,
}

/// A node of the exact cover: the unserved customers, the trucks that are left, the incumbent, below whose cost choices
/// are sought, and the gap, which is the greatest sum of their reduced costs.
#[derive(Debug, Clone, Copy)]
pub struct CoverNode {
    pub unserved: CustomerSet,
    pub trucks: u8,
    pub incumbent: u64,
    pub gap: u64,
}

/// The least cost below the incumbent's of a choice that serves the node's customers with its trucks, and a choice of that cost.
/// Choices whose reduced costs add up to more than the gap need not be looked at; if no other is cheaper than the incumbent, the answer
/// is the incumbent's cost. `None` if the budget is spent; each node of the search takes one of it.
pub fn cheapest_cover(
    alloc: Global,
    columns: &[Column],
    node: CoverNode,
    budget: &mut u64,
) -> Result<Option<Cover>, AllocError>
    ensures least { IfOk result (λ answer. IfSome answer (λ best.
        IsLeast columns.now node.unserved node.trucks node.incumbent node.gap best.cost best.parts.items)) }
    ensures budget { budget.new ≤ budget.old }
    ensures spent { IfOk result (λ answer. IfNone answer (budget.new ≡ 0)) }
{
    if *budget == 0 {
        return Ok(None);
    }
    *budget -= 1;
    let mut parts = Vec::new(alloc);
    if node.unserved.is_empty() {
        return Ok(Some(Cover { cost: 0, parts }));
    }
    if node.trucks == 0 {
        let cost = node.incumbent;
        return Ok(Some(Cover { cost, parts }));
    }
    let (unserved, gap) = (node.unserved, node.gap);
    let customer = rarest_customer(columns, unserved);
    let mut found = node.incumbent;
    for column in columns {
        let cost = u64::from(column.cost);
        if column.set.contains(customer)
            && column.set.is_subset(unserved)
            && column.reduced_cost <= gap
            && cost < found
        {
            let (rest, under) = (unserved.difference(column.set), gap - column.reduced_cost);
            let inside = columns_inside(alloc, columns, rest, under)?;
            let child = CoverNode {
                unserved: rest,
                trucks: node.trucks - 1,
                incumbent: found - cost,
                gap: under,
            };
            let Some(more) = cheapest_cover(alloc, inside.as_slice(), child, budget)? else {
                return Ok(None);
            };
            if more.cost < found - cost {
                found = cost + more.cost;
                parts = more.parts;
                parts.push(*column)?;
            }
        }
    }
    Ok(Some(Cover { cost: found, parts }))
}

// The columns that have only these customers, and no greater reduced cost.
fn columns_inside(
    alloc: Global,
    columns: &[Column],
    unserved: CustomerSet,
    gap: u64,
) -> Result<Vec<Column>, AllocError>
    ensures { IfOk result (λ kept. kept.items ≡ filter (is_inside unserved gap) columns.now) }
{
    columns
        .iter()
        .copied()
        .filter(|column| column.reduced_cost <= gap && column.set.is_subset(unserved))
        .collect(alloc)
}

// One of these customers, in the fewest columns.
fn rarest_customer(columns: &[Column], unserved: CustomerSet) -> u16
    requires { 0 < unserved }
    ensures one { bit_at unserved result ≡ 1 }
    ensures small { result < PLACES }
{
    let mut counts = [0; PLACES];
    for column in columns {
        count_customers(&mut counts, column.set);
    }
    let mut others = unserved;
    let mut best = others.take_first().unwrap();
    while let Some(customer) = others.take_first() {
        if counts[usize::from(customer)] < counts[usize::from(best)] {
            best = customer;
        }
    }
    best
}

// Counts one more column for each customer of a set.
fn count_customers(counts: &mut [u16; PLACES], set: CustomerSet) {
    for customer in set.iter() {
        let count = &mut counts[usize::from(customer)];
        *count = count.saturating_add(1);
    }
}
