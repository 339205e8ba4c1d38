//! Subset rows: three or five customers of whom the routes of a plan have at most one or two pairs, and of whom a solution has more.
use crate::separation::fives::push_fives;
use crate::separation::memory::memory_for;
use crate::separation::picking::Violated;
use crate::separation::solution::UsedRoute;
use crate::separation::visits::Visits;
use std::alloc::{AllocError, Global};
use vrp_duals::SubsetRow;
use vrp_model::{CustomerSet, NoMemory, PLACES};

/// How subset rows are looked for.
#[derive(Clone, Copy, Debug)]
pub struct RowSearch {
    /// The most rows to find.
    pub most: usize,
    /// The most rows that have the same customer.
    pub most_each: u8,
    /// Whether rows of five customers are looked for too.
    pub fives: bool,
}

/// Subset rows that a solution violates, the most violated first, with a price of 0. A row remembers what the routes of the solution need
/// to pay for it in full, and what a `known` row of the same customers remembers; it is none of the known ones. Which are found, the
/// contract leaves open. The only error is lack of memory.
pub fn violated_rows(
    alloc: Global,
    customers: CustomerSet,
    routes: &[UsedRoute],
    known: &[SubsetRow],
    search: RowSearch,
) -> Result<Vec<SubsetRow>, NoMemory> {
    let visits = Visits::new(alloc, customers, routes)?;
    let mut found = Vec::new(alloc);
    visits.push_triples(customers, &mut found)?;
    if search.fives {
        push_fives(alloc, customers, &visits, &mut found)?;
    }
    found.sort_by_key(|row| row.excess.saturating_neg())?;
    Ok(picked(alloc, &found, routes, known, search)?)
}

// The most violated of these rows.
fn picked(
    alloc: Global,
    found: &[Violated],
    routes: &[UsedRoute],
    known: &[SubsetRow],
    search: RowSearch,
) -> Result<Vec<SubsetRow>, AllocError> {
    let mut counts = [0u8; PLACES];
    let mut rows: Vec<SubsetRow> = Vec::new(alloc);
    for violated in found {
        if rows.len() >= search.most {
            break;
        }
        let customers = violated.customers;
        let is_new = !rows.iter().any(|row| row.customers == customers);
        if is_new && has_room(customers, &counts, search.most_each) {
            let memory = memory_for(customers, known_memory(customers, known), routes);
            if !is_known(customers, memory, known) {
                count_customers(customers, &mut counts);
                rows.push(SubsetRow {
                    customers,
                    memory,
                    price: 0,
                })?;
            }
        }
    }
    Ok(rows)
}

// What known rows of these customers remember, and the customers.
fn known_memory(customers: CustomerSet, known: &[SubsetRow]) -> CustomerSet {
    let mut memory = customers;
    for row in known {
        if row.customers == customers {
            memory = memory.union(row.memory);
        }
    }
    memory
}

// Whether one of the known rows has these customers and this memory.
fn is_known(customers: CustomerSet, memory: CustomerSet, known: &[SubsetRow]) -> bool {
    known
        .iter()
        .any(|row| row.customers == customers && row.memory == memory)
}

// Whether each of the customers is in fewer rows than this.
fn has_room(customers: CustomerSet, counts: &[u8; PLACES], most: u8) -> bool {
    for customer in customers.iter() {
        if counts[usize::from(customer)] >= most {
            return false;
        }
    }
    true
}

fn count_customers(customers: CustomerSet, counts: &mut [u8; PLACES]) {
    for customer in customers.iter() {
        let count = &mut counts[usize::from(customer)];
        *count = count.saturating_add(1);
    }
}
