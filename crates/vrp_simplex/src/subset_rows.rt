//! Subset rows: triples of customers of which at most one route has two.
use crate::capacity_cuts::add_members;
use crate::cut::{Cut, CutKind};
use crate::fixed_point::{ONE, at};
use crate::separation::{Broken, Used};
use std::alloc::{AllocError, Global};
use vrp_model::{CustomerSet, PLACES};

// A solution violates a cut if it exceeds one by at least this.
const MORE: i64 = ONE + ONE / 50;

/// The places up to a set's highest customer: the length of a table by customer.
pub(crate) fn places_of(customers: CustomerSet) -> usize {
    let mut most = 0;
    for customer in customers.iter() {
        most = usize::from(customer);
    }
    most + 1
}

/// For each two customers the total value of the routes that have both, row by row; a row has this many places.
pub(crate) fn pair_sums(
    alloc: Global,
    places: usize,
    used: &[Used],
) -> Result<Vec<i64>, AllocError> {
    let mut pairs = vec![in alloc; 0; places.saturating_mul(places)]?;
    for route in used {
        for first in route.set.iter() {
            let start = usize::from(first).saturating_mul(places);
            let end = start.saturating_add(places);
            if let Some(row) = pairs.as_mut_slice().get_mut(start..end) {
                add_members(row, route.set, route.value);
            }
        }
    }
    Ok(pairs)
}

/// The sums of a customer.
pub(crate) fn sums_of(pairs: &[i64], places: usize, customer: u16) -> &[i64] {
    let start = usize::from(customer).saturating_mul(places);
    let end = start.saturating_add(places);
    pairs.get(start..end).unwrap_or(&[])
}

/// Adds the violated triples.
pub(crate) fn push_broken(
    alloc: Global,
    customers: CustomerSet,
    used: &[Used],
    broken: &mut Vec<Broken>,
) -> Result<(), AllocError> {
    let places = places_of(customers);
    let pairs = pair_sums(alloc, places, used)?;
    let pairs = pairs.as_slice();
    let mut later = customers;
    while let Some(first) = later.take_first() {
        let of_first = sums_of(pairs, places, first);
        for second in later.iter() {
            let both = CustomerSet::only(first).with(second);
            let sum = at(of_first, usize::from(second));
            let of_second = sums_of(pairs, places, second);
            let start = usize::from(second) + 1;
            push_thirds(both, sum, start, of_first, of_second, used, broken)?;
        }
    }
    Ok(())
}

// Adds the triples of two customers, with the value of the routes that have both, and a later one, from this place on.
fn push_thirds(
    both: CustomerSet,
    value: i64,
    start: usize,
    of_first: &[i64],
    of_second: &[i64],
    used: &[Used],
    broken: &mut Vec<Broken>,
) -> Result<(), AllocError> {
    let sums = of_first.iter().zip(of_second).enumerate();
    for (third, (&one, &other)) in sums.skip(start) {
        if third < PLACES && value.wrapping_add(one).wrapping_add(other) > MORE {
            push_if_broken(both.with(third as u16), used, broken)?;
        }
    }
    Ok(())
}

// Adds a triple if it is violated.
fn push_if_broken(
    set: CustomerSet,
    used: &[Used],
    broken: &mut Vec<Broken>,
) -> Result<(), AllocError> {
    let cut = Cut {
        set,
        kind: CutKind::SubsetRow,
    };
    let mut sum = 0i64;
    for route in used {
        if cut.has(route.set) {
            sum = sum.wrapping_add(route.value);
        }
    }
    if sum > MORE {
        let excess = sum.wrapping_sub(ONE);
        broken.push(Broken { excess, cut })?;
    }
    Ok(())
}
