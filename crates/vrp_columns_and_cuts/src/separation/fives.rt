//! Rows of five customers: around each customer those who share most routes with it.
ghost use Rattle.std.specs.Prelude.{◌<◌};
ghost use Rattle.vrp_model.specs.declared.customers.customer_set.TheConstants.{PLACES};

use crate::separation::picking::Violated;
use crate::separation::solution::ONE;
use crate::separation::support::at;
use crate::separation::visits::Visits;
use std::alloc::{AllocError, Global};
use vrp_model::{CustomerSet, PLACES};

// A customer is near another one where routes have both in at least this much of the solution.
const ENOUGH_TOGETHER: i64 = ONE / 20;

// The most customers near one.
const MOST_NEAR: usize = 9;

/// Adds the violated rows of five customers: of each customer and four of those near it.
pub(crate) fn push_fives(
    alloc: Global,
    customers: CustomerSet,
    visits: &Visits,
    found: &mut Vec<Violated>,
) -> Result<(), AllocError> {
    for center in customers.iter() {
        let near = near(alloc, customers, visits, center)?;
        for choice in 0u32..1 << MOST_NEAR {
            if choice.count_ones() == 4 {
                let five = chosen(center, &near, choice);
                if five.len() == 5 {
                    visits.offer(five, found)?;
                }
            }
        }
    }
    Ok(())
}

// The customers who share most routes with this one.
fn near(
    alloc: Global,
    customers: CustomerSet,
    visits: &Visits,
    center: u16,
) -> Result<Vec<u16>, AllocError> {
    let together = visits.pairs_of(center);
    let mut near = Vec::new(alloc);
    for customer in customers.iter() {
        if customer != center && at(together, customer) > ENOUGH_TOGETHER {
            near.push(customer)?;
        }
    }
    near.sort_by_key(|customer| at(together, *customer).saturating_neg())?;
    near.truncate(MOST_NEAR);
    Ok(near)
}

// A customer and those whose bits are chosen.
fn chosen(center: u16, near: &[u16], choice: u32) -> CustomerSet
    requires { center < PLACES }
{
    let mut set = CustomerSet::only(center);
    for (bit, &customer) in near.iter().enumerate() {
        if bit < MOST_NEAR && choice >> bit & 1 == 1 && usize::from(customer) < PLACES {
            set = set.with(customer);
        }
    }
    set
}
