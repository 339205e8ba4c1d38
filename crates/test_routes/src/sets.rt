//! Sets of customers, as lists.

use vrp_model::{CustomerSet, PLACES};

/// The set of these customers; those that no set can hold are left out.
pub(crate) fn set_of(customers: &[u16]) -> CustomerSet {
    let mut set = CustomerSet::empty();
    for &customer in customers {
        if usize::from(customer) < PLACES {
            set = set.with(customer);
        }
    }
    set
}

/// Every place, the depot's too.
pub(crate) fn every_place() -> [u16; PLACES] {
    let mut places = [0; PLACES];
    for (index, place) in places.iter_mut().enumerate() {
        *place = index as u16;
    }
    places
}
