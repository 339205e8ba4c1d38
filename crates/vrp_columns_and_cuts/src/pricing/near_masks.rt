//! Which customers a label remembers, as the bits of a mask.

use std::alloc::Global;
use vrp_model::{CustomerSet, NoMemory};

// The number of near customers that are remembered at a place: there is a bit for each.
const NEAR: usize = 8;

// The number of masks of a place.
const MASKS: usize = 256;

/// The customers near each place, at most eight, as the bits of a mask, and how the masks follow from one place to the next.
#[derive(Debug, Drop)]
pub struct NearMasks {
    places: usize,
    // By place, then by customer: the customer's bit at the place, 0 if it is not near.
    bits: Vec<u8>,
    // By the place that a walk goes to, the place that it comes from and its mask there: its mask at the new place.
    after: Vec<u8>,
}

impl NearMasks {
    /// The masks of these near customers, one set for each place. Of a set with more than eight others the lowest eight are remembered.
    pub fn new(alloc: Global, near: &[CustomerSet]) -> Result<NearMasks, NoMemory> {
        let places = near.len();
        let lists = near_lists(alloc, near)?;
        let bits = bits_of(alloc, places, &lists)?;
        let mut masks = NearMasks {
            places,
            bits,
            after: Vec::new(alloc),
        };
        for to in 0..places {
            for from in 0..places {
                masks.push_masks(&lists, to, from)?;
            }
        }
        Ok(masks)
    }

    /// The bit of a customer at a place, or 0 if the place does not remember it.
    #[inline(always)]
    pub fn bit(&self, place: u16, customer: u16) -> u8 {
        self.bit_at(usize::from(place), usize::from(customer))
    }

    /// The mask at a place, if the walk comes from another place where it had this mask.
    #[inline(always)]
    pub fn after(&self, from: u16, to: u16, mask: u8) -> u8 {
        let row = usize::from(to)
            .wrapping_mul(self.places)
            .wrapping_add(usize::from(from));
        let at = row.wrapping_mul(MASKS).wrapping_add(usize::from(mask));
        self.after.get(at).copied().unwrap_or(0)
    }

    #[inline(always)]
    fn bit_at(&self, place: usize, customer: usize) -> u8 {
        let at = place.wrapping_mul(self.places).wrapping_add(customer);
        self.bits.get(at).copied().unwrap_or(0)
    }

    // Adds the masks at a place for each mask at the place before. Each follows from that of the mask without its lowest bit.
    fn push_masks(&mut self, lists: &[usize], to: usize, from: usize) -> Result<(), NoMemory> {
        let first = self.after.len();
        let own = self.bit_at(to, from);
        self.after.push(own)?;
        for mask in 1..MASKS {
            let rest = mask & (mask - 1);
            let index = mask.trailing_zeros() as usize;
            let customer = near_customer(lists, from, index);
            let before = self.after.get(first.wrapping_add(rest)).copied();
            let bits = before.unwrap_or(0) | self.bit_at(to, customer);
            self.after.push(bits)?;
        }
        Ok(())
    }
}

// The near customers of each place, eight for each.
fn near_lists(alloc: Global, near: &[CustomerSet]) -> Result<Vec<usize>, NoMemory> {
    let mut lists = Vec::new(alloc);
    for (place, set) in near.iter().enumerate() {
        push_near(&mut lists, *set, place)?;
    }
    Ok(lists)
}

// Adds the lowest eight of a set but for the place itself and the depot. Zeros fill up the list.
fn push_near(lists: &mut Vec<usize>, set: CustomerSet, place: usize) -> Result<(), NoMemory> {
    let mut count: usize = 0;
    for customer in set.iter() {
        if customer != 0 && usize::from(customer) != place && count < NEAR {
            lists.push(usize::from(customer))?;
            count = count.wrapping_add(1);
        }
    }
    for _index in count..NEAR {
        lists.push(0)?;
    }
    Ok(())
}

// A near customer of a place by its bit's number, or 0.
fn near_customer(lists: &[usize], place: usize, index: usize) -> usize {
    let at = place.wrapping_mul(NEAR).wrapping_add(index);
    lists.get(at).copied().unwrap_or(0)
}

// The bit of each customer at each place.
fn bits_of(alloc: Global, places: usize, lists: &[usize]) -> Result<Vec<u8>, NoMemory> {
    let mut bits = Vec::new(alloc);
    for place in 0..places {
        for customer in 0..places {
            bits.push(bit_of(lists, place, customer))?;
        }
    }
    Ok(bits)
}

// The bit of a customer at a place, 0 if it is not near.
fn bit_of(lists: &[usize], place: usize, customer: usize) -> u8 {
    if customer == 0 {
        return 0;
    }
    let mut bit = 1u8;
    for index in 0..NEAR {
        if near_customer(lists, place, index) == customer {
            return bit;
        }
        bit = bit.wrapping_mul(2);
    }
    0
}
