//! Ng-sets: the customers near each place, and how an ng-set follows from that at the next stop.
ghost use Rattle.std.specs.Prelude.{◌≡◌, ◌*◌, ◌^◌, ◌<◌, ◌≤◌, IfOk, length, vec_len};
ghost use Rattle.vrp_model.specs.Problem.{place_count};
ghost use Rattle.vrp_model.specs.Inner.Before.{AreBefore};
ghost use Rattle.vrp_model.specs.NgSets.{AreNgSetsBefore, ng_set_before, recalls};
ghost use Rattle.vrp_model.specs.Near.{near_in, listing};

use crate::near::nearest_customers;
use crate::{Instance, NoMemory};
use std::alloc::Global;
use std::marker::Model;

/// The greatest number of customers near a place.
pub const MOST_NEAR: usize = 4;

/// The customers near each place, and the ng-sets that follow from them.
#[derive(Debug, Drop)]
pub struct NgSets {
    places: usize,
    // The number of customers near each place.
    size: usize,
    // The number of ng-sets: there is a bit for each customer near a place.
    masks: usize,
    // The near customers of each place, one place after another.
    near: Vec<u16>,
    // By place, then by stop, then by the ng-set at the stop: the ng-set before it.
    before: Vec<u8>,
}

impl Model for NgSets {
    ghost use Rattle.vrp_model.specs.Near.{NearOf, listing};
    ghost use Rattle.vrp_model.specs.Inner.Before.{IsKept};

    ghost Value = { NearOf };

    ghost view = { λ a. listing a.places a.size a.near.items };

    ghost invariant = { λ a. IsKept (listing a.places a.size a.near.items) a.masks a.before.items };
}

impl NgSets {
    /// The ng-sets of walks with these near customers: `size` for each place, one place after another.
    pub fn new(
        alloc: Global,
        places: usize,
        size: usize,
        near: Vec<u16>,
    ) -> Result<NgSets, NoMemory>
        requires few_places { places ≤ 1200 }
        requires few { size ≤ MOST_NEAR }
        requires listed { vec_len near ≡ places * size }
        ensures { IfOk result (λ ng_sets. ng_sets ≡ listing places size near.items) }
    {
        let masks = 1 << size;
        let before = ng_sets_before(alloc, places, size, masks, &near)?;
        Ok(NgSets {
            places,
            size,
            masks,
            near,
            before,
        })
    }

    /// The ng-sets of walks with this many near customers for each place of an instance: those with the least arcs from it,
    /// and for equal weights the least places. The depot fills up lists that are too short. The contract leaves open which
    /// customers are near; every route is an ng-walk for any of them.
    pub fn nearest(alloc: Global, instance: &Instance, size: usize) -> Result<NgSets, NoMemory>
        requires few { size ≤ MOST_NEAR }
        ensures places { IfOk result (λ ng_sets. ng_sets.places ≡ place_count instance.now) }
        ensures size { IfOk result (λ ng_sets. ng_sets.size ≡ size) }
    {
        let near = nearest_customers(alloc, instance, size)?;
        NgSets::new(alloc, usize::from(instance.customers()) + 1, size, near)
    }

    /// The number of customers near each place.
    pub fn size(&self) -> usize
        ensures { result ≡ self.now.size }
    {
        self.size
    }

    /// The customers near each place, `size` of them, one place after another. Public for tests alone.
    pub fn near(&self) -> &[u16]
        ensures { result.now ≡ self.now.listed }
    {
        self.near.as_slice()
    }

    /// The number of ng-sets at a place: one for each set of the customers near it.
    pub fn masks(&self) -> usize
        ensures value { result ≡ 2 ^ self.now.size }
        ensures some { 1 ≤ result }
        ensures few { result ≤ 16 }
    {
        self.masks
    }

    /// Indexed by the ng-set at a stop: the ng-set at the place from which a walk continues to it, or `masks` if it may not.
    pub fn before(&self, at: u16, stop: u16) -> &[u8]
        requires at { at < self.now.places }
        requires stop { stop < self.now.places }
        ensures len { length result.now ≡ 2 ^ self.entry.now.size }
        ensures value { AreNgSetsBefore self.entry.now at stop result.now }
    {
        let start = (usize::from(at) * self.places + usize::from(stop)) * self.masks;
        &self.before[start..start + self.masks]
    }
}

// The ng-sets before, by place, then by stop, then by the ng-set at the stop.
fn ng_sets_before(
    alloc: Global,
    places: usize,
    size: usize,
    masks: usize,
    near: &[u16],
) -> Result<Vec<u8>, NoMemory>
    requires few_places { places ≤ 1200 }
    requires few { size ≤ 4 }
    requires some_masks { 1 ≤ masks }
    requires few_masks { masks ≤ 16 }
    requires listed { length near.now ≡ places * size }
    ensures len { IfOk result (λ before. vec_len before ≡ places * places * masks) }
    ensures known { IfOk result (λ all. AreBefore (listing places size near.now) masks all.items) }
{
    let count = places * places * masks;
    let mut before = Vec::with_capacity(alloc, count)?;
    for index in 0..count {
        let pair = index / masks;
        let (at, stop) = (pair / places, pair % places);
        let near_at = near_of(near, size, places, at);
        let near_stop = near_of(near, size, places, stop);
        let ng_set = ng_set_from(
            near_at,
            near_stop,
            masks,
            at as u16,
            stop as u16,
            index % masks,
        );
        before.push_reserved(ng_set);
    }
    Ok(before)
}

// The customers near a place.
fn near_of(near: &[u16], size: usize, places: usize, place: usize) -> &[u16]
    requires few_places { places ≤ 1200 }
    requires few { size ≤ 4 }
    requires listed { length near.now ≡ places * size }
    requires place { place < places }
    ensures value { result.now ≡ near_in (listing places size near.entry.now) place }
    ensures len { length result.now ≡ size }
{
    let start = place * size;
    &near[start..start + size]
}

// The ng-set at a place from which the walk continues to this stop with this ng-set there.
fn ng_set_from(
    near_at: &[u16],
    near_stop: &[u16],
    masks: usize,
    at: u16,
    stop: u16,
    ng_set: usize,
) -> u8
    requires few { length near_at.now ≤ 4 }
    requires few_masks { masks ≤ 16 }
    ensures { result ≡ ng_set_before near_at.now near_stop.now masks at stop ng_set }
{
    if recalled(near_stop, stop, ng_set, at) {
        return masks as u8;
    }
    let mut bits = 0;
    let mut bit = 1;
    for customer in near_at {
        if recalled(near_stop, stop, ng_set, *customer) {
            bits += bit;
        }
        bit *= 2;
    }
    bits
}

// Whether a walk with this first stop and this ng-set there remembers a customer.
fn recalled(near: &[u16], stop: u16, ng_set: usize, customer: u16) -> bool
    ensures { result ≡ recalls near.now stop ng_set customer }
{
    if stop == customer {
        return true;
    }
    let mut left = ng_set;
    for other in near {
        if *other == customer && left % 2 == 1 {
            return true;
        }
        left /= 2;
    }
    false
}
