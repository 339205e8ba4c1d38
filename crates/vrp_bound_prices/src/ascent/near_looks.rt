//! Where ng-sets matter: before each stop, the places from which ng-sets forbid the arc to it, or which leave something
//! remembered.
ghost use Rattle.std.specs.Prelude.{◌≡◌, ◌<◌};
ghost use Rattle.vrp_model.specs.Problem.{place_count};

use std::alloc::Global;
use vrp_model::{Instance, MOST_NEAR, NgSets, NoMemory};

/// The bits of the customers near a place in an ng-set.
pub(crate) const BITS: [usize; MOST_NEAR] = [1, 2, 4, 8];

/// An arc to a stop.
#[derive(Clone, Copy, Debug)]
pub(crate) struct NearLook {
    /// The place where the arc begins.
    pub(crate) at: u16,
    /// The ng-set there.
    pub(crate) ng_set: u8,
    /// The greatest ng-set at the stop that leads to no more than this one at the place.
    pub(crate) most: u8,
}

/// The looks that take ng-sets into account, by stop: what the tables need of the ng-sets of an instance's walks.
#[derive(Debug, Drop)]
pub struct NearLooks {
    places: usize,
    // The number of ng-sets.
    masks: usize,
    looks: Vec<NearLook>,
    // Where the looks of each stop begin, and finally where all end.
    starts: Vec<usize>,
    // By stop, then by place: whether the arc to the stop is allowed for any ng-set there and leaves nothing remembered.
    far: Vec<bool>,
}

impl NearLooks {
    /// The looks of the ng-sets of an instance's walks. The contract leaves open which they are.
    pub fn new(alloc: Global, instance: &Instance, ng_sets: &NgSets) -> Result<NearLooks, NoMemory>
        requires places { ng_sets.now.places ≡ place_count instance.now }
    {
        let places = usize::from(instance.customers()) + 1;
        let mut near = NearLooks {
            places,
            masks: ng_sets.masks(),
            looks: Vec::new(alloc),
            starts: Vec::with_capacity(alloc, places + 1)?,
            far: Vec::with_capacity(alloc, places * places)?,
        };
        for stop in 0..instance.customers() + 1 {
            near.push_stop(instance, ng_sets, stop)?;
        }
        near.starts.push(near.looks.len())?;
        Ok(near)
    }

    // Adds the looks before a stop. A tour needs no ng-set at the depot, and a walk that is home has none.
    fn push_stop(
        &mut self,
        instance: &Instance,
        ng_sets: &NgSets,
        stop: u16,
    ) -> Result<(), NoMemory>
        requires places { ng_sets.now.places ≡ place_count instance.now }
        requires stop { stop < place_count instance.now }
    {
        self.starts.push(self.looks.len())?;
        for at in 0..instance.customers() + 1 {
            let before = ng_sets.before(at, stop);
            let is_far = at == 0 || stop == 0 || before.last() == Some(&0);
            self.far.push(is_far)?;
            if !is_far {
                self.push_looks(at, before)?;
            }
        }
        Ok(())
    }

    // Adds the looks from a place, by the ng-set there for each ng-set at the stop.
    fn push_looks(&mut self, at: u16, before: &[u8]) -> Result<(), NoMemory> {
        for (most, &ng_set) in before.iter().enumerate() {
            if usize::from(ng_set) < self.masks && is_most(before, most, ng_set) {
                let most = u8::try_from(most).unwrap_or(0);
                self.looks.push(NearLook { at, ng_set, most })?;
            }
        }
        Ok(())
    }

    /// The looks before a stop.
    pub(crate) fn of(&self, stop: usize) -> &[NearLook] {
        let start = self.starts.get(stop).copied().unwrap_or(0);
        let end = self.starts.get(stop.saturating_add(1)).copied();
        self.looks
            .as_slice()
            .get(start..end.unwrap_or(0))
            .unwrap_or(&[])
    }

    /// By stop, then by place: whether ng-sets don't matter between the place and the stop.
    pub(crate) fn far(&self) -> &[bool] {
        self.far.as_slice()
    }

    /// Whether ng-sets don't matter between a place and the stop after it.
    pub(crate) fn is_far(&self, place: usize, stop: usize) -> bool {
        let pair = stop.saturating_mul(self.places).saturating_add(place);
        self.far.get(pair).copied().unwrap_or(false)
    }

    /// The number of ng-sets.
    pub(crate) fn masks(&self) -> usize {
        self.masks
    }

    /// The number of looks that ng-sets take for each load: those here, plus those from each ng-set of each place to the ones
    /// with one customer less. 0 if walks remember nothing. The contract leaves the number open.
    pub fn count(&self) -> u64 {
        let size = u64::from(self.masks.trailing_zeros());
        let lesser = (self.masks as u64)
            .saturating_mul(size)
            .saturating_mul(self.places as u64)
            / 2;
        lesser.saturating_add(self.looks.len() as u64)
    }
}

// Whether no ng-set larger than this one leads to the same ng-set before.
fn is_most(before: &[u8], most: usize, ng_set: u8) -> bool {
    for bit in BITS {
        if most & bit == 0 && before.get(most | bit) == Some(&ng_set) {
            return false;
        }
    }
    true
}
