//! The labels that are kept, by rising load, then by place, then by rising cost.

use crate::pricing::label::{Label, NO_LABEL};
use std::alloc::Global;
use vrp_model::{CustomerSet, NoMemory};

// No label costs so much.
const FAR: i64 = 1 << 61;

/// Labels in buckets: one for each load and place, in this order.
#[derive(Drop)]
pub struct ClosedLabels {
    places: usize,
    labels: Vec<Label>,
    // Where each bucket starts.
    starts: Vec<usize>,
    // The least cost in each bucket.
    least: Vec<i64>,
    // The least cost in each bucket and those of the same place before it.
    least_so_far: Vec<i64>,
    // The places with labels of each load, and so far of the newest load.
    reached: Vec<CustomerSet>,
    newest_reached: CustomerSet,
}

impl ClosedLabels {
    /// No labels, for this many places.
    pub fn new(alloc: Global, places: u16) -> ClosedLabels {
        ClosedLabels {
            places: usize::from(places),
            labels: Vec::new(alloc),
            starts: Vec::new(alloc),
            least: Vec::new(alloc),
            least_so_far: Vec::new(alloc),
            reached: Vec::new(alloc),
            newest_reached: CustomerSet::empty(),
        }
    }

    /// All labels. They are numbered from 0 in this order.
    #[inline(always)]
    pub fn all(&self) -> &[Label] {
        self.labels.as_slice()
    }

    /// So many labels from a number on, or as many as there are.
    pub fn labels_from(&self, first: usize, most: usize) -> &[Label] {
        let end = first.saturating_add(most).min(self.labels.len());
        self.between(first, end)
    }

    /// A label by its number.
    #[inline(always)]
    pub fn get(&self, number: u32) -> Option<&Label> {
        if number == NO_LABEL {
            return None;
        }
        self.labels.get(number as usize)
    }

    /// Begins the next bucket.
    pub fn begin_bucket(&mut self) -> Result<(), NoMemory> {
        self.starts.push(self.labels.len())?;
        Ok(())
    }

    /// Adds a label to the bucket.
    pub fn push(&mut self, label: Label) -> Result<(), NoMemory> {
        self.labels.push(label)?;
        Ok(())
    }

    /// Ends the bucket of a load and a place.
    pub fn end_bucket(&mut self, load: u16, place: u16) -> Result<(), NoMemory> {
        let before = self.least_before(load, place);
        let least = match self.newest().first() {
            Some(label) => label.cost,
            None => FAR,
        };
        if least < FAR && place < 256 {
            self.newest_reached = self.newest_reached.with(place);
        }
        self.least.push(least)?;
        self.least_so_far.push(least.min(before))?;
        Ok(())
    }

    /// Ends the buckets of a load.
    pub fn end_load(&mut self) -> Result<(), NoMemory> {
        self.reached.push(self.newest_reached)?;
        self.newest_reached = CustomerSet::empty();
        Ok(())
    }

    /// The places with labels of a load.
    #[inline(always)]
    pub fn reached(&self, load: u16) -> CustomerSet {
        match self.reached.get(usize::from(load)) {
            Some(places) => *places,
            None => CustomerSet::empty(),
        }
    }

    // The labels of the newest bucket.
    fn newest(&self) -> &[Label] {
        let start = self.starts.last().copied().unwrap_or(0);
        self.between(start, self.labels.len())
    }

    /// The labels of a load and a place.
    #[inline(always)]
    pub fn bucket(&self, load: u16, place: u16) -> &[Label] {
        let at = self.bucket_at(load, place);
        let from = self.starts.get(at).copied().unwrap_or(0);
        let to = self.starts.get(at.wrapping_add(1)).copied();
        self.between(from, to.unwrap_or(self.labels.len()))
    }

    /// The number of the first label of a load and a place.
    #[inline(always)]
    pub fn start(&self, load: u16, place: u16) -> usize {
        let at = self.bucket_at(load, place);
        self.starts.get(at).copied().unwrap_or(self.labels.len())
    }

    /// The number of labels of a load.
    pub fn count(&self, load: u16) -> usize {
        let end = self.start(load.saturating_add(1), 0);
        end.saturating_sub(self.start(load, 0))
    }

    /// The least cost of a load and a place.
    #[inline(always)]
    pub fn least(&self, load: u16, place: u16) -> i64 {
        let at = self.bucket_at(load, place);
        self.least.get(at).copied().unwrap_or(FAR)
    }

    /// The least cost at a place of this load or less.
    #[inline(always)]
    pub fn least_up_to(&self, load: u16, place: u16) -> i64 {
        let at = self.bucket_at(load, place);
        self.least_so_far.get(at).copied().unwrap_or(FAR)
    }

    /// The least cost at a place of less than this load.
    #[inline(always)]
    pub fn least_before(&self, load: u16, place: u16) -> i64 {
        if load == 0 {
            return FAR;
        }
        self.least_up_to(load - 1, place)
    }

    #[inline(always)]
    fn bucket_at(&self, load: u16, place: u16) -> usize {
        usize::from(load)
            .wrapping_mul(self.places)
            .wrapping_add(usize::from(place))
    }

    #[inline(always)]
    fn between(&self, from: usize, to: usize) -> &[Label] {
        if from <= to && to <= self.labels.len() {
            &self.labels[from..to]
        } else {
            &self.labels[..0]
        }
    }
}
