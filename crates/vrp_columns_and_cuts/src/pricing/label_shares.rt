//! What each worker makes of a load: the labels of the places that it takes.

use crate::pricing::closed_labels::ClosedLabels;
use crate::pricing::closing::Closer;
use crate::pricing::label::Label;
use crate::pricing::turns::Turns;
use std::alloc::Global;
use vrp_model::NoMemory;

/// The labels of a load at the places that a worker took. Its memory serves all loads.
#[derive(Drop)]
pub struct LabelShare {
    candidates: Vec<Label>,
    kept: KeptLabels,
    // How many of the kept labels are closed.
    given: usize,
    // An error if memory ran out.
    end: Result<(), NoMemory>,
}

/// The labels that are kept, by rising place, then by rising cost.
#[derive(Drop)]
pub struct KeptLabels {
    labels: Vec<Label>,
    // Where the newest place starts.
    start: usize,
}

impl KeptLabels {
    /// Adds a label of the newest place.
    pub fn push(&mut self, label: Label) -> Result<(), NoMemory> {
        self.labels.push(label)?;
        Ok(())
    }

    /// The labels of the newest place.
    #[inline(always)]
    pub fn newest(&self) -> &[Label] {
        self.from(self.start)
    }

    // The labels from this one on.
    #[inline(always)]
    fn from(&self, first: usize) -> &[Label] {
        if first <= self.labels.len() {
            &self.labels[first..]
        } else {
            &self.labels[..0]
        }
    }

    // Begins a place.
    fn begin_place(&mut self) {
        self.start = self.labels.len();
    }
}

impl LabelShare {
    // A share with nothing in it.
    fn new(alloc: Global) -> LabelShare {
        LabelShare {
            candidates: Vec::new(alloc),
            kept: KeptLabels {
                labels: Vec::new(alloc),
                start: 0,
            },
            given: 0,
            end: Ok(()),
        }
    }

    /// Takes places as long as some are left, and keeps their labels of a load.
    pub fn work(&mut self, closer: &Closer<'_>, closed: &ClosedLabels, load: u16, turns: &Turns) {
        self.kept.labels.clear();
        self.given = 0;
        self.end = self.take_places(closer, closed, load, turns);
    }

    /// Closes the labels of a place, if this worker took it. Places come by rising number.
    pub fn give(&mut self, closed: &mut ClosedLabels, place: u16) -> Result<(), NoMemory> {
        self.end?;
        for label in self.kept.from(self.given) {
            if label.at != place {
                break;
            }
            closed.push(*label)?;
            self.given = self.given.wrapping_add(1);
        }
        Ok(())
    }

    // Keeps the labels of the places that are taken.
    fn take_places(
        &mut self,
        closer: &Closer<'_>,
        closed: &ClosedLabels,
        load: u16,
        turns: &Turns,
    ) -> Result<(), NoMemory> {
        for _turn in 0..closer.pricer.places() {
            let Some(place) = turns.take() else {
                break;
            };
            let place = u16::try_from(place).unwrap_or(u16::MAX);
            self.kept.begin_place();
            self.candidates.clear();
            closer.close_place(closed, &mut self.candidates, &mut self.kept, load, place)?;
        }
        Ok(())
    }
}

/// A share for each of so many workers.
pub fn new_label_shares(alloc: Global, workers: u16) -> Result<Vec<LabelShare>, NoMemory> {
    let mut shares = Vec::new(alloc);
    for _worker in 0..workers {
        shares.push(LabelShare::new(alloc))?;
    }
    Ok(shares)
}
