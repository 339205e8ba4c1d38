//! The closure of labels: by rising load each label is extended that no kept label dominates.

use crate::pricing::closed_labels::ClosedLabels;
use crate::pricing::label::{Label, NO_LABEL};
use crate::pricing::label_shares::{KeptLabels, LabelShare, new_label_shares};
use crate::pricing::onward::OnwardTable;
use crate::pricing::price_table::PriceTable;
use crate::pricing::pricer::{Effort, Limit, RoutePricer};
use crate::pricing::turns::Turns;
use std::thread::{Threads, for_each_mut};
use vrp_duals::RowSet;
use vrp_model::{Crew, NoMemory, Watch};

// The number of labels that are kept at a place and load with little effort.
const FEW: usize = 6;

// A worker is called for so many labels to extend: with fewer the new thread would cost more than it saves.
const LABELS_EACH: usize = 2_048;

/// The closed labels, or the limit that was met.
#[derive(Drop)]
pub enum Closing {
    Closed(ClosedLabels),
    Met(Limit),
}

/// What labels are closed by. Only labels are kept that may lead to a route of at most a cost.
#[derive(Drop)]
pub struct Closer<'a> {
    pub pricer: &'a RoutePricer,
    pub prices: &'a PriceTable<'a>,
    // None if the rest of a route is not looked at.
    pub onward: Option<OnwardTable>,
    pub effort: Effort,
    // In half price units.
    pub most_cost: i64,
}

// The extension of labels of a load at one place to another.
#[derive(Clone, Copy)]
struct Step {
    from: u16,
    to: u16,
    // The loads before and after.
    before: u16,
    load: u16,
    // What the longer labels may cost at most.
    most_cost: i64,
}

impl Closer<'_> {
    /// The labels that no other dominates, as many at a place and load as the effort says. If routes cost the same either way, only labels
    /// of at most half the capacity, or that exceed it by their last customer alone, are made: two of them make a route. At most about
    /// `most_labels` labels are kept. Once for each load the watch is asked whether to go on. The labels are the same for any number of
    /// workers.
    pub fn close<R: Threads + Sync, W: Watch>(
        &self,
        crew: &Crew<'_, R, W>,
        most_labels: usize,
    ) -> Result<Closing, NoMemory> {
        let mut closed = ClosedLabels::new(crew.alloc, self.pricer.places());
        let mut shares = new_label_shares(crew.alloc, crew.workers)?;
        for load in 0..self.pricer.loads() {
            if !crew.watch.should_continue() {
                return Ok(Closing::Met(Limit::Stopped));
            }
            self.share_load(crew, &closed, shares.as_mut_slice(), load);
            if !self.close_load(&mut closed, shares.as_mut_slice(), load, most_labels)? {
                return Ok(Closing::Met(Limit::Labels));
            }
        }
        Ok(Closing::Closed(closed))
    }

    // Has the workers make the labels of a load, each those of the places that it takes. They depend on smaller loads alone.
    fn share_load<R: Threads + Sync, W>(
        &self,
        crew: &Crew<'_, R, W>,
        closed: &ClosedLabels,
        shares: &mut [LabelShare],
        load: u16,
    ) {
        let turns = Turns::new(0, usize::from(self.pricer.places()));
        let enough = self.count_extended(closed, load) / LABELS_EACH;
        for_each_mut(
            crew.rt,
            shares,
            enough.min(usize::from(crew.workers)).max(1),
            &|_, share: &mut LabelShare| share.work(self, closed, load, &turns),
        );
    }

    // How many labels there are where labels of a load come from.
    fn count_extended(&self, closed: &ClosedLabels, load: u16) -> usize {
        let mut extended = 0usize;
        for place in 0..self.pricer.places() {
            if self.has_labels(load, place) {
                let before = load.saturating_sub(self.pricer.demand(place));
                extended = extended.saturating_add(closed.count(before));
            }
        }
        extended
    }

    // Closes the labels that the workers made of a load. False if there are too many labels then.
    fn close_load(
        &self,
        closed: &mut ClosedLabels,
        shares: &mut [LabelShare],
        load: u16,
        most_labels: usize,
    ) -> Result<bool, NoMemory> {
        for place in 0..self.pricer.places() {
            closed.begin_bucket()?;
            give_place(closed, shares, place)?;
            closed.end_bucket(load, place)?;
            if closed.all().len() > most_labels {
                return Ok(false);
            }
        }
        closed.end_load()?;
        Ok(true)
    }

    /// Keeps the labels of a load at a place.
    pub fn close_place(
        &self,
        closed: &ClosedLabels,
        candidates: &mut Vec<Label>,
        kept: &mut KeptLabels,
        load: u16,
        place: u16,
    ) -> Result<(), NoMemory> {
        if self.has_labels(load, place) {
            self.find_candidates(closed, candidates, load, place)?;
            candidates.sort_unstable_by_key(|label| label.cost);
            self.keep_undominated(closed, candidates, kept, load, place)?;
        }
        Ok(())
    }

    // Whether labels of a load are made at a place.
    fn has_labels(&self, load: u16, place: u16) -> bool {
        let demand = self.pricer.demand(place);
        let most = u32::from(self.pricer.capacity()) + u32::from(demand);
        let light = !self.prices.symmetric() || 2 * u32::from(load) <= most;
        place != 0 && demand <= load && light
    }

    // Adds the labels of a load and a place that extend closed ones.
    fn find_candidates(
        &self,
        closed: &ClosedLabels,
        candidates: &mut Vec<Label>,
        load: u16,
        place: u16,
    ) -> Result<(), NoMemory> {
        let most_cost = self.most_cost_before(load, place);
        let leaders = self.prices.leaders(place);
        if load == self.pricer.demand(place) {
            if leaders.contains(0) {
                self.offer_first(candidates, load, place, most_cost)?;
            }
            return Ok(());
        }
        let before = load.saturating_sub(self.pricer.demand(place));
        for from in leaders.intersection(closed.reached(before)).iter() {
            let step = Step {
                from,
                to: place,
                before,
                load,
                most_cost,
            };
            self.extend_bucket(closed, candidates, step)?;
        }
        Ok(())
    }

    // What a label of a load and a place may cost at most.
    fn most_cost_before(&self, load: u16, place: u16) -> i64 {
        match &self.onward {
            Some(onward) => {
                let room = self.pricer.capacity().saturating_sub(load);
                self.most_cost.saturating_sub(onward.least(room, place))
            }
            None => i64::MAX,
        }
    }

    // Offers the label of a first customer.
    fn offer_first(
        &self,
        candidates: &mut Vec<Label>,
        load: u16,
        place: u16,
        most_cost: i64,
    ) -> Result<(), NoMemory> {
        let (rows, due) = self.prices.turned(place, RowSet::empty());
        let cost = self.prices.arc(0, place).wrapping_add(due);
        if cost > most_cost {
            return Ok(());
        }
        self.offer(
            candidates,
            Label {
                rows,
                cost,
                previous: NO_LABEL,
                load,
                at: place,
                mask: 0,
            },
        )
    }

    // Offers the extensions of the labels of a bucket, which come by rising cost.
    #[inline(always)]
    fn extend_bucket(
        &self,
        closed: &ClosedLabels,
        candidates: &mut Vec<Label>,
        step: Step,
    ) -> Result<(), NoMemory> {
        let arc = self.prices.arc(step.from, step.to);
        let bit = self.pricer.masks().bit(step.from, step.to);
        let start = closed.start(step.before, step.from);
        for (index, label) in closed.bucket(step.before, step.from).iter().enumerate() {
            let least = label.cost.wrapping_add(arc);
            if least > step.most_cost {
                break;
            }
            if label.mask & bit == 0 {
                let number = u32::try_from(start.wrapping_add(index)).unwrap_or(NO_LABEL);
                self.offer_extension(candidates, step, label, least, number)?;
            }
        }
        Ok(())
    }

    // Offers the extension of a label, whose cost is this before its rows are due.
    #[inline(always)]
    fn offer_extension(
        &self,
        candidates: &mut Vec<Label>,
        step: Step,
        label: &Label,
        least: i64,
        number: u32,
    ) -> Result<(), NoMemory> {
        let (rows, due) = self.prices.turned(step.to, label.rows);
        let cost = least.wrapping_add(due);
        if cost > step.most_cost {
            return Ok(());
        }
        self.offer(
            candidates,
            Label {
                rows,
                cost,
                previous: number,
                load: step.load,
                at: step.to,
                mask: self.pricer.masks().after(step.from, step.to, label.mask),
            },
        )
    }

    // Adds a label. If one is enough, only the cheapest stays.
    #[inline(always)]
    fn offer(&self, candidates: &mut Vec<Label>, label: Label) -> Result<(), NoMemory> {
        if self.effort == Effort::OneLabel {
            if let Some(best) = candidates.first() {
                if best.cost <= label.cost {
                    return Ok(());
                }
            }
            candidates.clear();
        }
        candidates.push(label)?;
        Ok(())
    }

    // Keeps each candidate that no kept label dominates, while the effort allows more.
    fn keep_undominated(
        &self,
        closed: &ClosedLabels,
        candidates: &[Label],
        kept: &mut KeptLabels,
        load: u16,
        place: u16,
    ) -> Result<(), NoMemory> {
        let (most, cheaper) = match self.effort {
            Effort::OneLabel => (1, closed.least_before(load, place)),
            Effort::FewLabels => (FEW, i64::MAX),
            Effort::AllLabels => (usize::MAX, i64::MAX),
        };
        for label in candidates {
            if kept.newest().len() >= most || label.cost >= cheaper {
                break;
            }
            if !self.is_dominated(closed, kept.newest(), label) {
                kept.push(*label)?;
            }
        }
        Ok(())
    }

    // Whether a kept label of the same place and no greater load dominates a label. The newest are looked at first, since they are most
    // like it.
    fn is_dominated(&self, closed: &ClosedLabels, newest: &[Label], label: &Label) -> bool {
        if self.is_dominated_in(newest, label) {
            return true;
        }
        if self.effort == Effort::OneLabel
            || closed.least_before(label.load, label.at) > label.cost
        {
            return false;
        }
        for load in (self.pricer.demand(label.at)..label.load).rev() {
            if closed.least(load, label.at) <= label.cost
                && self.is_dominated_in(closed.bucket(load, label.at), label)
            {
                return true;
            }
        }
        false
    }

    // Whether one of these labels, which come by rising cost, dominates a label.
    #[inline(always)]
    fn is_dominated_in(&self, labels: &[Label], label: &Label) -> bool {
        for other in labels {
            if other.cost > label.cost {
                return false;
            }
            if self.prices.dominates(other, label) {
                return true;
            }
        }
        false
    }
}

// Closes the labels of a place, which the worker has who took it.
fn give_place(
    closed: &mut ClosedLabels,
    shares: &mut [LabelShare],
    place: u16,
) -> Result<(), NoMemory> {
    for index in 0..shares.len() {
        shares[index].give(closed, place)?;
    }
    Ok(())
}
