//! Routes as pairs of labels that meet at an arc, or as one label with the arc home.

use crate::pricing::bands::{BestPartner, LabelBands, Partner};
use crate::pricing::closed_labels::ClosedLabels;
use crate::pricing::join_shares::{
    JoinShare, LABELS_OF_BLOCK, gather, new_join_shares, turns_of_block,
};
use crate::pricing::label::{Label, NO_LABEL};
use crate::pricing::price_table::PriceTable;
use crate::pricing::pricer::{Limit, RoutePricer};
use std::thread::{Threads, for_each_mut};
use vrp_model::{Crew, NoMemory, Watch};

// The number of joins at which the costlier ones are dropped, and the number that are left then.
const MANY: usize = 20_000;

const ENOUGH: usize = 2_000;

// A worker is called for so many labels: with fewer the new thread would cost more than it saves.
const LABELS_EACH: usize = 128;

/// A route: a label, and the label that it meets, or `NO_LABEL` if it goes home. They are compared by cost.
#[derive(Clone, Copy, Debug, PartialEq, Eq, PartialOrd, Ord)]
pub struct Join {
    /// The reduced cost, in half price units.
    pub cost: i64,
    pub head: u32,
    pub tail: u32,
}

/// The joins by rising cost, or the limit that was met.
#[derive(Drop)]
pub enum Joining {
    Joined(Vec<Join>),
    Met(Limit),
}

/// What labels are joined by.
#[derive(Drop)]
pub struct Joiner<'a> {
    pub pricer: &'a RoutePricer,
    pub prices: &'a PriceTable<'a>,
    pub closed: &'a ClosedLabels,
    // None if labels only go home.
    pub bands: Option<LabelBands>,
}

impl Joiner<'_> {
    /// For each label the cheapest route that it begins, if that costs at most this much. Of very many only the cheapest stay. The joins are
    /// the same for any number of workers.
    pub fn join_all<R: Threads + Sync, W: Watch>(
        &self,
        crew: &Crew<'_, R, W>,
        most_cost: i64,
    ) -> Result<Joining, NoMemory> {
        let mut joins = Vec::new(crew.alloc);
        let mut fresh = Vec::new(crew.alloc);
        let mut shares = new_join_shares(crew.alloc, crew.workers)?;
        let mut most = most_cost;
        for block in 0..self.closed.all().len().div_ceil(LABELS_OF_BLOCK) {
            if !crew.watch.should_continue() {
                return Ok(Joining::Met(Limit::Stopped));
            }
            self.share_block(crew, shares.as_mut_slice(), block, most);
            gather(&mut fresh, shares.as_slice())?;
            most = add_joins(&mut joins, &fresh, most)?;
        }
        joins.sort_unstable();
        Ok(Joining::Joined(joins))
    }

    // Has the workers join the labels of a block, each those that it takes.
    fn share_block<R: Threads + Sync, W>(
        &self,
        crew: &Crew<'_, R, W>,
        shares: &mut [JoinShare],
        block: usize,
        most_cost: i64,
    ) {
        let first = block.saturating_mul(LABELS_OF_BLOCK);
        let enough = self.closed.labels_from(first, LABELS_OF_BLOCK).len() / LABELS_EACH;
        let turns = turns_of_block(block);
        for_each_mut(
            crew.rt,
            shares,
            enough.min(usize::from(crew.workers)).max(1),
            &|_, share: &mut JoinShare| share.work(self, most_cost, &turns),
        );
    }

    /// The cheapest route that a label begins, if that costs at most this much.
    pub fn cheapest_join(&self, label: &Label, head: u32, most_cost: i64) -> Option<Join> {
        let mut best = None;
        let mut below = most_cost.saturating_add(1);
        let followers = self.prices.followers(label.at);
        if followers.contains(0) {
            let cost = label.cost.wrapping_add(self.prices.arc(label.at, 0));
            if cost < below {
                below = cost;
                best = Some(Join {
                    cost,
                    head,
                    tail: NO_LABEL,
                });
            }
        }
        let Some(bands) = &self.bands else {
            return best;
        };
        for place in followers.iter() {
            if let Some((cost, tail)) = self.cheapest_partner(bands, label, place, below) {
                below = cost;
                best = Some(Join { cost, head, tail });
            }
        }
        best
    }

    // The cheapest route of a label that goes on to another label at this place, if it costs less than this: its cost, and the other label.
    #[inline(always)]
    fn cheapest_partner(
        &self,
        bands: &LabelBands,
        label: &Label,
        place: u16,
        below: i64,
    ) -> Option<(i64, u32)> {
        if place == label.at || label.mask & self.pricer.masks().bit(label.at, place) != 0 {
            return None;
        }
        let before = label.cost.wrapping_add(self.prices.arc(label.at, place));
        let room = self.pricer.capacity().saturating_sub(label.load);
        let most_load = room.min(label.load);
        let budget = below.saturating_sub(before);
        if self.closed.least_up_to(most_load, place) >= budget {
            return None;
        }
        let partner = Partner {
            place,
            most_load,
            mask: self.pricer.masks().after(label.at, place, label.mask),
            rows: label.rows,
        };
        let found = bands.cheapest(
            self.prices,
            &partner,
            BestPartner {
                cost: budget,
                number: NO_LABEL,
            },
        );
        if found.number == NO_LABEL {
            return None;
        }
        Some((before.wrapping_add(found.cost), found.number))
    }
}

// Adds those of the fresh joins that cost at most this much, and drops the costlier ones if there are very many. What a further join may
// cost at most.
fn add_joins(joins: &mut Vec<Join>, fresh: &[Join], most_cost: i64) -> Result<i64, NoMemory> {
    let mut most = most_cost;
    for join in fresh {
        if join.cost <= most {
            joins.push(*join)?;
            most = most_kept(joins, most);
        }
    }
    Ok(most)
}

// Drops the costlier joins if there are very many. What a further join may cost at most.
fn most_kept(joins: &mut Vec<Join>, most_cost: i64) -> i64 {
    if joins.len() <= MANY {
        return most_cost;
    }
    joins.sort_unstable();
    joins.truncate(ENOUGH);
    match joins.last() {
        Some(join) => join.cost,
        None => most_cost,
    }
}
