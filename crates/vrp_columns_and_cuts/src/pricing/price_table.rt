//! What labels pay under dual prices, and the arcs that they go along.
ghost use Rattle.std.specs.Prelude.{◌<◌};

use crate::pricing::label::Label;
use crate::pricing::symmetry::{follows, is_symmetric};
use std::alloc::Global;
use vrp_duals::{FoldedDuals, RowSet};
use vrp_model::{CustomerSet, NoMemory};

/// The prices of arcs and rows in half price units, and the arcs that are alive. If routes cost the same either way, an arc and its reverse
/// share their prices: so do a walk and the same walk backward.
#[derive(Drop)]
pub struct PriceTable<'a> {
    duals: &'a FoldedDuals,
    places: usize,
    // By the place that an arc goes to, then by the place that it comes from.
    arcs: Vec<i64>,
    // By place.
    members: Vec<RowSet>,
    // By place.
    memories: Vec<RowSet>,
    // For each place those that may come next.
    followers: &'a [CustomerSet],
    // For each place those that may come before.
    leaders: Vec<CustomerSet>,
    symmetric: bool,
}

impl<'a> PriceTable<'a> {
    /// The table of these prices and arcs.
    pub fn new(
        alloc: Global,
        duals: &'a FoldedDuals,
        followers: &'a [CustomerSet],
    ) -> Result<PriceTable<'a>, NoMemory> {
        let symmetric = is_symmetric(duals, followers);
        let mut table = PriceTable {
            duals,
            places: usize::from(duals.places()),
            arcs: Vec::new(alloc),
            members: Vec::new(alloc),
            memories: Vec::new(alloc),
            followers,
            leaders: Vec::new(alloc),
            symmetric,
        };
        for place in 0..duals.places() {
            table.members.push(duals.members(place))?;
            table.memories.push(duals.memories(place))?;
            table.leaders.push(leaders_of(duals, followers, place))?;
            push_arcs(&mut table.arcs, duals, symmetric, place)?;
        }
        Ok(table)
    }

    /// Whether routes cost the same either way.
    pub fn symmetric(&self) -> bool {
        self.symmetric
    }

    /// The price of an arc, 0 if there is no such arc.
    #[inline(always)]
    pub fn arc(&self, from: u16, to: u16) -> i64 {
        let at = usize::from(to)
            .wrapping_mul(self.places)
            .wrapping_add(usize::from(from));
        self.arcs.get(at).copied().unwrap_or(0)
    }

    /// The places that may come next after a place.
    #[inline(always)]
    pub fn followers(&self, place: u16) -> CustomerSet {
        match self.followers.get(usize::from(place)) {
            Some(set) => *set,
            None => CustomerSet::empty(),
        }
    }

    /// The places that may come before a place.
    #[inline(always)]
    pub fn leaders(&self, place: u16) -> CustomerSet {
        match self.leaders.get(usize::from(place)) {
            Some(set) => *set,
            None => CustomerSet::empty(),
        }
    }

    /// The rows in state 1 after a stop, if these are so before it, and what is due there.
    #[inline(always)]
    pub fn turned(&self, stop: u16, rows: RowSet) -> (RowSet, i64) {
        let at = usize::from(stop);
        let members = set_at(&self.members, at);
        let kept = rows.intersection(set_at(&self.memories, at));
        let due = self.due(rows.intersection(members));
        (kept.symmetric_difference(members), due)
    }

    /// What is due where two walks meet that have these rows in state 1.
    #[inline(always)]
    pub fn due_at_meeting(&self, rows: RowSet, other: RowSet) -> i64 {
        self.due(rows.intersection(other))
    }

    /// Whether a label is at least as good as another, if it is no heavier.
    #[inline(always)]
    pub fn dominates(&self, label: &Label, other: &Label) -> bool {
        if label.cost > other.cost || label.mask & !other.mask != 0 {
            return false;
        }
        let both = label.rows.intersection(other.rows);
        let more = label.rows.symmetric_difference(both);
        if more.is_empty() {
            return true;
        }
        let gap = other.cost.saturating_sub(label.cost);
        self.duals.weighs_at_most(more, gap.unsigned_abs() / 2)
    }

    // What rows cost together.
    #[inline(always)]
    fn due(&self, rows: RowSet) -> i64 {
        let sum = self.duals.weigh(rows) as i64;
        sum.wrapping_mul(2)
    }
}

// The set of a place.
#[inline(always)]
fn set_at(sets: &[RowSet], at: usize) -> RowSet {
    match sets.get(at) {
        Some(set) => *set,
        None => RowSet::empty(),
    }
}

// The places that may come before a place.
fn leaders_of(duals: &FoldedDuals, followers: &[CustomerSet], place: u16) -> CustomerSet {
    let mut leaders = CustomerSet::empty();
    for from in 0..duals.places() {
        if from != place && follows(followers, from, place) {
            leaders = leaders.with(from);
        }
    }
    leaders
}

// Adds the prices of the arcs to a place.
fn push_arcs(
    arcs: &mut Vec<i64>,
    duals: &FoldedDuals,
    symmetric: bool,
    to: u16,
) -> Result<(), NoMemory>
    requires { to < duals.now.places }
{
    for from in 0..duals.places() {
        let forward = duals.arc_price(from, to);
        let backward = if symmetric {
            duals.arc_price(to, from)
        } else {
            forward
        };
        arcs.push(forward.wrapping_add(backward))?;
    }
    Ok(())
}
