//! The slow program: it follows every walk, stop by stop from its end, and keeps the least.
ghost use Rattle.std.specs.Prelude.{◌<◌};
ghost use Rattle.vrp_model.specs.Problem.{place_count};

use crate::assertion::assert_same;
use std::alloc::Global;
use std::process::Abort;
use vrp_bound_prices::{NO_WALK, UsedArc, Walks};
use vrp_model::Instance;

// More walks than any of these instances has.
const MOST_WALKS: u32 = 1_000_000;

// A walk home, followed from its end.
#[derive(Clone, Copy)]
struct Walk {
    at: usize,
    // The load behind the place.
    load: usize,
    // The customers remembered behind the place, as bits.
    remembered: u32,
    cost: i64,
}

// A position in tours that are followed from their end.
#[derive(Clone, Copy)]
struct Back {
    place: usize,
    // The customers that the tour remembers behind the place, as bits.
    remembered: u32,
    // The cost of the arcs still to come.
    left: i64,
    // The load behind.
    load: usize,
}

/// An instance with prices, and the least of its walks.
#[derive(Drop)]
pub(crate) struct Slow {
    places: usize,
    loads: usize,
    // How many customers are near each place, and these customers, one place after another.
    size: usize,
    near: Vec<usize>,
    demands: Vec<usize>,
    // The arcs, by place, from each to each: the weight plus the prices of both ends.
    arcs: Vec<i64>,
    // By load, then by place, then by ng-set: the least walk with exactly this ng-set.
    least: Vec<i64>,
}

impl Slow {
    /// No walks yet, for this many loads, with this many near customers for each place.
    pub(crate) fn new(
        rt: &impl Abort,
        alloc: Global,
        instance: &Instance,
        prices: &[i64],
        size: usize,
        loads: usize,
    ) -> Slow {
        let mut slow = Slow::empty(rt, alloc, instance, size, loads);
        for place in 0..instance.customers() + 1 {
            slow.push_near(rt, instance, place);
            slow.push_arcs(rt, instance, prices, place);
            slow.push_demand(rt, instance, place);
        }
        slow
    }

    fn empty(
        rt: &impl Abort,
        alloc: Global,
        instance: &Instance,
        size: usize,
        loads: usize,
    ) -> Slow {
        let places = usize::from(instance.customers()) + 1;
        let cells = loads.saturating_mul(places).saturating_mul(16);
        Slow {
            places,
            loads,
            size,
            near: Vec::new(alloc),
            demands: Vec::new(alloc),
            arcs: Vec::new(alloc),
            least: vec![in alloc; NO_WALK; cells].expect(rt, "memory"),
        }
    }

    // Adds a demand: each customer demands at least a unit.
    fn push_demand(&mut self, rt: &impl Abort, instance: &Instance, place: u16)
        requires place { place < place_count instance.now }
    {
        let demand = if place == 0 {
            0
        } else {
            instance.demand(place).max(1)
        };
        self.demands.push(demand as usize).expect(rt, "memory");
    }

    // Lists the near customers of a place: one by one the nearest of the remaining ones.
    fn push_near(&mut self, rt: &impl Abort, instance: &Instance, place: u16)
        requires place { place < place_count instance.now }
    {
        let mut listed = 1u32 << place.min(31);
        for _ in 0..self.size {
            let next = nearest(instance, place, listed);
            listed |= 1 << next.min(31);
            self.near.push(usize::from(next)).expect(rt, "memory");
        }
    }

    fn push_arcs(&mut self, rt: &impl Abort, instance: &Instance, prices: &[i64], from: u16)
        requires from { from < place_count instance.now }
    {
        for to in 0..instance.customers() + 1 {
            let weight = i64::try_from(instance.weight(from, to)).unwrap_or(0);
            let both = at(prices, usize::from(from)).saturating_add(at(prices, usize::from(to)));
            let arc = weight.saturating_add(both);
            self.arcs.push(arc).expect(rt, "memory");
        }
    }

    /// Takes an arc out: a walk over it costs as much as no walk.
    pub(crate) fn remove_arc(&mut self, from: usize, to: usize) {
        let arc = from.saturating_mul(self.places).saturating_add(to);
        if let Some(arc) = self.arcs.get_mut(arc) {
            *arc = 2 * NO_WALK;
        }
    }

    /// Follows every walk, and answers their number.
    pub(crate) fn tell_all(&mut self, rt: &impl Abort, alloc: Global) -> u32 {
        let mut stack = self.straight_home(rt, alloc);
        for count in 0..MOST_WALKS {
            let Some(walk) = stack.pop() else {
                return count;
            };
            self.keep(walk);
            self.push_longer(rt, &mut stack, walk);
        }
        panic!(rt; "too many walks");
    }

    // The walks of one arc.
    fn straight_home(&self, rt: &impl Abort, alloc: Global) -> Vec<Walk> {
        let mut walks = Vec::new(alloc);
        for at in 1..self.places {
            let walk = Walk {
                at,
                load: 0,
                remembered: 0,
                cost: self.arc(at, 0),
            };
            walks.push(walk).expect(rt, "memory");
        }
        walks
    }

    // Adds the walks with one more place before. None is before the depot.
    fn push_longer(&self, rt: &impl Abort, stack: &mut Vec<Walk>, walk: Walk) {
        let load = walk.load.saturating_add(self.demand(walk.at));
        if walk.at == 0 || load >= self.loads {
            return;
        }
        let remembered = self.remembered(walk.at, walk.remembered);
        for at in 0..self.places {
            if !has(remembered, at) {
                let longer = Walk {
                    at,
                    load,
                    remembered,
                    cost: walk.cost.saturating_add(self.arc(at, walk.at)),
                };
                stack.push(longer).expect(rt, "memory");
            }
        }
    }

    // The memory of a walk before this stop: the stop, and the customers near it that are remembered behind.
    fn remembered(&self, stop: usize, behind: u32) -> u32 {
        let mut remembered = bit(stop);
        for &customer in self.near_of(stop) {
            remembered |= behind & bit(customer);
        }
        remembered
    }

    // The remembered customers near a place, as the bits of a number. A tour needs no memory.
    fn ng_set(&self, walk: Walk) -> usize {
        let mut ng_set = 0;
        for (index, &customer) in self.near_of(walk.at).iter().enumerate() {
            if walk.at > 0 && has(walk.remembered, customer) {
                ng_set |= 1 << index.min(15);
            }
        }
        ng_set
    }

    fn near_of(&self, place: usize) -> &[usize] {
        let start = place.saturating_mul(self.size);
        let end = start.saturating_add(self.size);
        self.near.as_slice().get(start..end).unwrap_or(&[])
    }

    fn keep(&mut self, walk: Walk) {
        let cell = self.cell(walk.load, walk.at, self.ng_set(walk));
        if let Some(least) = self.least.get_mut(cell) {
            *least = walk.cost.min(*least);
        }
    }

    fn cell(&self, load: usize, place: usize, ng_set: usize) -> usize {
        let pair = load.saturating_mul(self.places).saturating_add(place);
        pair.saturating_mul(16).saturating_add(ng_set)
    }

    // The least walk that remembers no more than this ng-set.
    fn least(&self, load: usize, place: usize, ng_set: usize) -> i64 {
        let mut least = NO_WALK;
        for lesser in 0..ng_set.saturating_add(1) {
            if lesser & ng_set == lesser {
                least = least.min(at(&self.least, self.cell(load, place, lesser)));
            }
        }
        least
    }

    /// Compares every cell.
    pub(crate) fn compare_cells(&self, rt: &impl Abort, walks: &Walks) {
        for load in 0..self.loads {
            for place in 0..self.places {
                self.compare_ng_sets(rt, walks, load, place);
            }
        }
    }

    fn compare_ng_sets(&self, rt: &impl Abort, walks: &Walks, load: usize, place: usize) {
        let masks = 1usize << self.size.min(4);
        for ng_set in 0..masks {
            let cell = walks.cell(load, place, ng_set).min(NO_WALK);
            let least = self.least(load, place, ng_set);
            assert_same(rt, cell, least, (load, place, ng_set));
        }
    }

    /// The least tours with this total load.
    pub(crate) fn least_tours(&self, rt: &impl Abort, alloc: Global, whole: usize) -> Option<i64> {
        let mut tours = vec![in alloc; 0; 1].expect(rt, "memory");
        for rest in 1..whole.saturating_add(1) {
            let least = self.least_split(&tours, rest);
            tours.push(least).expect(rt, "memory");
        }
        let least = at(&tours, whole);
        if least < NO_WALK { Some(least) } else { None }
    }

    // The least tours that carry the rest, from those that carry less.
    fn least_split(&self, tours: &[i64], rest: usize) -> i64 {
        let mut least = NO_WALK;
        for load in 1..self.loads.min(rest.saturating_add(1)) {
            let others = at(tours, rest.saturating_sub(load));
            let tour = self.least(load, 0, 0);
            if tour < NO_WALK && others < NO_WALK {
                least = least.min(tour.saturating_add(others));
            }
        }
        least
    }

    /// Checks that the arcs are those of ng-tours with this cost and load.
    pub(crate) fn compare_used(&self, rt: &impl Abort, used: &[UsedArc], cost: i64, whole: usize) {
        let mut back = Back {
            place: 0,
            remembered: 0,
            left: cost,
            load: 0,
        };
        for &arc in used.iter().rev() {
            back = self.before(rt, back, arc);
        }
        let end = (back.place, back.left, back.load);
        assert_same(rt, end, (0, 0, whole), used.len());
    }

    // The position one arc further back; its place must not be remembered behind it.
    fn before(&self, rt: &impl Abort, back: Back, arc: UsedArc) -> Back {
        assert_same(rt, arc.to, back.place, arc);
        let remembered = if arc.to == 0 {
            0
        } else {
            self.remembered(arc.to, back.remembered)
        };
        assert_same(rt, has(remembered, arc.from), false, arc);
        Back {
            place: arc.from,
            remembered,
            left: back.left.saturating_sub(self.arc(arc.from, arc.to)),
            load: back.load.saturating_add(self.demand(arc.to)),
        }
    }

    fn arc(&self, from: usize, to: usize) -> i64 {
        at(
            &self.arcs,
            from.saturating_mul(self.places).saturating_add(to),
        )
    }

    fn demand(&self, place: usize) -> usize {
        self.demands.get(place).copied().unwrap_or(0)
    }
}

// The nearest customer of a place that is not yet listed, or the depot if there is none.
fn nearest(instance: &Instance, place: u16, listed: u32) -> u16
    requires place { place < place_count instance.now }
{
    let mut nearest = 0;
    let mut weight = u64::MAX;
    for customer in 1..instance.customers() + 1 {
        if !has(listed, usize::from(customer)) && instance.weight(place, customer) < weight {
            nearest = customer;
            weight = instance.weight(place, customer);
        }
    }
    nearest
}

fn bit(place: usize) -> u32 {
    1 << place.min(31)
}

fn has(places: u32, place: usize) -> bool {
    places & bit(place) != 0
}

// The number at a position of a list; 0 past its end.
fn at(values: &[i64], place: usize) -> i64 {
    values.get(place).copied().unwrap_or(0)
}
