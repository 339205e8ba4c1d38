//! What the tests share: small random instances with dual prices.

use std::alloc::Global;
use std::process::Abort;
use test_fixtures::{Random, one_each, with_arcs};
use vrp_columns_and_cuts::RoutePricer;
use vrp_duals::{Duals, EntryRow, FoldedDuals, SubsetRow};
use vrp_model::{CustomerSet, Instance};

/// The places of each instance.
pub(crate) const PLACES: usize = 7;

/// The capacity of each truck.
pub(crate) const CAPACITY: u32 = 6;

/// Which arcs there are.
#[derive(Clone, Copy, Debug, PartialEq, Eq)]
pub(crate) enum Arcs {
    /// They cost the same both ways.
    Symmetric,
    /// Each direction has its own cost.
    Directed,
    /// They cost the same both ways, but some lead one way only.
    OneWay,
}

/// A game: prices, demands, near customers and the arcs that are alive.
#[derive(Drop)]
pub(crate) struct Game {
    pub(crate) folded: FoldedDuals,
    pub(crate) demands: Vec<u32>,
    pub(crate) near: CustomerSet,
    pub(crate) followers: Vec<CustomerSet>,
}

impl Game {
    /// A random game.
    pub(crate) fn new(
        rt: &impl Abort,
        alloc: Global,
        random: &mut Random,
        arcs: Arcs,
        near: CustomerSet,
    ) -> Game {
        let instance = random_instance(rt, alloc, random, arcs);
        let duals = random_duals(rt, alloc, &instance, random);
        assert!(rt; duals.prices().len() == usize::from(instance.customers()) + 1);
        Game {
            folded: duals.fold(alloc, &instance).expect(rt, "memory"),
            demands: random_demands(rt, alloc, random),
            near,
            followers: random_followers(rt, alloc, random, arcs),
        }
    }

    /// Its pricer.
    pub(crate) fn pricer(&self, rt: &impl Abort, alloc: Global) -> RoutePricer {
        let near = vec![in alloc; self.near; PLACES].expect(rt, "memory");
        let made = RoutePricer::new(alloc, &self.demands, CAPACITY, &near);
        made.expect(rt, "memory").expect(rt, "a pricer")
    }
}

/// These places.
pub(crate) fn set_of(places: &[u16]) -> CustomerSet {
    let mut set = CustomerSet::empty();
    for &place in places {
        if place < 256 {
            set = set.with(place);
        }
    }
    set
}

// Weights below 1,000.
fn random_instance(rt: &impl Abort, alloc: Global, random: &mut Random, arcs: Arcs) -> Instance {
    let mut weights = vec![in alloc; 0u64; PLACES * PLACES].expect(rt, "memory");
    for from in 0..PLACES {
        for to in 0..from {
            let weight = u64::from(random.next() % 1_000);
            let back = u64::from(random.next() % 1_000);
            let reverse = if arcs == Arcs::Directed { back } else { weight };
            put(&mut weights, from, to, PLACES, weight);
            put(&mut weights, to, from, PLACES, reverse);
        }
    }
    let demands = one_each(alloc, PLACES).expect(rt, "demands");
    with_arcs(alloc, &weights, &demands, 6).expect(rt, "an instance")
}

/// Sets the weight of an arc among so many places.
pub(crate) fn put(weights: &mut [u64], from: usize, to: usize, places: usize, weight: u64) {
    let at = from.wrapping_mul(places).wrapping_add(to);
    if let Some(cell) = weights.get_mut(at) {
        *cell = weight;
    }
}

// From 1 to 3 for each customer.
fn random_demands(rt: &impl Abort, alloc: Global, random: &mut Random) -> Vec<u32> {
    let mut demands = Vec::new(alloc);
    demands.push(0).expect(rt, "memory");
    for _ in 1..PLACES {
        demands.push(random.next() % 3 + 1).expect(rt, "memory");
    }
    demands
}

// Prices that leave some routes cheap, two entry rows and four subset rows.
fn random_duals(rt: &impl Abort, alloc: Global, instance: &Instance, random: &mut Random) -> Duals {
    let mut prices = Vec::new(alloc);
    prices.push(0).expect(rt, "memory");
    for _ in 1..PLACES {
        prices
            .push(i64::from(random.next() % 800) + 200)
            .expect(rt, "memory");
    }
    let mut entries = Vec::new(alloc);
    for _ in 0..2 {
        let row = EntryRow {
            customers: random_set(random),
            count: 1,
            price: i64::from(random.next() % 200) - 100,
        };
        entries.push(row).expect(rt, "memory");
    }
    let mut rows = Vec::new(alloc);
    for _ in 0..4 {
        let first = (random.next() % 4 + 1) as u16;
        let customers = set_of(&[first, first + 1, first + 2]);
        let row = SubsetRow {
            customers,
            memory: customers.union(random_set(random)),
            price: u64::from(random.next() % 300),
        };
        rows.push(row).expect(rt, "memory");
    }
    Duals::new(instance, 1, prices, entries, rows).expect(rt, "dual prices")
}

// Each customer with a chance of one in two.
fn random_set(random: &mut Random) -> CustomerSet {
    let mut set = CustomerSet::empty();
    for customer in 1..7 {
        if random.next() % 2 == 0 {
            set = set.with(customer);
        }
    }
    set
}

// All arcs, or those that lead from a place to three in four others.
fn random_followers(
    rt: &impl Abort,
    alloc: Global,
    random: &mut Random,
    arcs: Arcs,
) -> Vec<CustomerSet> {
    let mut followers = Vec::new(alloc);
    for _ in 0..PLACES {
        let mut set = set_of(&[0, 1, 2, 3, 4, 5, 6]);
        if arcs == Arcs::OneWay {
            set = set.difference(random_set(random).intersection(random_set(random)));
        }
        followers.push(set).expect(rt, "memory");
    }
    followers
}
