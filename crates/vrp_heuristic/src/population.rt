//! A population: good plans that differ, each as a giant tour.
ghost use Rattle.std.specs.Prelude.{◌<◌};

use crate::giant_tour::{giant_tour, place_ranks};
use crate::random::Random;
use crate::surroundings::Surroundings;
use std::alloc::Global;
use std::marker::Model;
use vrp_model::NoMemory;

// The most plans of a population.
const MOST_PLANS: usize = 16;

// Plans are close if at most one customer in this many has another neighbour on one giant tour than on the other.
const CLOSE: u64 = 25;

/// Plans that may be parents. No clause pins which plans are kept.
#[derive(Drop)]
pub(crate) struct Population {
    customers: u16,
    // By place.
    ranks: Vec<u16>,
    // By plan.
    costs: Vec<u64>,
    // Row by row: for each plan, its giant tour.
    tours: Vec<u16>,
}

impl Model for Population {
    ghost use Rattle.std.specs.Prelude.{ℕ, length};
    ghost use Rattle.vrp_heuristic.specs.Inner.Tables.{IsTableOfTours};

    // The number of plans.
    ghost Value = { ℕ };

    ghost view = { λ a. length a.costs.items };

    ghost invariant = { λ a. IsTableOfTours a.customers (length a.costs.items) (length a.tours.items) };
}

/// A plan of a population, and how many customers have another neighbour on its tour than on a given one.
#[derive(Clone, Copy)]
struct Closest {
    index: usize,
    distance: u64,
}

impl Population {
    /// No plans.
    pub(crate) fn new(alloc: Global, setting: &Surroundings<'_>) -> Result<Population, NoMemory> {
        let customers = setting.instance().customers();
        Ok(Population {
            customers,
            ranks: place_ranks(alloc, setting.near(), customers + 1)?,
            costs: Vec::with_capacity(alloc, MOST_PLANS)?,
            tours: Vec::with_capacity(alloc, MOST_PLANS * usize::from(customers))?,
        })
    }

    /// The giant tours of two plans at random, each the cheaper one of two. Without plans they are empty.
    pub(crate) fn parents(&self, random: &mut Random) -> (&[u16], &[u16]) {
        if self.costs.is_empty() {
            return (&[], &[]);
        }
        let one = self.drawn(random);
        let other = self.drawn(random);
        (self.tour(one), self.tour(other))
    }

    /// Adds a plan that serves all customers, by its word. A full population, or a plan that is close, takes it only in place of a costlier
    /// plan: the close one, or else the costliest.
    pub(crate) fn add(&mut self, alloc: Global, word: &[u16], cost: u64) -> Result<(), NoMemory> {
        let tour = giant_tour(alloc, word, &self.ranks)?;
        let Closest { index, distance } = self.closest(alloc, &tour)?;
        if distance <= u64::from(self.customers) / CLOSE {
            self.replace(index, &tour, cost);
        } else if self.costs.len() >= MOST_PLANS {
            let costliest = self.costliest();
            self.replace(costliest, &tour, cost);
        } else if tour.len() == usize::from(self.customers) {
            self.tours.extend_from_slice(&tour)?;
            self.costs.push(cost)?;
        }
        Ok(())
    }

    // Puts a plan in the place of another one, if it costs less.
    fn replace(&mut self, index: usize, tour: &[u16], cost: u64) {
        let customers = usize::from(self.customers);
        if index >= self.costs.len() || cost >= self.costs[index] || tour.len() != customers {
            return;
        }
        self.costs[index] = cost;
        let start = index * customers;
        self.tours.as_mut_slice()[start..start + customers].copy_from_slice(tour);
    }

    // The giant tour of a plan.
    fn tour(&self, index: usize) -> &[u16]
        requires { index < self.now }
    {
        let customers = usize::from(self.customers);
        let start = index * customers;
        &self.tours[start..start + customers]
    }

    // A plan at random: the cheaper one of two.
    fn drawn(&self, random: &mut Random) -> usize
        requires { 0 < self.now }
        ensures { result < self.now }
    {
        let count = self.costs.len() as u16;
        let one = usize::from(random.below(count));
        let other = usize::from(random.below(count));
        if self.costs[one] <= self.costs[other] {
            one
        } else {
            other
        }
    }

    // The plan that is closest to a tour. The distance of none is infinite.
    fn closest(&self, alloc: Global, tour: &[u16]) -> Result<Closest, NoMemory> {
        let positions = positions_on(alloc, tour, self.customers)?;
        let mut closest = Closest {
            index: 0,
            distance: u64::MAX,
        };
        for index in 0..self.costs.len() {
            let distance = distance_between(self.tour(index), &positions);
            if distance < closest.distance {
                closest = Closest { index, distance };
            }
        }
        Ok(closest)
    }

    // The costliest plan.
    fn costliest(&self) -> usize {
        let mut costliest = 0;
        let mut most = 0;
        for index in 0..self.costs.len() {
            if self.costs[index] > most {
                most = self.costs[index];
                costliest = index;
            }
        }
        costliest
    }
}

// The position of each place on a tour.
fn positions_on(alloc: Global, tour: &[u16], customers: u16) -> Result<Vec<usize>, NoMemory> {
    let mut positions = Vec::from_elem(alloc, 0, usize::from(customers) + 1)?;
    for index in 0..tour.len() {
        let place = usize::from(tour[index]);
        if place < positions.len() {
            positions[place] = index;
        }
    }
    Ok(positions)
}

// How many customers of a tour have another neighbour before them than on the tour with these positions.
fn distance_between(tour: &[u16], positions: &[usize]) -> u64 {
    let mut distance: u64 = 0;
    let mut last = 0;
    for place in tour {
        let position = positions.get(usize::from(*place)).copied().unwrap_or(0);
        if position.abs_diff(last) != 1 {
            distance = distance.saturating_add(1);
        }
        last = position;
    }
    distance
}
