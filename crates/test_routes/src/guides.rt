//! Guides that know nothing.

use crate::random::{pair, some_customers};
use std::alloc::{AllocError, Global};
use test_fixtures::Random;
use vrp_model::{CustomerSet, PLACES, Watch};
use vrp_partition::{Cut, Guide, PriceOffer, Route, Task};

/// Answers whether a search continues.
#[derive(Clone, Copy)]
pub(crate) struct Answering {
    pub(crate) should_continue: bool,
}

impl Watch for Answering {
    fn should_continue(&self) -> bool {
        self.should_continue
    }
}

/// The answers of a guide.
#[derive(Clone, Copy, Debug, PartialEq)]
pub(crate) enum Habit {
    /// Prices of 0.
    Zeros,
    /// Random prices and cuts, some of which are refused.
    Random,
    /// The highest duals and cuts that are admitted.
    Highest,
    /// The lowest duals.
    Lowest,
    /// Prices that are refused.
    Refused,
    /// Prices of 0, and empty groups.
    Idle,
    /// Prices of 0, and a request to stop.
    Stopping,
    /// No prices, for lack of memory.
    NoMemory,
}

/// All habits that branch.
pub(crate) const HABITS: &[Habit] = &[
    Habit::Zeros,
    Habit::Random,
    Habit::Highest,
    Habit::Lowest,
    Habit::Refused,
];

/// The customers in a guide's cuts and groups.
#[derive(Clone, Copy)]
pub(crate) enum Among {
    /// Some of random pools' customers; a group has two of them.
    Pools,
    /// Any of the first eight.
    FirstEight,
}

/// A guide with this habit.
#[derive(Drop)]
pub(crate) struct Habitual {
    pub(crate) alloc: Global,
    pub(crate) habit: Habit,
    pub(crate) among: Among,
    pub(crate) random: Random,
}

impl Habitual {
    fn dual(&mut self) -> i64 {
        match self.habit {
            Habit::Zeros | Habit::Idle | Habit::Stopping | Habit::NoMemory => 0,
            Habit::Random => i64::from(self.random.next() % (1 << 26)) - (1 << 24),
            Habit::Highest => 1 << 52,
            Habit::Lowest => -(1 << 52),
            Habit::Refused => i64::MAX,
        }
    }

    fn price(&mut self) -> u64 {
        match self.habit {
            Habit::Random => u64::from(self.random.next() % (1 << 24)),
            Habit::Highest => 1 << 50,
            _ => 0,
        }
    }

    fn some_customers(&mut self) -> CustomerSet {
        match self.among {
            Among::Pools => some_customers(&mut self.random, u32::MAX),
            Among::FirstEight => first_eight(self.random.next()),
        }
    }

    fn cuts(&mut self, counts: u32) -> Result<Vec<Cut>, AllocError> {
        let mut cuts = Vec::new(self.alloc);
        for _ in 0..2 {
            let cut = Cut {
                set: self.some_customers(),
                count: self.random.next() % counts.max(1),
                price: self.price(),
            };
            cuts.push(cut)?;
        }
        Ok(cuts)
    }
}

// Those of the first eight customers whose bits are set.
fn first_eight(bits: u32) -> CustomerSet {
    let mut set = CustomerSet::empty();
    for customer in 0..8u16 {
        if bits >> customer & 1 == 1 {
            set = set.with(customer);
        }
    }
    set
}

impl Guide for Habitual {
    fn should_continue(&self) -> bool {
        self.habit != Habit::Stopping
    }

    fn offer(&mut self, _pool: &[Route], _task: &Task<'_>) -> Result<PriceOffer, AllocError> {
        if self.habit == Habit::NoMemory {
            return Err(AllocError);
        }
        let mut duals = Vec::new(self.alloc);
        for _ in 0..PLACES {
            duals.push(self.dual())?;
        }
        Ok(PriceOffer {
            duals,
            subset_rows: self.cuts(1)?,
            capacity_cuts: self.cuts(3)?,
            truck_price: self.price(),
            work: 0,
        })
    }

    fn group(&mut self, _pool: &[Route]) -> Result<CustomerSet, AllocError> {
        if self.habit == Habit::Idle {
            return Ok(CustomerSet::empty());
        }
        match self.among {
            Among::Pools => Ok(pair(&mut self.random)),
            Among::FirstEight => Ok(self.some_customers()),
        }
    }

    fn fork(&self) -> Result<Habitual, AllocError> {
        Ok(Habitual { ..*self })
    }
}
