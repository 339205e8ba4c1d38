//! A plain slow program: it tries every feasible plan, its routes by rising first customer and in both directions, and keeps
//! the first.

use std::alloc::{AllocError, Global};
use vrp_model::Instance;

/// The first of the plans so far: its cost and its word.
#[derive(Debug, Drop)]
pub struct Canonical {
    pub cost: u64,
    pub word: Vec<u16>,
}

// A partial plan: its place, the first customer of the last route, the trucks left, the load of the last truck, and the cost.
#[derive(Clone, Copy, Debug)]
struct Prefix {
    at: u16,
    opened: u16,
    trucks: u16,
    load: u64,
    cost: u64,
}

// The state of the search, and the first plan so far.
#[derive(Drop)]
struct Search<'a> {
    alloc: Global,
    instance: &'a Instance,
    word: Vec<u16>,
    canonical: Option<Canonical>,
}

// The greatest number of symbols of a plan of nine customers.
const MOST_SYMBOLS: u16 = 18;

/// The canonical plan, by cost and then symbol by symbol, if any plan is feasible and its word has no more than 18 symbols.
/// No clause says so: it tries all plans, and is short enough to read.
pub fn canonical_plan(alloc: Global, instance: &Instance) -> Result<Option<Canonical>, AllocError> {
    let empty = Prefix {
        at: 0,
        opened: 0,
        trucks: instance.trucks().unwrap_or(u16::MAX),
        load: 0,
        cost: 0,
    };
    let mut search = Search {
        alloc,
        instance,
        word: Vec::new(alloc),
        canonical: None,
    };
    search.extend(empty, MOST_SYMBOLS)?;
    Ok(search.canonical)
}

impl<'a> Search<'a> {
    // Tries all plans that continue this one with at most this many symbols.
    fn extend(&mut self, prefix: Prefix, symbols: u16) -> Result<(), AllocError> {
        if symbols == 0 {
            return Ok(());
        }
        for symbol in 0..self.instance.customers() + 1 {
            if let Some(longer) = self.after(prefix, symbol) {
                self.word.push(symbol)?;
                if symbol == 0 && self.serves_all() {
                    self.keep(longer.cost)?;
                } else {
                    self.extend(longer, symbols - 1)?;
                }
                self.word.pop();
            }
        }
        Ok(())
    }

    // The partial plan with one more symbol, if it is feasible.
    fn after(&self, prefix: Prefix, symbol: u16) -> Option<Prefix> {
        let last = self.instance.customers();
        let (from, to) = (prefix.at.min(last), symbol.min(last));
        let cost = prefix.cost.saturating_add(self.instance.weight(from, to));
        if to == 0 {
            let closed = Prefix {
                at: 0,
                trucks: prefix.trucks.checked_sub(1)?,
                load: 0,
                cost,
                ..prefix
            };
            return (from != 0).then_some(closed);
        }
        let load = prefix.load.saturating_add(self.instance.demand(to));
        let opens = from == 0;
        let rises = !opens || prefix.opened < to;
        let is_feasible = rises && load <= self.instance.capacity() && !self.word.contains(&to);
        is_feasible.then_some(Prefix {
            at: to,
            opened: if opens { to } else { prefix.opened },
            load,
            cost,
            ..prefix
        })
    }

    fn serves_all(&self) -> bool {
        let served = self.word.iter().filter(|symbol| **symbol != 0).count();
        served == usize::from(self.instance.customers())
    }

    // Keeps the plan if it is before the first one so far.
    fn keep(&mut self, cost: u64) -> Result<(), AllocError> {
        let is_first = match &self.canonical {
            Some(known) => cost < known.cost || cost == known.cost && self.word < known.word,
            None => true,
        };
        if is_first {
            let word = Vec::from_slice(self.alloc, &self.word)?;
            self.canonical = Some(Canonical { cost, word });
        }
        Ok(())
    }
}
