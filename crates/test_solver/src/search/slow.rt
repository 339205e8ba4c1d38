//! A plain slow program to compare with: it judges each short list of symbols as a whole, and so finds all partial plans of a
//! small instance, their children, and their totals.

use std::alloc::Global;
use std::process::Abort;
use vrp_model::{Instance, Layout, Weights};

/// The number of nodes of each instance, including those that have no part.
pub(crate) const NODES: u16 = 4;

// Weights from each node to each: asymmetric, and symmetric.
const ONE_DIRECTION: &[u64] = &[0, 5, 9, 14, 3, 0, 7, 2, 8, 1, 0, 6, 11, 4, 10, 0];

const BOTH_DIRECTIONS: &[u64] = &[0, 5, 9, 14, 5, 0, 7, 2, 9, 7, 0, 6, 14, 2, 6, 0];

/// The number of customers of an instance, the demands of the places, the depot's first, and the capacity.
pub(crate) type Case = (u16, [u64; 4], u64);

/// A small instance.
#[derive(Clone, Copy, Debug)]
pub(crate) struct Small {
    customers: u16,
    demands: [u64; 4],
    capacity: u64,
    is_symmetric: bool,
    trucks: Option<u16>,
}

impl Small {
    /// Adds the instances of a case: asymmetric and symmetric, and with few trucks.
    pub(crate) fn push_kinds(rt: &impl Abort, smalls: &mut Vec<Small>, case: Case) {
        let symmetric = Small::new(case, true);
        smalls.push(Small::new(case, false)).expect(rt, "memory");
        smalls.push(symmetric).expect(rt, "memory");
        smalls.push(symmetric.with_trucks(1)).expect(rt, "memory");
        smalls.push(symmetric.with_trucks(2)).expect(rt, "memory");
    }

    fn with_trucks(self, trucks: u16) -> Small {
        Small {
            trucks: Some(trucks),
            ..self
        }
    }

    /// The instance of a case, without a limit on trucks.
    pub(crate) fn new(case: Case, is_symmetric: bool) -> Small {
        let (customers, demands, capacity) = case;
        Small {
            customers,
            demands,
            capacity,
            is_symmetric,
            trucks: None,
        }
    }

    fn weights(&self) -> &'static [u64] {
        if self.is_symmetric {
            BOTH_DIRECTIONS
        } else {
            ONE_DIRECTION
        }
    }

    /// The instance. The nodes behind its customers are listed as depots too, so they have no part.
    pub(crate) fn instance(&self, rt: &impl Abort, alloc: Global) -> Instance {
        let depots = self.depots();
        assert!(rt; !depots.is_empty() && depots.iter().all(|&depot| 1 <= depot && depot <= NODES));
        let arcs = self.weights();
        assert!(rt; arcs.len() == Layout::FullMatrix.entries(NODES));
        assert!(rt; arcs.iter().all(|&arc| arc <= 100) && self.capacity <= 100);
        let weights = Weights::matrix(alloc, Layout::FullMatrix, arcs, NODES).expect(rt, "memory");
        let made = Instance::new(alloc, weights, &self.demands, self.capacity, depots, None);
        let instance = made.expect(rt, "an instance");
        match self.trucks {
            Some(1) => instance.with_trucks(1),
            Some(_) => instance.with_trucks(2),
            None => instance,
        }
    }

    fn depots(&self) -> &'static [u16] {
        match self.customers {
            0 => &[1, 2, 3, 4],
            1 => &[1, 3, 4],
            2 => &[1, 4],
            _ => &[1],
        }
    }

    /// All partial plans, by the order of their symbols: each list of at most two symbols for each customer is judged.
    pub(crate) fn prefixes(&self, rt: &impl Abort, alloc: Global) -> Vec<Vec<u16>> {
        let mut prefixes = Vec::new(alloc);
        self.push_prefixes(rt, alloc, &mut prefixes, &[], 2 * self.customers.min(3));
        prefixes
    }

    // Adds those lists that are prefixes: the word, and its extensions by up to this many symbols.
    fn push_prefixes(
        &self,
        rt: &impl Abort,
        alloc: Global,
        prefixes: &mut Vec<Vec<u16>>,
        word: &[u16],
        more: u16,
    ) {
        if self.is_prefix(word) {
            push_copy(rt, alloc, prefixes, word);
        }
        if more > 0 {
            for symbol in 0..=self.customers {
                let longer = with(rt, alloc, word, symbol);
                self.push_prefixes(rt, alloc, prefixes, &longer, more - 1);
            }
        }
    }

    fn is_prefix(&self, word: &[u16]) -> bool {
        let is_known = word.iter().all(|symbol| *symbol <= self.customers);
        let is_plain = is_known && is_once(word) && has_stops(word) && is_rising(word);
        is_plain && self.fits(word) && self.runs_forward(word) && self.has_trucks(word)
    }

    // Whether there are trucks for all routes, including an open one.
    fn has_trucks(&self, word: &[u16]) -> bool {
        self.trucks.is_none_or(|trucks| routes(word) <= trucks)
    }

    // With symmetric weights, whether no closed route has its first customer above its last.
    fn runs_forward(&self, word: &[u16]) -> bool {
        // The part behind the last 0 is an open route, or empty.
        let mut closed: &[u16] = &[];
        for route in word.split(|symbol| *symbol == 0) {
            if self.is_symmetric && !is_forward(closed) {
                return false;
            }
            closed = route;
        }
        true
    }

    /// With symmetric weights, whether all unserved customers are below the last route's first customer, and there is one, or
    /// the word ends with a customer below it.
    pub(crate) fn has_no_completion(&self, word: &[u16]) -> bool {
        let first = last_first(word);
        let last = word.last().copied().unwrap_or(0);
        let mut is_left = false;
        for customer in 1..=self.customers {
            if !word.contains(&customer) {
                is_left = true;
                if customer > first {
                    return false;
                }
            }
        }
        self.is_symmetric && (is_left || (last > 0 && last < first))
    }

    // Whether no truck has more than its capacity.
    fn fits(&self, word: &[u16]) -> bool {
        for route in word.split(|symbol| *symbol == 0) {
            if self.load(route) > self.capacity {
                return false;
            }
        }
        true
    }

    fn load(&self, stops: &[u16]) -> u64 {
        let mut load = 0u64;
        for stop in stops {
            load = load.saturating_add(self.demand(*stop));
        }
        load
    }

    fn demand(&self, place: u16) -> u64 {
        self.demands.get(usize::from(place)).copied().unwrap_or(0)
    }

    /// The load behind the last 0.
    pub(crate) fn open_load(&self, word: &[u16]) -> u64 {
        let mut load = 0u64;
        for route in word.split(|symbol| *symbol == 0) {
            load = self.load(route);
        }
        load
    }

    /// The total demand of the customers who aren't in the word.
    pub(crate) fn rest(&self, word: &[u16]) -> u64 {
        let mut rest = 0u64;
        for customer in 1..=self.customers {
            if !word.contains(&customer) {
                rest = rest.saturating_add(self.demand(customer));
            }
        }
        rest
    }

    /// The cost along a word, from the depot.
    pub(crate) fn cost(&self, word: &[u16]) -> u64 {
        let mut cost = 0u64;
        let mut at = 0u16;
        for symbol in word {
            cost = cost.saturating_add(self.weight(at, *symbol));
            at = *symbol;
        }
        cost
    }

    fn weight(&self, from: u16, to: u16) -> u64 {
        let arc = usize::from(from) * usize::from(NODES) + usize::from(to);
        self.weights().get(arc).copied().unwrap_or(0)
    }

    /// Whether a partial plan has every customer and ends at the depot.
    pub(crate) fn is_complete(&self, word: &[u16]) -> bool {
        for customer in 1..=self.customers {
            if !word.contains(&customer) {
                return false;
            }
        }
        word.last().copied().unwrap_or(0) == 0
    }

    /// The feasible word of least cost, the first of these in listing order, with its cost.
    pub(crate) fn first(&self, rt: &impl Abort, alloc: Global) -> Option<(u64, Vec<u16>)> {
        let mut first: Option<(u64, Vec<u16>)> = None;
        for word in self.prefixes(rt, alloc) {
            let cost = self.cost(&word);
            let is_cheaper = first.as_ref().is_none_or(|(least, _)| cost < *least);
            if self.is_complete(&word) && is_cheaper {
                first = Some((cost, word));
            }
        }
        first
    }

    // Adds the partial plans with one more symbol, and answers whether there are any.
    fn push_children(
        &self,
        rt: &impl Abort,
        alloc: Global,
        prefixes: &mut Vec<Vec<u16>>,
        word: &[u16],
    ) -> bool {
        let before = prefixes.len();
        for symbol in 0..=self.customers {
            let child = with(rt, alloc, word, symbol);
            if self.is_prefix(&child) {
                push_copy(rt, alloc, prefixes, &child);
            }
        }
        prefixes.len() > before
    }

    /// The words with one word replaced by its children, and whether it has any.
    pub(crate) fn refined(
        &self,
        rt: &impl Abort,
        alloc: Global,
        words: &[Vec<u16>],
        number: usize,
    ) -> (Vec<Vec<u16>>, bool) {
        let mut refined = Vec::new(alloc);
        let mut has_children = false;
        for (index, word) in words.iter().enumerate() {
            if index == number && self.push_children(rt, alloc, &mut refined, word) {
                has_children = true;
            } else {
                push_copy(rt, alloc, &mut refined, word);
            }
        }
        (refined, has_children)
    }

    /// The partial plans that have no child.
    pub(crate) fn leaves(&self, rt: &impl Abort, alloc: Global) -> Vec<Vec<u16>> {
        let mut leaves = Vec::new(alloc);
        for prefix in &self.prefixes(rt, alloc) {
            let mut children = Vec::new(alloc);
            if !self.push_children(rt, alloc, &mut children, prefix) {
                push_copy(rt, alloc, &mut leaves, prefix);
            }
        }
        leaves
    }
}

// Whether no customer occurs twice.
fn is_once(word: &[u16]) -> bool {
    for (index, symbol) in word.iter().enumerate() {
        if *symbol != 0 && word.iter().take(index).any(|other| *other == *symbol) {
            return false;
        }
    }
    true
}

// Whether each 0 follows a customer.
fn has_stops(word: &[u16]) -> bool {
    let mut before = 0u16;
    for symbol in word {
        if *symbol == 0 && before == 0 {
            return false;
        }
        before = *symbol;
    }
    true
}

// Whether the first customers of the routes rise.
fn is_rising(word: &[u16]) -> bool {
    let mut before = 0u16;
    for route in word.split(|symbol| *symbol == 0) {
        if let Some(first) = route.first() {
            if *first <= before {
                return false;
            }
            before = *first;
        }
    }
    true
}

// The first customer of the last route; 0 if there is none.
fn last_first(word: &[u16]) -> u16 {
    let mut first = 0u16;
    for route in word.split(|symbol| *symbol == 0) {
        first = route.first().copied().unwrap_or(first);
    }
    first
}

/// The number of routes, including an open one.
pub(crate) fn routes(word: &[u16]) -> u16 {
    let mut count = 0u16;
    for route in word.split(|symbol| *symbol == 0) {
        if !route.is_empty() {
            count = count.saturating_add(1);
        }
    }
    count
}

fn is_forward(route: &[u16]) -> bool {
    match (route.first(), route.last()) {
        (Some(first), Some(last)) => *first <= *last,
        _ => true,
    }
}

/// Whether a word begins with a partial plan.
pub(crate) fn begins_with(word: &[u16], prefix: &[u16]) -> bool {
    word.len() >= prefix.len() && word.iter().zip(prefix.iter()).all(|(a, b)| *a == *b)
}

// The word with one more symbol.
fn with(rt: &impl Abort, alloc: Global, word: &[u16], symbol: u16) -> Vec<u16> {
    let mut longer = Vec::from_slice(alloc, word).expect(rt, "memory");
    longer.push(symbol).expect(rt, "memory");
    longer
}

/// Adds a copy of a word.
pub(crate) fn push_copy(rt: &impl Abort, alloc: Global, words: &mut Vec<Vec<u16>>, word: &[u16]) {
    let copy = Vec::from_slice(alloc, word).expect(rt, "memory");
    words.push(copy).ok().expect(rt, "memory");
}
