//! Partial plans compared with counts and costs worked out by hand.

use crate::assertion::assert_same;
use crate::search::fixture::{partial_at, three_on_a_line};
use std::alloc::Global;
use std::process::Abort;
use test_fixtures::{LINE, at_points};
use vrp_model::Instance;
use vrp_search_tree::{Partial, Reserved};

// The totals of a walk through the tree of the empty word.
#[derive(Clone, Copy, Debug, PartialEq, Eq)]
struct Seen {
    prefixes: u64,
    plans: u64,
    least: u64,
}

// The capacity, and the totals of a walk through the tree.
const TREES: &[(u64, Seen)] = &[
    (
        2,
        Seen {
            prefixes: 10,
            plans: 2,
            least: 20,
        },
    ),
    (
        1,
        Seen {
            prefixes: 7,
            plans: 1,
            least: 30,
        },
    ),
];

#[test]
fn trees_of_three_nodes(rt: HostRuntime) {
    for &(capacity, seen) in TREES {
        let instance = three_on_a_line(&rt, rt.alloc(), capacity);
        let found = walk(&rt, rt.alloc(), &instance);
        assert_same(&rt, found, seen, capacity);
    }
}

// A symbol to push, and then the cost, the load, the rest and the number of routes.
type Counted = (u16, u64, u64, u64, u16);

const COUNTED: &[Counted] = &[(1, 5, 3, 4, 1), (2, 10, 7, 0, 1), (0, 20, 0, 0, 1)];

#[test]
fn counters_along_a_word(rt: HostRuntime) {
    let instance = at_points(rt.alloc(), LINE, &[0, 3, 4], 7).expect(&rt, "an instance");
    let mut partial = Partial::root(rt.alloc(), &instance).expect(&rt, "memory");
    assert_same(&rt, partial.rest(), 7, "the rest");
    for &counted in COUNTED {
        assert_pushed(&rt, &mut partial, counted);
    }
    assert_word(&rt, rt.alloc(), &partial, &[1, 2, 0]);
}

// Pushes a symbol onto a word that isn't complete. There is no third customer.
fn assert_pushed(rt: &impl Abort, partial: &mut Partial<'_>, counted: Counted) {
    let (symbol, cost, load, rest, routes) = counted;
    assert!(rt; partial.child(symbol));
    assert!(rt; !partial.complete());
    partial.push(symbol);
    let places = (partial.at(), partial.routes());
    assert_same(rt, places, (symbol, routes), symbol);
    let amounts = (partial.cost(), partial.load(), partial.rest());
    assert_same(rt, amounts, (cost, load, rest), symbol);
    assert!(rt; !partial.child(3));
}

// The partial plan is complete, and its plan has this word.
fn assert_word(rt: &impl Abort, alloc: Global, partial: &Partial<'_>, word: &[u16]) {
    assert!(rt; partial.complete());
    let plan = partial.plan(alloc).expect(rt, "memory");
    assert_same(rt, plan.word(), word, "the word");
}

// The number of customers, and the room for symbols and tallies.
const ROOMS: &[(usize, usize, usize)] = &[
    (1, 64, 2),
    (32, 64, 64),
    (40, 80, 80),
    (1_199, 2_398, 2_398),
];

// A partial plan has at most two symbols for each customer. The first 64 symbols are stored in the partial plan itself.
#[test]
fn room_for_the_longest_prefix(rt: HostRuntime) {
    for &(customers, word, before) in ROOMS {
        let instance = in_one_place(&rt, rt.alloc(), customers);
        let partial = Partial::root(rt.alloc(), &instance).expect(&rt, "memory");
        let Reserved { symbols, tallies } = partial.reserved();
        assert_same(&rt, (symbols, tallies), (word, before), customers);
    }
}

// This many customers without demand.
fn in_one_place(rt: &impl Abort, alloc: Global, customers: usize) -> Instance {
    assert!(rt; customers <= 1_199);
    let points = Vec::from_elem(alloc, (0, 0), customers + 1).expect(rt, "memory");
    let demands = Vec::from_elem(alloc, 0, customers + 1).expect(rt, "memory");
    at_points(alloc, &points, &demands, 1).expect(rt, "an instance")
}

const DEAD_WORDS: &[(&[u16], bool)] = &[
    (&[], false),
    (&[1], false),
    (&[1, 0], false),
    (&[1, 2], false),
    (&[1, 2, 0], false),
    (&[2], true),
    (&[2, 0], true),
    (&[2, 1], true),
];

#[test]
fn words_without_completion_of_three_nodes(rt: HostRuntime) {
    let instance = three_on_a_line(&rt, rt.alloc(), 2);
    for &(word, has_no_completion) in DEAD_WORDS {
        let partial = partial_at(&rt, rt.alloc(), &instance, word);
        assert_same(&rt, partial.has_no_completion(), has_no_completion, word);
    }
}

// Walks by the symbols 0, 1 and 2.
fn walk(rt: &impl Abort, alloc: Global, instance: &Instance) -> Seen {
    let mut partial = Partial::root(alloc, instance).expect(rt, "memory");
    let mut seen = Seen {
        prefixes: 1,
        plans: 0,
        least: u64::MAX,
    };
    let mut next = 0;
    for _ in 0..100 {
        if partial.child(next) {
            partial.push(next);
            next = 0;
            seen = seen.with(rt, alloc, &partial);
        } else if next < 2 {
            next += 1;
        } else if partial.word().is_empty() {
            return seen;
        } else {
            next = partial.pop().saturating_add(1);
        }
    }
    panic!(rt; "the walk has no end");
}

impl Seen {
    // The totals with one more partial plan.
    fn with(self, rt: &impl Abort, alloc: Global, partial: &Partial<'_>) -> Seen {
        let prefixes = self.prefixes.saturating_add(1);
        if !partial.complete() {
            return Seen { prefixes, ..self };
        }
        let plan = partial.plan(alloc).expect(rt, "memory");
        assert_same(rt, plan.cost(), partial.cost(), prefixes);
        Seen {
            prefixes,
            plans: self.plans.saturating_add(1),
            least: self.least.min(partial.cost()),
        }
    }
}
