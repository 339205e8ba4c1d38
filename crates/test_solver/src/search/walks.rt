//! Comparisons with the slow program: walks by children, values along a word, cuttings.
ghost use Rattle.std.specs.Option.{ForSome};
ghost use Rattle.vrp_model.specs.Route.{IsPlanOf};

use crate::assertion::assert_same;
use crate::search::depth_first::search_all;
use crate::search::fixture::{board_with, cut_into, singles};
use crate::search::slow::{Case, NODES, Small, begins_with, push_copy, routes};
use std::alloc::Global;
use std::process::Abort;
use vrp_model::{Instance, Plan};
use vrp_search_tree::{Cutting, Ended, Local, MAX_PIECES, Partial};

// More steps than a walk through any of the trees takes.
const MOST_STEPS: u32 = 10_000;

// The greatest number of pieces before a piece is refined: enough for the trees to be cut down to their leaves.
const MOST_REFINED: u32 = 24;

// Instances of 0 to 3 customers: the number of customers, the demands of the places, the depot's first, and the capacity.
const CASES: &[Case] = &[
    (0, [0, 0, 0, 0], 1),
    (1, [0, 1, 0, 0], 1),
    (1, [0, 0, 0, 0], 1),
    (2, [0, 1, 1, 0], 1),
    (2, [0, 1, 1, 0], 2),
    (2, [0, 2, 0, 0], 2),
    (3, [0, 1, 1, 1], 1),
    (3, [0, 1, 1, 1], 2),
    (3, [0, 1, 1, 1], 3),
    (3, [0, 2, 1, 3], 3),
    (3, [0, 1, 0, 2], 2),
    (3, [0, 0, 0, 0], 1),
];

// The instances of all cases.
fn smalls(rt: &impl Abort, alloc: Global) -> Vec<Small> {
    let mut smalls = Vec::new(alloc);
    for &case in CASES {
        Small::push_kinds(rt, &mut smalls, case);
    }
    smalls
}

#[test]
fn walks_meet_all_prefixes(rt: HostRuntime) {
    for small in &smalls(&rt, rt.alloc()) {
        let instance = small.instance(&rt, rt.alloc());
        let walked = walked(small, &rt, rt.alloc(), &instance);
        let prefixes = small.prefixes(&rt, rt.alloc());
        assert_same(&rt, walked, prefixes, *small);
    }
}

// The capacity, whether the weights are symmetric, and the number of partial plans.
const SIZES: &[(u64, bool, usize)] = &[(2, false, 11), (2, true, 10), (1, true, 7)];

#[test]
fn sizes_of_trees(rt: HostRuntime) {
    for &(capacity, is_symmetric, prefixes) in SIZES {
        let small = Small::new((2, [0, 1, 1, 0], capacity), is_symmetric);
        let found = small.prefixes(&rt, rt.alloc()).len();
        assert_same(&rt, found, prefixes, small);
    }
}

#[test]
fn no_plan_without_completion(rt: HostRuntime) {
    for &case in CASES {
        let small = Small::new(case, true);
        let prefixes = small.prefixes(&rt, rt.alloc());
        for prefix in &prefixes {
            let is_right = !small.has_no_completion(prefix)
                || !has_plan_under(&small, &prefixes, prefix);
            assert_same(&rt, is_right, true, small);
        }
    }
}

fn has_plan_under(small: &Small, prefixes: &[Vec<u16>], prefix: &[u16]) -> bool {
    for word in prefixes {
        if small.is_complete(word) && begins_with(word, prefix) {
            return true;
        }
    }
    false
}

#[test]
fn cuttings_end_at_the_leaves(rt: HostRuntime) {
    for small in &smalls(&rt, rt.alloc()) {
        let instance = small.instance(&rt, rt.alloc());
        let cutting = cut_into(&rt, rt.alloc(), &instance, MAX_PIECES);
        let words = words(&rt, rt.alloc(), &cutting);
        let leaves = small.leaves(&rt, rt.alloc());
        assert_same(&rt, words, leaves, *small);
    }
}

#[test]
fn children_stand_for_a_piece(rt: HostRuntime) {
    for small in &smalls(&rt, rt.alloc()) {
        let instance = small.instance(&rt, rt.alloc());
        assert_all_refined(small, &rt, rt.alloc(), &instance);
    }
}

// The search of the whole tree finds the first word of all, for any plan that the board is opened with.
#[test]
fn the_canonical_word_is_found(rt: HostRuntime) {
    for small in &smalls(&rt, rt.alloc()) {
        let instance = small.instance(&rt, rt.alloc());
        let singles = singles(&rt, rt.alloc(), &instance);
        assert_canonical(&rt, rt.alloc(), small, &instance, singles);
        assert_canonical(&rt, rt.alloc(), small, &instance, None);
    }
}

// A board that was opened with this plan, or with none, finally has the first one.
fn assert_canonical(
    rt: &impl Abort,
    alloc: Global,
    small: &Small,
    instance: &Instance,
    opening: Option<Plan>,
)
    requires { ForSome opening (IsPlanOf instance.now) }
{
    let mut board = board_with(instance, opening);
    let ended = search_all(alloc, instance, u64::MAX, &mut board);
    assert_found(rt, alloc, small, &ended.expect(rt, "memory"), &board);
}

// The search is finished, and its board has the first plan.
fn assert_found(rt: &impl Abort, alloc: Global, small: &Small, ended: &Ended, board: &Local) {
    assert!(rt; matches!(ended, Ended::Finished { .. }));
    let first = small.first(rt, alloc);
    let wanted = first.as_ref().map(|(cost, word)| (*cost, word.as_slice()));
    let kept = board.plan().map(|plan| (plan.cost(), plan.word()));
    assert_same(rt, kept, wanted, *small);
}

// The partial plans met on a walk by children, in the order of their symbols. The values are compared on the way.
fn walked(small: &Small, rt: &impl Abort, alloc: Global, instance: &Instance) -> Vec<Vec<u16>> {
    let mut partial = Partial::root(alloc, instance).expect(rt, "memory");
    let mut prefixes = Vec::new(alloc);
    push_copy(rt, alloc, &mut prefixes, &[]);
    let mut next = 0u16;
    for _ in 0..MOST_STEPS {
        assert_values(small, rt, &partial);
        if partial.child(next) {
            partial.push(next);
            push_copy(rt, alloc, &mut prefixes, partial.word());
            next = 0;
        } else if next < NODES {
            next += 1;
        } else if partial.word().is_empty() {
            return prefixes;
        } else {
            next = partial.pop().saturating_add(1);
        }
    }
    panic!(rt; "the walk has no end");
}

fn assert_values(small: &Small, rt: &impl Abort, partial: &Partial<'_>) {
    let word = partial.word();
    let states = (partial.complete(), partial.has_no_completion());
    assert_same(
        rt,
        states,
        (small.is_complete(word), small.has_no_completion(word)),
        word,
    );
    let tally = (partial.cost(), partial.load(), partial.rest());
    let wanted = (small.cost(word), small.open_load(word), small.rest(word));
    assert_same(rt, tally, wanted, word);
    let places = (partial.routes(), partial.at());
    let last = word.last().copied().unwrap_or(0);
    assert_same(rt, places, (routes(word), last), word);
}

// The cuttings into few pieces, each of which is refined.
fn assert_all_refined(small: &Small, rt: &impl Abort, alloc: Global, instance: &Instance) {
    for pieces in 0..MOST_REFINED {
        // There may be more pieces than requested, by the children of one.
        for number in 0..pieces.saturating_add(u32::from(NODES)) {
            assert_refined(small, rt, alloc, instance, (pieces, number));
        }
    }
}

// A piece is replaced by its children if it has any, and all other pieces stay.
fn assert_refined(
    small: &Small,
    rt: &impl Abort,
    alloc: Global,
    instance: &Instance,
    (pieces, number): (u32, u32),
) {
    let mut cutting = cut_into(rt, alloc, instance, pieces);
    if number as usize >= cutting.pieces().len() {
        return;
    }
    let before = words(rt, alloc, &cutting);
    let refined = cutting.refine(alloc, instance, number);
    let found = (words(rt, alloc, &cutting), refined.expect(rt, "memory"));
    let wanted = small.refined(rt, alloc, &before, number as usize);
    assert_same(rt, found, wanted, (pieces, number));
}

// The words of a cutting's pieces.
fn words(rt: &impl Abort, alloc: Global, cutting: &Cutting) -> Vec<Vec<u16>> {
    let mut words = Vec::new(alloc);
    for piece in cutting.pieces() {
        push_copy(rt, alloc, &mut words, piece.word());
    }
    words
}
