//! Books with one thread: which offers are kept, and the entry of each.
use crate::assertion::assert_same;
use crate::register::fixture::{copied, forward_and_backward, singles_and_joined};
use std::alloc::Global;
use std::process::Abort;
use vrp_model::Plan;
use vrp_sharing::{Book, Entry};

// The offers that are made to a book, and the answers.
type Offers<'a> = &'a [(&'a Plan, bool)];

#[test]
fn cheaper_plans_are_kept(rt: HostRuntime) {
    let (rt, alloc) = (&rt, rt.alloc());
    let (singles, joined) = singles_and_joined(rt, alloc);
    let (singles, joined) = (&singles, &joined);
    assert_same(rt, (singles.cost(), joined.cost()), (30, 20), "costs");
    check_book(rt, alloc, Some(joined), &[(singles, false)], Some(joined));
    let offers = [(singles, false), (joined, true), (joined, false)];
    check_book(rt, alloc, Some(singles), &offers, Some(joined));
    check_book(rt, alloc, None, &[], None);
    let offers = [(singles, true), (singles, false)];
    check_book(rt, alloc, None, &offers, Some(singles));
    let offers = [(joined, true), (singles, false)];
    check_book(rt, alloc, None, &offers, Some(joined));
}

#[test]
fn earlier_words_are_kept(rt: HostRuntime) {
    let (rt, alloc) = (&rt, rt.alloc());
    let (forward, backward) = forward_and_backward(rt, alloc);
    assert_same(rt, (forward.cost(), backward.cost()), (6, 6), "costs");
    let offers = [(&forward, true), (&backward, false)];
    check_book(rt, alloc, Some(&backward), &offers, Some(&forward));
}

// A book opens with this plan, gets these offers, and then keeps this plan.
fn check_book(
    rt: &impl Abort,
    alloc: Global,
    opening: Option<&Plan>,
    offers: Offers<'_>,
    kept: Option<&Plan>,
) {
    let opening = copied(rt, alloc, opening);
    let mut book = Book::open(alloc, opening).expect(rt, "memory");
    for (place, (plan, answer)) in offers.iter().enumerate() {
        let caller = u32::try_from(place).expect(rt, "a caller");
        let found = book.offer(alloc, caller, plan).expect(rt, "memory");
        assert_same(rt, found, *answer, place);
    }
    let found = book.plan().map(Plan::word);
    assert_same(rt, found, kept.map(Plan::word), "the plan");
    assert_entries(rt, &book, offers);
}

// The book has entries for these offers, the first by caller 0, the next by caller 1 and so on.
fn assert_entries(rt: &impl Abort, book: &Book, offers: Offers<'_>) {
    assert!(rt; book.entries() == offers.len());
    for (place, (plan, answer)) in offers.iter().enumerate() {
        let Entry {
            caller,
            plan: noted,
            kept,
        } = book.entry(place);
        assert_same(rt, u64::from(*caller), place as u64, place);
        assert_same(rt, noted.word(), plan.word(), place);
        assert_same(rt, *kept, *answer, place);
    }
}
