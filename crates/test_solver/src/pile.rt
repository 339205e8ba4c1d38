//! Piles with one thread and with two.
ghost use Rattle.std.specs.Prelude.{◌≡◌, ◌≤◌};
ghost use Rattle.vrp_sharing.specs.declared.limits.TheConstants.{MAX_THIEVES};
ghost use Rattle.vrp_search_tree.specs.declared.cutting.TheConstants.{MAX_PIECES};

use crate::assertion::assert_same;
use std::alloc::Global;
use std::process::Abort;
use std::thread::{Threads, join_mut};
use test_fixtures::{LINE, at_points};
use vrp_model::Instance;
use vrp_search_tree::Cutting;
use vrp_sharing::{Drawn, MAX_THIEVES, Owner, Pile, Thief, settle};

// Ten customers on a line.
const LONG_LINE: [(i64, i64); 11] = [
    (0, 0),
    (1, 0),
    (2, 0),
    (3, 0),
    (4, 0),
    (5, 0),
    (6, 0),
    (7, 0),
    (8, 0),
    (9, 0),
    (10, 0),
];

// All words of two customers, cut as far as possible: into four pieces.
fn four_pieces(rt: &impl Abort, alloc: Global) -> Cutting {
    let instance = at_points(alloc, LINE, &[0, 1, 1], 2).expect(rt, "an instance");
    cut(rt, alloc, &instance, 5)
}

// The words of ten customers, cut into at least 65,536 pieces.
fn many_pieces(rt: &impl Abort, alloc: Global) -> Cutting {
    let demands = [0, 1, 1, 1, 1, 1, 1, 1, 1, 1, 1];
    let instance = at_points(alloc, &LONG_LINE, &demands, 10).expect(rt, "an instance");
    cut(rt, alloc, &instance, 65_536)
}

// A cutting into at least this many pieces, or as many as possible.
fn cut(rt: &impl Abort, alloc: Global, instance: &Instance, pieces: u32) -> Cutting
    requires { pieces ≤ MAX_PIECES }
{
    let mut cutting = Cutting::whole(alloc, instance).expect(rt, "memory");
    let made = cutting.at_least(alloc, instance, pieces);
    made.expect(rt, "memory");
    cutting
}

#[test]
fn drawn_in_turn(rt: HostRuntime) {
    let pile = Pile::new(rt.alloc(), four_pieces(&rt, rt.alloc()), 2);
    let (mut owner, mut thieves) = pile.expect(&rt, "memory");
    let (Some(mut second), Some(mut first)) = (thieves.pop(), thieves.pop()) else {
        unreachable!()
    };
    draw_in_turn(&rt, &mut owner, &mut first, &mut second);
    owner.take_in(first);
    owner.take_in(second);
    assert_same(&rt, draw(&mut owner), None, "all taken in");
    assert_same(&rt, settle(owner, thieves), 0, "left");
}

// The owner and two thieves draw the four pieces, and find no more.
fn draw_in_turn(rt: &impl Abort, owner: &mut Owner, first: &mut Thief, second: &mut Thief)
    ensures pile { owner.new.pile ≡ owner.old.pile }
    ensures parts { owner.new.parts ≡ owner.old.parts }
    ensures first { first.new.pile ≡ first.old.pile }
    ensures second { second.new.pile ≡ second.old.pile }
{
    assert_same(rt, draw(owner), Some(0), "the owner");
    assert_same(rt, steal(first), Some(1), "the first thief");
    assert_same(rt, steal(second), Some(2), "the second thief");
    assert_same(rt, draw(owner), Some(3), "the owner again");
    assert_same(rt, draw(owner), None, "the owner at the end");
    assert!(rt; finds_nothing(first));
    assert!(rt; finds_nothing(second));
}

// The number of the piece that the owner draws.
fn draw(owner: &mut Owner) -> Option<u32>
    ensures pile { owner.new.pile ≡ owner.old.pile }
    ensures parts { owner.new.parts ≡ owner.old.parts }
{
    Some(owner.take()?.number())
}

// The number of the piece that a thief draws.
fn steal(thief: &mut Thief) -> Option<u32>
    ensures { thief.new.pile ≡ thief.old.pile }
{
    match thief.take() {
        Drawn::Piece(piece) => Some(piece.number()),
        Drawn::Empty => None,
        Drawn::Busy => None,
    }
}

// Whether a thief finds nothing.
fn finds_nothing(thief: &mut Thief) -> bool
    ensures { thief.new.pile ≡ thief.old.pile }
{
    matches!(thief.take(), Drawn::Empty)
}

// The number of thieves, how often the owner draws from the four pieces, and how many are left.
const LEFT: &[(u32, u32, u32)] = &[
    (0, 0, 4),
    (0, 4, 0),
    (0, 5, 0),
    (2, 2, 2),
    (63, 0, 4),
    (63, 3, 1),
];

#[test]
fn left_at_the_end(rt: HostRuntime) {
    for &(thieves, draws, left) in LEFT {
        assert!(rt; thieves <= MAX_THIEVES);
        let found = settled_after(&rt, rt.alloc(), thieves, draws);
        assert_same(&rt, found, (thieves as usize, left), draws);
    }
}

// The number of thieves made, and how many of four pieces are left after this many draws of the owner.
fn settled_after(rt: &impl Abort, alloc: Global, thieves: u32, draws: u32) -> (usize, u32)
    requires { thieves ≤ MAX_THIEVES }
{
    let pile = Pile::new(alloc, four_pieces(rt, alloc), thieves);
    let (mut owner, thieves) = pile.expect(rt, "memory");
    for _ in 0..draws {
        draw(&mut owner);
    }
    (thieves.len(), settle(owner, thieves))
}

#[test]
fn two_threads(rt: HostRuntime) {
    let cutting = many_pieces(&rt, rt.alloc());
    let count = cutting.pieces().len();
    assert!(rt; 65_536 <= count);
    let pile = Pile::new(rt.alloc(), cutting, 1).expect(&rt, "memory");
    let (mut owner, mut thieves) = pile;
    let Some(mut thief) = thieves.pop() else {
        unreachable!()
    };
    let drawn = both_draw(&rt, rt.alloc(), &mut owner, &mut thief, count);
    owner.take_in(thief);
    assert_same(&rt, settle(owner, thieves), 0, "left");
    assert_each_once(&rt, rt.alloc(), count, drawn);
}

// Each of this many pieces was drawn by one of the two.
fn assert_each_once(
    rt: &impl Abort,
    alloc: Global,
    count: usize,
    (by_owner, by_thief): (Vec<u32>, Vec<u32>),
) {
    let mut drawn = vec![in alloc; false; count].expect(rt, "memory");
    mark(rt, &mut drawn, &by_owner);
    mark(rt, &mut drawn, &by_thief);
    assert!(rt; drawn.iter().all(|drawn| *drawn));
}

// Owner and thief draw, each in its own thread, until nothing is left; answers the numbers of the pieces that each drew.
fn both_draw<R: Threads + Abort + Sync>(
    rt: &R,
    alloc: Global,
    owner: &mut Owner,
    thief: &mut Thief,
    count: usize,
) -> (Vec<u32>, Vec<u32>)
    ensures pile { owner.new.pile ≡ owner.old.pile }
    ensures parts { owner.new.parts ≡ owner.old.parts }
    ensures thief { thief.new.pile ≡ thief.old.pile }
{
    join_mut(
        rt,
        &mut || -> Vec<u32>
            ensures pile { owner.exit.now.pile ≡ owner.entry.now.pile }
            ensures parts { owner.exit.now.parts ≡ owner.entry.now.parts }
        { draw_all(rt, alloc, owner, count) },
        &mut || -> Vec<u32>
            ensures { thief.exit.now.pile ≡ thief.entry.now.pile }
        { steal_all(rt, alloc, thief) },
    )
}

// The numbers of the pieces that the owner draws until nothing is left.
fn draw_all(rt: &impl Abort, alloc: Global, owner: &mut Owner, count: usize) -> Vec<u32>
    ensures pile { owner.new.pile ≡ owner.old.pile }
    ensures parts { owner.new.parts ≡ owner.old.parts }
{
    let mut numbers = Vec::new(alloc);
    for _ in 0..count {
        let Some(number) = draw(owner) else {
            break;
        };
        numbers.push(number).expect(rt, "memory");
    }
    numbers
}

// The numbers of the pieces that a thief draws until nothing is left, unless it is busy too often.
fn steal_all(rt: &impl Abort, alloc: Global, thief: &mut Thief) -> Vec<u32>
    ensures { thief.new.pile ≡ thief.old.pile }
{
    let mut numbers = Vec::new(alloc);
    for _ in 0..10_000_000 {
        match thief.take() {
            Drawn::Piece(piece) => numbers.push(piece.number()).expect(rt, "memory"),
            Drawn::Empty => break,
            Drawn::Busy => {}
        }
    }
    numbers
}

// Marks these pieces, none of which may be marked before.
fn mark(rt: &impl Abort, drawn: &mut [bool], numbers: &[u32]) {
    for number in numbers {
        let index = *number as usize;
        assert!(rt; index < drawn.len());
        assert!(rt; !drawn[index]);
        drawn[index] = true;
    }
}
