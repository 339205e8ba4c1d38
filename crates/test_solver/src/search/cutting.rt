//! Cuttings of a small tree into a number of pieces, and pieces refined one by one.
ghost use Rattle.vrp_search_tree.specs.Cutting.{IsCutting};

use crate::assertion::assert_same;
use crate::search::fixture::{cut_into, three_on_a_line};
use std::alloc::Global;
use std::process::Abort;
use vrp_model::Instance;
use vrp_search_tree::{Cutting, MAX_PIECES, Piece};

// The capacity, the number of pieces requested, and their words.
const CUTTINGS: &[(u64, u32, &[&[u16]])] = &[
    // The last two have no child and are not plans: a customer is left, and the depot would end a route that runs backward.
    (
        2,
        MAX_PIECES,
        &[&[1, 0, 2, 0], &[1, 2, 0], &[2, 0], &[2, 1]],
    ),
    // The second has every customer but one, and no child.
    (1, MAX_PIECES, &[&[1, 0, 2, 0], &[2, 0]]),
    (2, 2, &[&[1], &[2]]),
    (2, 3, &[&[1, 0], &[1, 2], &[2]]),
];

#[test]
fn cut_into_so_many(rt: HostRuntime) {
    for &(capacity, count, words) in CUTTINGS {
        let instance = three_on_a_line(&rt, rt.alloc(), capacity);
        let cutting = cut_into(&rt, rt.alloc(), &instance, count);
        assert_words(&rt, cutting.pieces(), words);
    }
}

// A piece that is refined, whether it has children, and the words of the pieces afterwards.
const REFINEMENTS: &[(u32, bool, &[&[u16]])] = &[
    (0, true, &[&[1], &[2]]),
    (1, true, &[&[1], &[2, 0], &[2, 1]]),
    (1, false, &[&[1], &[2, 0], &[2, 1]]),
];

#[test]
fn refined_one_by_one(rt: HostRuntime) {
    let instance = three_on_a_line(&rt, rt.alloc(), 2);
    let mut cutting = cut_into(&rt, rt.alloc(), &instance, 0);
    assert_words(&rt, cutting.pieces(), &[&[]]);
    assert_refinements(&rt, rt.alloc(), &instance, &mut cutting);
    // more pieces than requested stay as they are
    let cut = cutting.at_least(rt.alloc(), &instance, 1);
    cut.expect(&rt, "memory");
    assert_words(&rt, &cutting.into_pieces(), &[&[1], &[2, 0], &[2, 1]]);
}

fn assert_refinements(rt: &impl Abort, alloc: Global, instance: &Instance, cutting: &mut Cutting)
    requires { IsCutting instance.now cutting.old }
    ensures { IsCutting instance.now cutting.new }
{
    for &(piece, is_refined, words) in REFINEMENTS {
        let pieces = cutting.pieces().len();
        assert!(rt; (piece as usize) < pieces && pieces <= 9);
        let refined = cutting.refine(alloc, instance, piece);
        assert_same(rt, refined.expect(rt, "memory"), is_refined, piece);
        assert_words(rt, cutting.pieces(), words);
    }
}

// Whether these are the words, by number.
fn assert_words(rt: &impl Abort, pieces: &[Piece], words: &[&[u16]]) {
    assert!(rt; pieces.len() == words.len());
    for (number, piece) in pieces.iter().enumerate() {
        assert_same(rt, u64::from(piece.number()), number as u64, number);
        assert_same(rt, piece.word(), words[number], number);
    }
}
