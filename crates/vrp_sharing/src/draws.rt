//! The knowledge of a pile's drawers, and how it changes. These types have no values at run time: they exist only in proofs.
use crossbeam_deque::protocol::{Join, Lesson, Outcome, Protocol, Split};
use std::collections::LinkedList;
use vrp_search_tree::Piece;

/// A drawer's knowledge: how many of the pile's drawers it stands for, the pieces put on the pile, and those that it drew.
pub struct Draws {
    pub parts: u64,
    pub put: LinkedList<Piece>,
    pub drawn: LinkedList<Piece>,
}

/// The rule of a pile.
pub struct Pieces;

impl Protocol<Piece, Draws> for Pieces {
    ghost use Rattle.std.specs.Prelude.{[]};
    ghost use Rattle.vrp_sharing.specs.declared.limits.TheConstants.{MAX_DRAWERS};
    ghost use Rattle.vrp_sharing.specs.Inner.Piled.{IsPiled, draws};

    ghost holds = { IsPiled };

    ghost first = { draws MAX_DRAWERS [] [] };

    ghost guest = { draws 0 [] [] };
}

/// One drawer becomes two, or two become one.
pub struct Parting;

impl Split<Draws> for Parting {
    ghost use Rattle.std.specs.Prelude.{◌-◌, []};
    ghost use Rattle.vrp_sharing.specs.Inner.Piled.{draws};

    ghost left = { λ v. draws (v.parts - 1) v.put v.drawn };

    ghost right = { λ v. draws 1 v.put [] };
}

impl Join<Draws> for Parting {
    ghost use Rattle.std.specs.Prelude.{◌+◌, ◌++◌, []};
    ghost use Rattle.vrp_sharing.specs.Inner.Piled.{draws};

    ghost both = { λ v w. draws (v.parts + w.parts) v.put (v.drawn ++ w.drawn) };

    ghost spent = { draws 0 [] [] };
}

/// A piece is put on the pile.
pub struct Putting;

impl Outcome<Piece, Draws> for Putting {
    ghost use Rattle.std.specs.Prelude.{◌++◌, ◌≡◌};
    ghost use Rattle.vrp_sharing.specs.Inner.Piled.{draws};

    ghost then = { λ v xs w. w ≡ draws v.parts (v.put ++ xs) v.drawn };
}

/// A piece is drawn, or none is left.
pub struct Drawing;

impl Outcome<Piece, Draws> for Drawing {
    ghost use Rattle.std.specs.Prelude.{◌≡◌, []};
    ghost use Rattle.vrp_sharing.specs.declared.limits.TheConstants.{MAX_DRAWERS};
    ghost use Rattle.vrp_sharing.specs.Inner.Piled.{Draw};
    ghost use Rattle.vrp_sharing.specs.Pile.{AreShared};

    ghost then = { Draw };

    ghost empty = { λ v. v.parts ≡ MAX_DRAWERS → AreShared v.drawn [] v.put };
}

/// The remaining pieces are counted.
pub struct Counting;

impl Lesson<Piece, Draws> for Counting {
    ghost use Rattle.vrp_sharing.specs.Pile.{AreShared};

    ghost fact = { λ v left. AreShared v.drawn left v.put };
}
