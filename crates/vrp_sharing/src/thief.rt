//! The thieves of a pile, which draw from it in other threads.
ghost use Rattle.vrp_sharing.specs.Drawn.{StealsOrStays};

use crate::draws::{Drawing, Draws, Pieces};
use crossbeam_deque::{Pass, Steal, Stealer};
use std::alloc::Global;
use std::marker::Model;
use vrp_search_tree::Piece;

// How often a thief tries again when another step interfered.
const MAX_STEALS: u32 = 64;

/// Draws from a pile.
#[derive(Drop)]
pub struct Thief {
    pub(crate) deque: Stealer<Piece, Global, Draws, Pieces>,
    pub(crate) pass: Pass<Piece, Draws>,
}

impl Model for Thief {
    ghost use Rattle.std.specs.Prelude.{◌≡◌};
    ghost use Rattle.crossbeam_deque.specs.Handles.{IsPassOf, stealer_deque, stealer_flavor, view as known};
    ghost use Rattle.vrp_sharing.specs.Pile.{DrawerState};
    ghost use Rattle.vrp_sharing.specs.Inner.Piled.{drawer};

    ghost Value = { DrawerState };

    ghost view = { λ t. drawer (stealer_deque t.deque) (known t.pass) };

    ghost invariant = { λ t.
        (stealer_flavor t.deque ≡ 0)
        × IsPassOf (stealer_deque t.deque) t.pass
        × ((known t.pass).parts ≡ 1) };
}

/// The answer to a thief.
#[derive(Debug, Drop)]
pub enum Drawn {
    /// A piece that nobody else gets.
    Piece(Piece),
    /// Nothing was left at one moment of the call.
    Empty,
    /// Each try met the step of another drawer.
    Busy,
}

impl Thief {
    /// The oldest remaining piece. No clause says when the answer is `Empty` or `Busy`.
    pub fn take(&mut self) -> Drawn
        ensures { StealsOrStays self.old result self.new }
    {
        for _ in 0..MAX_STEALS {
            match self.deque.steal_as::<Drawing>(&mut self.pass) {
                Steal::Success(piece) => return Drawn::Piece(piece),
                Steal::Empty => return Drawn::Empty,
                Steal::Retry => {}
            }
        }
        Drawn::Busy
    }
}
