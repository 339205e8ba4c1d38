//! The owner of a pile: it puts all pieces on it, draws from it, and takes in thieves.
ghost use Rattle.std.specs.Prelude.{◌≡◌, ◌<◌, ◌^◌, IfOk, None, [], length};
ghost use Rattle.vrp_sharing.specs.declared.limits.TheConstants.{MAX_DRAWERS};
ghost use Rattle.vrp_sharing.specs.Pile.{DrawsOrStays, DrewAll, IsNewThief, IsTakenIn, LeavesSoMany, one_part_less};

use crate::draws::{Counting, Drawing, Draws, Parting, Pieces, Putting};
use crate::thief::Thief;
use crossbeam_deque::Worker;
use std::alloc::{AllocError, Global};
use std::marker::Model;
use vrp_search_tree::Piece;

/// Draws from a pile, and takes in thieves.
#[derive(Drop)]
pub struct Owner {
    deque: Worker<Piece, Global, Draws, Pieces>,
}

impl Model for Owner {
    ghost use Rattle.std.specs.Prelude.{◌≡◌, ◌<◌, ◌^◌, length};
    ghost use Rattle.crossbeam_deque.specs.Handles.{worker_deque, worker_flavor, worker_view};
    ghost use Rattle.vrp_sharing.specs.Pile.{DrawerState};
    ghost use Rattle.vrp_sharing.specs.Inner.Piled.{drawer};

    ghost Value = { DrawerState };

    ghost view = { λ o. drawer (worker_deque o.deque) (worker_view o.deque) };

    ghost invariant = { λ o.
        (worker_flavor o.deque ≡ 0)
        × (0 < (worker_view o.deque).parts)
        × (length (worker_view o.deque).put < 2 ^ 32) };
}

impl Owner {
    /// The owner of a pile with these pieces, in order, which stands for all drawers.
    pub(crate) fn of_pieces(alloc: Global, pieces: Vec<Piece>) -> Result<Owner, AllocError>
        requires { length pieces.items < 2 ^ 32 }
        ensures parts { IfOk result (λ owner. owner.parts ≡ MAX_DRAWERS) }
        ensures put { IfOk result (λ owner. owner.put ≡ pieces.items) }
        ensures drawn { IfOk result (λ owner. owner.drawn ≡ []) }
    {
        let mut deque = Worker::fifo_as(alloc, pieces.len())?;
        for piece in pieces {
            let Ok(()) = deque.push_as::<Putting>(piece) else {
                unreachable!()
            };
        }
        Ok(Owner { deque })
    }

    /// A new thief of this pile.
    pub(crate) fn make_thief(&mut self) -> Result<Thief, AllocError>
        requires { 1 < self.old.parts }
        ensures owner { IfOk result (λ _. self.new ≡ one_part_less self.old) }
        ensures thief { IfOk result (IsNewThief self.old) }
    {
        let deque = self.deque.stealer()?;
        Ok(Thief {
            deque,
            pass: self.deque.another::<Parting>(),
        })
    }

    /// The oldest remaining piece. `None` means that at one moment of the call none was left: if the owner stands for all
    /// drawers, all pieces are then drawn. While thieves are out, no clause says what `None` means.
    pub fn take(&mut self) -> Option<Piece>
        ensures drawn { DrawsOrStays self.old result self.new }
        ensures all { result ≡ None → self.old.parts ≡ MAX_DRAWERS → DrewAll self.old }
    {
        self.deque.pop_as::<Drawing>()
    }

    /// Takes in a thief: its pieces count as drawn by the owner from then on.
    pub fn take_in(&mut self, thief: Thief)
        requires { thief.pile ≡ self.old.pile }
        ensures { IsTakenIn self.old thief self.new }
    {
        let Thief { deque: _, pass } = thief;
        self.deque.absorb::<Parting>(pass);
    }

    /// The number of remaining pieces, if the owner stands for all drawers.
    pub(crate) fn count_left(&mut self) -> u32
        requires { self.old.parts ≡ MAX_DRAWERS }
        ensures { LeavesSoMany self.old.drawn self.old.put result }
    {
        self.deque.len_as::<Counting>() as u32
    }
}
