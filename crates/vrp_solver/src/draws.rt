//! How a worker draws from the pile: as its owner, or as a thief.
ghost use Rattle.std.specs.Prelude.{◌≡◌, [], ⊤};
ghost use Rattle.vrp_sharing.specs.Drawn.{MatchDrawn};
ghost use Rattle.vrp_sharing.specs.Pile.{AreShared, DrawerState, IsDrawn};
ghost use Rattle.vrp_sharing.specs.declared.limits.TheConstants.{MAX_DRAWERS};

use vrp_sharing::{Drawn, Owner, Thief};

/// Draws from a pile.
pub(crate) trait Drawer: Drop {
    ghost drawer: { Self → DrawerState };

    // The fact known when a draw gives no piece.
    ghost at_end: { DrawerState → Type 0 } = { λ _. ⊤ };

    /// The oldest remaining piece, if any.
    fn draw(&mut self) -> Drawn
        ensures drawn { MatchDrawn result (drawer self.new ≡ drawer self.old) (λ piece. IsDrawn (drawer self.old) piece (drawer self.new)) }
        ensures at_end { MatchDrawn result (at_end (drawer self.new)) (λ _. ⊤) };
}

impl Drawer for Owner {
    ghost drawer = { λ owner. owner };

    ghost at_end = { λ owner. owner.parts ≡ MAX_DRAWERS → AreShared owner.drawn [] owner.put };

    fn draw(&mut self) -> Drawn {
        match self.take() {
            Some(piece) => Drawn::Piece(piece),
            None => Drawn::Empty,
        }
    }
}

impl Drawer for Thief {
    ghost drawer = { λ thief. thief };

    fn draw(&mut self) -> Drawn {
        self.take()
    }
}
