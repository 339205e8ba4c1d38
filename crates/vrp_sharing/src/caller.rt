//! The callers, which make offers to a register.
ghost use Rattle.std.specs.Prelude.{◌≡◌, length, []};

use crate::cost_word::CostSeat;
use std::marker::Model;
use std::sync::ledger::{Ledger, Share};

/// A caller of a register. It has a number, it knows the costs that it has seen, and its share of the register's ledger
/// counts its accepted offers.
#[derive(Drop)]
pub struct Caller<L: Ledger> {
    pub(crate) number: u32,
    pub(crate) share: Share<L>,
    pub(crate) seat: CostSeat,
}

impl<L: Ledger> Model for Caller<L> {
    ghost use Rattle.std.specs.Prelude.{◌≡◌, length};
    ghost use Rattle.vrp_sharing.specs.Caller.{CallerState};

    ghost Value = { CallerState };

    ghost view = { λ c. record { table = c.seat.table; known = c.seat.known } };

    ghost invariant = { λ c.
        (c.share.parts ≡ 1)
        × (c.seat.known.number ≡ c.number)
        × (c.share.amount ≡ length c.seat.known.mine) };
}

impl<L: Ledger> Caller<L> {
    /// A caller that has made no offer yet.
    pub(crate) fn new(number: u32, share: Share<L>, seat: CostSeat) -> Caller<L>
        requires part { share.parts ≡ 1 }
        requires amount { share.amount ≡ 0 }
        requires number { seat.known.number ≡ number }
        requires mine { seat.known.mine ≡ [] }
        ensures { result ≡ record { table = seat.table; known = seat.known } }
    {
        Caller {
            number,
            share,
            seat,
        }
    }

    /// Its share, and its seat.
    pub(crate) fn into_parts(self) -> (Share<L>, CostSeat)
        ensures part { result.0.parts ≡ 1 }
        ensures amount { result.0.amount ≡ length self.known.mine }
        ensures seat { result.1 ≡ record { table = self.table; known = self.known } }
    {
        let Caller {
            number: _,
            share,
            seat,
        } = self;
        (share, seat)
    }

    /// Its position among the callers of its register.
    pub fn number(&self) -> u32
        ensures { result ≡ self.now.known.number }
    {
        self.number
    }
}
