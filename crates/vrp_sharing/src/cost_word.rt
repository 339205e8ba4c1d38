//! The cost word: the least cost that any caller has offered, read and lowered without a lock.
ghost use Rattle.std.specs.Prelude.{◌≡◌, ◌<◌, IfOk, [], ◌∷◌, length};
ghost use Rattle.vrp_sharing.specs.Costs.{HaveHistory, IsOffered, IsSeen, offer_count};
ghost use Rattle.vrp_sharing.specs.Inner.Seats.{closing_with, maker_after, new_maker, seat_made, with_caller};

use crate::view::View;
use atomic_table::{Join, Play, Seat, Split, Table, TableRule};
use std::alloc::{AllocError, Global};
use std::marker::Model;

// The rule of the word. Its key is the opening cost and the greatest number of callers.
struct Costs;

impl TableRule<u8, View, (u64, u64)> for Costs {
    ghost use Rattle.vrp_sharing.specs.Inner.Seats.{maker};
    ghost use Rattle.vrp_sharing.specs.Inner.Kept.{IsCostState};

    ghost holds = { IsCostState };

    ghost first = { λ key. maker key.0 0 };
}

// A step that lowers the word.
struct Offering;

impl Play<u8, View> for Offering {
    ghost use Rattle.vrp_sharing.specs.Inner.Seats.{Offers};

    ghost then = { Offers };
}

// A step that reads the word.
struct Looking;

impl Play<u8, View> for Looking {
    ghost use Rattle.vrp_sharing.specs.Inner.Seats.{Looks};

    ghost then = { Looks };
}

// How the first seat makes callers, and how a seat takes in other seats.
struct SeatNumbering;

impl Split<View> for SeatNumbering {
    ghost use Rattle.vrp_sharing.specs.Inner.Seats.{made_left, made_right};

    ghost left = { made_left };

    ghost right = { made_right };
}

impl Join<View> for SeatNumbering {
    ghost use Rattle.vrp_sharing.specs.Inner.Seats.{taken_in, spent};

    ghost both = { taken_in };

    ghost spent = { spent };
}

/// The least cost that was offered, in one machine word.
#[derive(Drop)]
pub(crate) struct CostWord {
    table: Table<u8, View, (u64, u64), Costs, Global>,
}

impl Model for CostWord {
    ghost use Rattle.vrp_sharing.specs.Inner.Seats.{IsOneWord, WordState, word_of};

    ghost Value = { WordState };

    ghost view = { λ w. word_of w.table.shared.table_id w.table.shared.key };

    ghost invariant = { λ w. IsOneWord w.table.shared.table_id };
}

/// A caller's seat at the word.
#[derive(Drop)]
pub(crate) struct CostSeat {
    seat: Seat<u8, View>,
}

impl Model for CostSeat {
    ghost use Rattle.std.specs.Prelude.{◌≡◌, []};
    ghost use Rattle.vrp_sharing.specs.Inner.Seats.{SeatState, caller_of, seat_of};

    ghost Value = { SeatState };

    ghost view = { λ s. record { table = s.seat.table_id; known = caller_of s.seat.me.0 } };

    ghost invariant = { λ s. s.seat.me ≡ (seat_of (caller_of s.seat.me.0), []) };
}

/// The first seat, which makes the callers' seats.
#[derive(Drop)]
pub(crate) struct Maker {
    seat: Seat<u8, View>,
}

impl Model for Maker {
    ghost use Rattle.std.specs.Prelude.{◌≡◌, []};
    ghost use Rattle.vrp_sharing.specs.Inner.Seats.{MakerState, maker, maker_at};

    ghost Value = { MakerState };

    ghost view = { λ s. maker_at s.seat.table_id s.seat.me.0 };

    ghost invariant = { λ s. s.seat.me ≡ (maker s.seat.me.0.opening s.seat.me.0.next, []) };
}

/// A seat that has taken in other callers.
#[derive(Drop)]
pub(crate) struct ClosingSeat {
    seat: Seat<u8, View>,
}

impl Model for ClosingSeat {
    ghost use Rattle.std.specs.Prelude.{◌≡◌, []};
    ghost use Rattle.vrp_sharing.specs.Inner.Seats.{ClosingState, closing_with, seat_with};

    ghost Value = { ClosingState };

    ghost view = { λ s. closing_with s.seat.table_id s.seat.me.0.callers };

    ghost invariant = { λ s. s.seat.me ≡ (seat_with s.seat.me.0.callers, []) };
}

impl CostSeat {
    /// The seat, ready to take in others.
    pub(crate) fn closing(self) -> ClosingSeat
        ensures { result ≡ closing_with self.table (self.known ∷ []) }
    {
        ClosingSeat { seat: self.seat }
    }
}

impl CostWord {
    /// A word that holds this cost, and the seat that makes the others.
    pub(crate) fn new(
        alloc: Global,
        opening: u64,
        count: u64,
    ) -> Result<(CostWord, Maker), AllocError>
        ensures opening { IfOk result (λ made. made.0.opening ≡ opening) }
        ensures count { IfOk result (λ made. made.0.count ≡ count) }
        ensures seat { IfOk result (λ made. made.1 ≡ new_maker made.0.table opening) }
    {
        let (table, seat) = Table::of_words(alloc, &[opening], &(opening, count))?;
        Ok((CostWord { table }, Maker { seat }))
    }

    /// Lowers the word to a cost, unless it is lower, and answers its old value.
    pub(crate) fn offer(&self, seat: &mut CostSeat, cost: u64) -> u64
        requires { seat.old.table ≡ self.now.table }
        ensures table { seat.new.table ≡ seat.old.table }
        ensures offered { IsOffered seat.old.known cost result seat.new.known }
    {
        self.table
            .shared
            .fetch_min::<Offering>(&mut seat.seat, 0, cost)
    }

    /// The value of the word.
    pub(crate) fn least(&self, seat: &mut CostSeat) -> u64
        requires { seat.old.table ≡ self.now.table }
        ensures table { seat.new.table ≡ seat.old.table }
        ensures seen { IsSeen seat.old.known result seat.new.known }
    {
        self.table.shared.load::<Looking>(&mut seat.seat, 0)
    }

    /// The seat of the next caller.
    pub(crate) fn make(&self, maker: &mut Maker) -> CostSeat
        requires table { maker.old.table ≡ self.now.table }
        requires room { maker.old.next < self.now.count }
        ensures seat { result ≡ seat_made self.now.table maker.old }
        ensures maker { maker.new ≡ maker_after maker.old }
    {
        CostSeat {
            seat: self
                .table
                .shared
                .split_seat::<SeatNumbering>(&mut maker.seat),
        }
    }

    /// Takes in a caller, before the others.
    pub(crate) fn take_in(&self, closing: &mut ClosingSeat, caller: CostSeat)
        requires closing { closing.old.table ≡ self.now.table }
        requires caller { caller.table ≡ self.now.table }
        ensures { closing.new ≡ with_caller caller.known closing.old }
    {
        self.table
            .shared
            .join_seat::<SeatNumbering>(&mut closing.seat, caller.seat)
    }

    /// The value of the word at the end, once all callers were taken in: the least cost of their one history.
    pub(crate) fn close(self, closing: ClosingSeat) -> u64
        requires table { closing.table ≡ self.table }
        requires all { length closing.callers ≡ self.count }
        ensures { HaveHistory self.opening closing.callers (offer_count closing.callers) result }
    {
        let closed = self.table.close_with(closing.seat);
        let least = closed.word(0);
        closed.free();
        least
    }
}
