//! The register that all callers share.
ghost use Rattle.std.specs.Prelude.{◌≡◌, ◌≤◌, IfOk, OnErr, length, vec_len};
ghost use Rattle.std.specs.List.{All};
ghost use Rattle.std.specs.Option.{option_map};
ghost use Rattle.vrp_model.specs.Cheapest.{cost_of};
ghost use Rattle.vrp_sharing.specs.Caller.{newcomers, IsCallerOf, AreCallersOf, accepted_of, known_of};
ghost use Rattle.vrp_sharing.specs.Costs.{HaveHistory, IsOffered, IsSeen};
ghost use Rattle.vrp_sharing.specs.Inner.Seats.{closing_with};

use crate::book::{Book, copied};
use crate::caller::Caller;
use crate::cost_word::{ClosingSeat, CostWord};
use crate::counted::CountedBook;
use std::alloc::Global;
use std::marker::Model;
use std::sync::ledger::{Blank, Ledger, Share};
use std::sync::{Mutex, Wait};
use vrp_model::{NO_COST, NoMemory, Plan};

/// Keeps the first plan that any caller has offered, by cost and then by word, and the least cost in a machine word that is
/// read without the lock.
#[derive(Drop)]
pub struct Register<L: Ledger> {
    book: Mutex<CountedBook<L>>,
    least: CostWord,
}

impl<L: Ledger> Model for Register<L> {
    ghost use Rattle.std.specs.Prelude.{◌≡◌, ◌≤◌};
    ghost use Rattle.vrp_sharing.specs.Caller.{RegisterState};
    ghost use Rattle.vrp_sharing.specs.Inner.Seats.{register_with};

    ghost Value = { RegisterState };

    ghost view = { λ r. register_with r.least };

    ghost invariant = { λ r. (1 ≤ r.least.count) × (r.least.count ≡ L.parts) };
}

/// The answer to an offer: whether the plan is now the kept one, and the least cost before it.
#[derive(Clone, Copy, Debug, PartialEq, Eq)]
pub struct Reply {
    /// The book's answer: the plan is before all others in it.
    pub kept: bool,
    /// The value of the cost word before this offer.
    pub before: u64,
}

/// A register after its last offer.
#[derive(Debug, Drop)]
pub struct Closed {
    /// The kept plan, and all offers.
    pub book: Book,
    /// The least of the opening cost and all offered costs.
    pub least: u64,
}

impl<L: Ledger> Register<L> {
    /// A register that opens with a plan, or without one, and its callers. The blank becomes the ledger of their accepted
    /// offers.
    pub fn new(
        alloc: Global,
        plan: Option<Plan>,
        blank: Blank,
        callers: u32,
    ) -> Result<(Register<L>, Vec<Caller<L>>), NoMemory>
        requires name { blank.name ≡ L.name }
        requires parts { blank.parts ≡ L.parts }
        requires callers { callers ≡ L.parts }
        requires some { 1 ≤ callers }
        requires few { callers ≤ 64 }
        ensures callers { IfOk result (λ made.
            made.1.items ≡ newcomers made.0.table (cost_of plan) callers) }
        ensures all { IfOk result (λ made. made.0.callers ≡ callers) }
        ensures opening { IfOk result (λ made. made.0.opening ≡ cost_of plan) }
    {
        let (accepted, mut all) = blank.open::<L>();
        let opening = opening_cost(plan.as_ref());
        let (least, mut maker) = CostWord::new(alloc, opening, u64::from(callers))?;
        let book = CountedBook::open(alloc, plan, accepted)?;
        let mut made = Vec::with_capacity(alloc, callers as usize)?;
        for number in 0..callers {
            made.push(Caller::new(number, all.split_off(1, 0), least.make(&mut maker)))?;
        }
        Ok((
            Register {
                book: Mutex::new(book),
                least,
            },
            made,
        ))
    }

    /// Offers a plan under the lock, and then its cost to the word. A refused offer changes nothing.
    pub fn offer<R: Wait>(
        &self,
        rt: &R,
        alloc: Global,
        caller: &mut Caller<L>,
        plan: &Plan,
    ) -> Result<Reply, NoMemory>
        requires { IsCallerOf self.now caller.old }
        ensures caller { IsCallerOf self.now caller.new }
        ensures offered { IfOk result (λ reply.
            IsOffered caller.old.known plan.now.cost reply.before caller.new.known) }
        ensures err { OnErr result (caller.new ≡ caller.old) }
    {
        let kept = self
            .book
            .lock(rt)
            .offer(alloc, caller.number, &mut caller.share, plan)?;
        let before = self.least.offer(&mut caller.seat, plan.cost());
        Ok(Reply { kept, before })
    }

    /// A copy of the kept plan, if there is one. No clause says which plan it is, since other callers may offer meanwhile.
    pub fn look<R: Wait>(&self, rt: &R, alloc: Global) -> Result<Option<Plan>, NoMemory> {
        copied(alloc, self.book.lock(rt).book.plan())
    }

    /// The least of the opening cost and the costs offered so far. It takes no lock.
    pub fn least(&self, caller: &mut Caller<L>) -> u64
        requires { IsCallerOf self.now caller.old }
        ensures caller { IsCallerOf self.now caller.new }
        ensures seen { IsSeen caller.old.known result caller.new.known }
    {
        self.least.least(&mut caller.seat)
    }

    /// Closes the register with all its callers. The book has as many entries as they had offers accepted. There is one
    /// history of costs; it is that of these callers and as long as the book, and the answered cost is its least.
    pub fn close(self, callers: Vec<Caller<L>>) -> Closed
        requires { AreCallersOf self callers.items }
        ensures entries { length result.book.entries ≡ accepted_of callers.items }
        ensures history { HaveHistory self.opening (known_of callers.items)
            (length result.book.entries) result.least }
    {
        let Register { book, least } = self;
        let (shares, seats) = merged(&least, callers);
        let book = book.into_inner().close(shares);
        Closed {
            book,
            least: least.close(seats),
        }
    }
}

// The cost of the opening plan.
fn opening_cost(plan: Option<&Plan>) -> u64
    ensures { result ≡ cost_of (option_map (λ plan. plan.now) plan.entry) }
{
    match plan {
        Some(plan) => plan.cost(),
        None => NO_COST,
    }
}

// All shares as one, and a seat that has taken in all callers.
fn merged<L: Ledger>(least: &CostWord, mut callers: Vec<Caller<L>>) -> (Share<L>, ClosingSeat)
    requires some { 1 ≤ vec_len callers }
    requires table { All (λ c. c.table ≡ least.now.table) callers.items }
    ensures parts { result.0.parts ≡ vec_len callers }
    ensures amount { result.0.amount ≡ accepted_of callers.items }
    ensures seats { result.1 ≡ closing_with least.now.table (known_of callers.items) }
{
    let Some(last) = callers.pop() else {
        unreachable!()
    };
    let (mut shares, seat) = last.into_parts();
    let mut seats = seat.closing();
    while let Some(caller) = callers.pop() {
        let (share, seat) = caller.into_parts();
        shares.merge(share);
        least.take_in(&mut seats, seat);
    }
    (shares, seats)
}
