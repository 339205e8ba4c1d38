//! The data under the register's lock: the book, and the number of its callers' accepted offers.
ghost use Rattle.std.specs.Prelude.{◌≡◌, ◌+◌, ◌<◌, IfOk, OnOk, OnErr, length};
ghost use Rattle.vrp_sharing.specs.History.{AddsEntry, KeepsIfTrue, TellsIfBefore, opened_with};

use crate::book::Book;
use std::alloc::Global;
use std::sync::ledger;
use std::sync::ledger::{Ledger, Share};
use vrp_model::{NoMemory, Plan};

/// The book, and the total of the callers' accepted offers, which is the number of its entries.
#[derive(Drop)]
pub(crate) struct CountedBook<L: Ledger> {
    pub(crate) book: Book,
    accepted: ledger::Book<L>,
    ghost counted: { length book.entries ≡ accepted.total },
}

impl<L: Ledger> CountedBook<L> {
    /// A book that opens with a plan, or without one.
    pub(crate) fn open(
        alloc: Global,
        plan: Option<Plan>,
        accepted: ledger::Book<L>,
    ) -> Result<CountedBook<L>, NoMemory>
        requires { accepted.total ≡ 0 }
        ensures { IfOk result (λ counted. counted.book ≡ opened_with plan) }
    {
        Ok(CountedBook {
            book: Book::open(alloc, plan)?,
            accepted,
        })
    }

    /// One offer: an entry of the book, and one more accepted offer of the caller.
    pub(crate) fn offer(
        &mut self,
        alloc: Global,
        caller: u32,
        share: &mut Share<L>,
        plan: &Plan,
    ) -> Result<bool, NoMemory>
        requires { 0 < share.old.parts }
        ensures parts { share.new.parts ≡ share.old.parts }
        ensures accepted { OnOk result (share.new.amount ≡ share.old.amount + 1) }
        ensures kept { IfOk result (TellsIfBefore plan.now self.old.book.plan) }
        ensures plan { IfOk result (KeepsIfTrue plan.now self.old.book.plan self.new.book.plan) }
        ensures entry { IfOk result (AddsEntry self.old.book caller plan.now self.new.book) }
        ensures opening { self.new.book.opening ≡ self.old.book.opening }
        ensures err_book { OnErr result (self.new.book ≡ self.old.book) }
        ensures err_share { OnErr result (share.new ≡ share.old) }
    {
        let kept = self.book.offer(alloc, caller, plan)?;
        self.accepted.add(share, 1);
        Ok(kept)
    }

    /// The book, which has as many entries as all parts of the ledger count.
    pub(crate) fn close(self, mut shares: Share<L>) -> Book
        requires { shares.parts ≡ L.parts }
        ensures book { result ≡ self.book }
        ensures count { length result.entries ≡ shares.amount }
    {
        let CountedBook { book, mut accepted } = self;
        accepted.audit(&mut shares);
        book
    }
}
