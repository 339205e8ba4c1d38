//! The book: the first plan by cost and then by word, and the history of all offers.
ghost use Rattle.std.specs.Prelude.{◌≡◌, ◌<◌, IfOk, OnErr, Some, length, slice_get};
ghost use Rattle.std.specs.Option.{option_map};
ghost use Rattle.vrp_sharing.specs.History.{AddsEntry, AreAnswers, IsKeptOf, KeepsIfTrue, TellsIfBefore, opened_with, plans_of};

use crate::entry::Entry;
use std::alloc::Global;
use std::marker::Model;
use vrp_model::{NoMemory, Plan};

/// Keeps the first plan, by cost and then by word, among the opening plan and the offers, and every offer in order.
#[derive(Debug, Drop)]
pub struct Book {
    opening: Option<Plan>,
    plan: Option<Plan>,
    entries: Vec<Entry>,
}

impl Model for Book {
    ghost use Rattle.vrp_sharing.specs.History.{AreAnswers, BookState, IsKeptOf, plans_of};

    ghost Value = { BookState };

    ghost view = { λ b. record { opening = b.opening; plan = b.plan; entries = b.entries.items } };

    ghost invariant = { λ b.
        IsKeptOf (plans_of b.opening b.entries.items) b.plan
        × AreAnswers b.opening b.entries.items };
}

impl Book {
    /// A book that opens with a plan, or without one, and has no entries yet.
    pub fn open(alloc: Global, plan: Option<Plan>) -> Result<Book, NoMemory>
        ensures { IfOk result (λ book. book ≡ opened_with plan) }
    {
        let opening = copied(alloc, plan.as_ref())?;
        Ok(Book {
            opening,
            plan,
            entries: Vec::new(alloc),
        })
    }

    /// The kept plan: the first by cost and then by word among the opening plan and the offers, and the earliest among equal
    /// ones.
    pub fn plan(&self) -> Option<&Plan>
        ensures value { option_map (λ plan. plan.now) result ≡ self.now.plan }
        // An invariant of every book.
        ensures first { IsKeptOf (plans_of self.now.opening self.now.entries) self.now.plan }
    {
        self.plan.as_ref()
    }

    /// The kept plan, when nothing more is offered.
    pub fn into_plan(self) -> Option<Plan>
        ensures { result ≡ self.plan }
    {
        let Book { plan, .. } = self;
        plan
    }

    /// The number of accepted offers.
    pub fn entries(&self) -> usize
        ensures count { result ≡ length self.now.entries }
        // An invariant of every book.
        ensures answers { AreAnswers self.now.opening self.now.entries }
    {
        self.entries.len()
    }

    /// The offer at an index, in the order in which they were accepted.
    pub fn entry(&self, index: usize) -> &Entry
        requires { index < length self.now.entries }
        ensures { slice_get self.now.entries index ≡ Some result.now }
    {
        &self.entries[index]
    }

    /// Records an offer, and answers whether its plan is now the kept one. A refused offer changes nothing.
    pub fn offer(&mut self, alloc: Global, caller: u32, plan: &Plan) -> Result<bool, NoMemory>
        ensures kept { IfOk result (TellsIfBefore plan.now self.old.plan) }
        ensures plan { IfOk result (KeepsIfTrue plan.now self.old.plan self.new.plan) }
        ensures entry { IfOk result (AddsEntry self.old caller plan.now self.new) }
        ensures opening { self.new.opening ≡ self.old.opening }
        ensures err { OnErr result (self.new ≡ self.old) }
    {
        let copy = plan.copy(alloc)?;
        self.entries.reserve(1)?;
        let kept = keep_first(alloc, &mut self.plan, plan)?;
        self.entries.push_reserved(Entry {
            caller,
            plan: copy,
            kept,
        });
        Ok(kept)
    }
}

// Keeps the offered plan if it is before the other, and answers whether it is.
fn keep_first(alloc: Global, plan: &mut Option<Plan>, offered: &Plan) -> Result<bool, NoMemory>
    ensures kept { IfOk result (TellsIfBefore offered.now plan.old) }
    ensures plan { IfOk result (KeepsIfTrue offered.now plan.old plan.new) }
    ensures err { OnErr result (plan.new ≡ plan.old) }
{
    if is_before(offered, plan.as_ref()) {
        *plan = Some(offered.copy(alloc)?);
        return Ok(true);
    }
    Ok(false)
}

// Whether a plan is before the kept one, or none is kept.
fn is_before(offered: &Plan, kept: Option<&Plan>) -> bool
    ensures { TellsIfBefore offered.now (option_map (λ plan. plan.now) kept.entry) result }
{
    match kept {
        Some(kept) => offered.is_before(kept),
        None => true,
    }
}

/// A copy of a plan, if there is one.
pub(crate) fn copied(alloc: Global, plan: Option<&Plan>) -> Result<Option<Plan>, NoMemory>
    ensures { IfOk result (λ copy. copy ≡ option_map (λ plan. plan.now) plan.entry) }
{
    match plan {
        Some(plan) => Ok(Some(plan.copy(alloc)?)),
        None => Ok(None),
    }
}
