//! Partial plans: a word that grows and shrinks by one symbol, with its tally kept in step.
ghost use Rattle.std.specs.Prelude.{◌≡◌, ◌<◌, ◌≤◌, ◌+◌, ◌*◌, ◌↔◌, [], ◌∷◌, ◌++◌, length, IsTrue, IfOk, vec_capacity};
ghost use Rattle.vrp_model.specs.Problem.{IsProblem, place_count};
ghost use Rattle.vrp_model.specs.Route.{IsPlanOf, load_of};
ghost use Rattle.vrp_model.specs.Word.{IsPrefix, IsLawfulWord, last_symbol, routes_of, served_in, unserved_in, word_cost, word_of};
ghost use Rattle.vrp_model.specs.declared.limits.TheConstants.{MAX_NODES, MAX_ARCS};
ghost use Rattle.vrp_search_tree.specs.Partial.{PartialPlan};
ghost use Rattle.vrp_model.specs.Prefix.{open_load};
ghost use Rattle.vrp_search_tree.specs.Tally.{IsTally};

mod children;
mod pruning;

use crate::tally::Tally;
use smallvec::SmallVec;
use std::alloc::Global;
use std::marker::Model;
use vrp_model::{Instance, NoMemory, Plan};

/// A partial plan: a word built from the empty one, child by child.
#[derive(Drop)]
pub struct Partial<'a> {
    instance: &'a Instance,
    // Room is reserved for the longest partial plan, and so is that of `before`.
    word: SmallVec<u16, 64>,
    // The tally before each symbol, for a pop to restore.
    before: SmallVec<Tally, 1>,
    // By place; the depot's flag has no meaning.
    served: Vec<bool>,
    tally: Tally,
}

/// The number of symbols, and of earlier tallies, that a partial plan has room for.
#[derive(Clone, Copy, Debug, PartialEq, Eq)]
pub struct Reserved {
    pub symbols: usize,
    pub tallies: usize,
}

impl<'a> Model for Partial<'a> {
    ghost use Rattle.vrp_search_tree.specs.Partial.{PartialPlan};
    ghost use Rattle.vrp_search_tree.specs.Inner.Tallied.{AreTallied, HasRoom};

    ghost Value = { PartialPlan };

    ghost view = { λ a. record { problem = a.instance.now; word = a.word.items } };

    ghost invariant = { λ a.
        AreTallied a.instance.now a.word.items a.served.items a.before.items a.tally
        × HasRoom a.instance.now a.word.capacity × HasRoom a.instance.now a.before.capacity };
}

impl<'a> Partial<'a> {
    /// The empty word of an instance, with room for the longest.
    pub fn root(alloc: Global, instance: &'a Instance) -> Result<Partial<'a>, NoMemory>
        ensures { IfOk result (λ partial. partial ≡ record { problem = instance.now; word = [] }) }
    {
        let customers = instance.customers();
        let room = 2 * usize::from(customers);
        let tally = Tally::root(instance);
        let word = SmallVec::with_capacity(alloc, room)?;
        let before = SmallVec::with_capacity(alloc, room)?;
        let served = Vec::from_elem(alloc, false, usize::from(customers) + 1)?;
        Ok(Partial {
            instance,
            word,
            before,
            served,
            tally,
        })
    }

    /// A partial plan of the instance, symbol by symbol, with room for the longest.
    pub fn at_prefix(
        alloc: Global,
        instance: &'a Instance,
        prefix: &[u16],
    ) -> Result<Partial<'a>, NoMemory>
        requires { IsPrefix instance.now prefix.now }
        ensures { IfOk result (λ partial. partial ≡ record { problem = instance.now; word = prefix.now }) }
    {
        let mut partial = Partial::root(alloc, instance)?;
        for symbol in prefix {
            partial.push(*symbol);
        }
        Ok(partial)
    }

    /// Adds a symbol at the end.
    pub fn push(&mut self, symbol: u16)
        requires { IsPrefix self.old.problem (self.old.word ++ symbol ∷ []) }
        ensures { self.new ≡ record { problem = self.old.problem; word = self.old.word ++ symbol ∷ [] } }
    {
        let tally = self.tally_after(symbol);
        self.push_counted(symbol, tally);
    }

    /// Adds a symbol at the end. The tally of the longer word is given, as `promising` answers it.
    #[inline(always)]
    pub fn push_counted(&mut self, symbol: u16, tally: Tally)
        requires child { IsPrefix self.old.problem (self.old.word ++ symbol ∷ []) }
        requires tally { IsTally self.old.problem (self.old.word ++ symbol ∷ []) tally }
        ensures { self.new ≡ record { problem = self.old.problem; word = self.old.word ++ symbol ∷ [] } }
    {
        self.word.push_reserved(symbol);
        self.before.push_reserved(self.tally);
        self.served[usize::from(symbol)] = true;
        self.tally = tally;
    }

    /// Removes the last symbol, and answers it.
    pub fn pop(&mut self) -> u16
        requires { 0 < length self.old.word }
        ensures problem { self.new.problem ≡ self.old.problem }
        ensures word { self.old.word ≡ self.new.word ++ result ∷ [] }
        ensures small { result < MAX_NODES }
    {
        let symbol = self.word.pop().unwrap();
        self.tally = self.before.pop().unwrap();
        self.served[usize::from(symbol)] = false;
        symbol
    }

    /// The symbols.
    pub fn word(&self) -> &[u16]
        ensures value { result.now ≡ self.now.word }
        // What is known of every partial plan.
        ensures prefix { IsPrefix self.now.problem self.now.word }
    {
        self.word.as_slice()
    }

    /// The number of symbols: at most two for each customer.
    #[inline(always)]
    pub fn depth(&self) -> usize
        ensures value { result ≡ length self.now.word }
        // What is known of every partial plan.
        ensures problem { IsProblem self.now.problem }
        ensures prefix { IsPrefix self.now.problem self.now.word }
    {
        self.word.len()
    }

    /// Whether every customer is served and no route is open.
    pub fn complete(&self) -> bool
        ensures { IsTrue result ↔ IsLawfulWord self.now.problem self.now.word }
    {
        self.tally.unserved == 0 && self.at() == 0
    }

    /// The cost of the word.
    pub fn cost(&self) -> u64
        ensures value { result ≡ word_cost self.now.problem self.now.word }
        ensures small { result ≤ 2 * MAX_ARCS }
    {
        self.tally.cost
    }

    /// The last place, 0 for the empty word.
    pub fn at(&self) -> u16
        ensures { result ≡ last_symbol self.now.word }
    {
        let word = self.word.as_slice();
        if word.is_empty() {
            return 0;
        }
        word[word.len() - 1]
    }

    /// The load of the open route, 0 if none is open.
    pub fn load(&self) -> u64
        ensures value { result ≡ open_load self.now.problem self.now.word }
        ensures fits { result ≤ self.now.problem.capacity }
    {
        self.tally.load
    }

    /// The number of routes, an open one included.
    pub fn routes(&self) -> u16
        ensures { result ≡ length (routes_of self.now.word) }
    {
        self.tally.routes
    }

    /// The demand of the unserved customers.
    pub fn rest(&self) -> u64
        ensures { result ≡ load_of self.now.problem (unserved_in self.now.problem self.now.word) }
    {
        self.tally.rest
    }

    /// The number of symbols, and of earlier tallies, that fit without another allocation. No clause says how many that is.
    pub fn reserved(&self) -> Reserved {
        Reserved {
            symbols: self.word.capacity(),
            tallies: self.before.capacity(),
        }
    }

    /// Replaces the contents of a list, which has room for all, by the unserved customers, by rising place.
    pub fn list_unserved(&self, list: &mut Vec<u16>)
        requires { place_count self.now.problem ≤ vec_capacity list.old + 1 }
        ensures listed { list.new.items ≡ unserved_in self.now.problem self.now.word }
        ensures room { vec_capacity list.new ≡ vec_capacity list.old }
        // What is known of every partial plan.
        ensures problem { IsProblem self.now.problem }
        ensures prefix { IsPrefix self.now.problem self.now.word }
    {
        list.clear();
        for customer in 1..self.instance.customers() + 1 {
            if !self.served[usize::from(customer)] {
                list.push_reserved(customer);
            }
        }
    }

    /// The plan of a complete word.
    pub fn plan(&self, alloc: Global) -> Result<Plan, NoMemory>
        requires { IsLawfulWord self.now.problem self.now.word }
        ensures word { IfOk result (λ plan. word_of plan.routes ≡ self.now.word) }
        ensures lawful { IfOk result (IsPlanOf self.now.problem) }
    {
        Plan::of_word(alloc, self.instance, self.word.as_slice())
    }
}
