//! The children of a partial plan: which symbols make one, and what is counted along its word.
ghost use Rattle.std.specs.Prelude.{◌≡◌, ◌<◌, ◌≤◌, ◌+◌, ◌*◌, ◌↔◌, [], ◌∷◌, ◌++◌, length, IsTrue, IfSome};
ghost use Rattle.vrp_model.specs.Problem.{place_count};
ghost use Rattle.vrp_model.specs.Word.{IsPrefix, last_symbol};
ghost use Rattle.vrp_model.specs.declared.limits.TheConstants.{MAX_NODES};
ghost use Rattle.vrp_search_tree.specs.Child.{HasTruckForOneMore, TellsNextChild};
ghost use Rattle.vrp_search_tree.specs.Inner.Tallied.{IsGreatestBelow};
ghost use Rattle.vrp_search_tree.specs.Tally.{IsTally};

use crate::partial::Partial;
use crate::tally::Tally;

impl<'a> Partial<'a> {
    /// Whether a symbol makes a child.
    pub fn child(&self, symbol: u16) -> bool
        ensures { IsTrue result ↔ IsPrefix self.now.problem (self.now.word ++ symbol ∷ []) }
    {
        let customers = self.instance.customers();
        let at = self.at();
        if symbol == 0 {
            return at != 0 && (self.tally.first_customer <= at || !self.instance.symmetric());
        }
        if symbol > customers || self.served[usize::from(symbol)] {
            return false;
        }
        if at == 0 {
            return self.tally.first_customer < symbol && self.has_truck();
        }
        self.tally.load + self.instance.demand(symbol) <= self.instance.capacity()
    }

    // Whether one more route may be opened.
    #[inline(always)]
    fn has_truck(&self) -> bool
        ensures { IsTrue result ↔ HasTruckForOneMore self.now }
    {
        match self.instance.trucks() {
            None => true,
            Some(trucks) => self.tally.routes < trucks,
        }
    }

    /// The first symbol from this one on that makes a child: 0 for the depot, and else a customer's place. `None` where there is
    /// none.
    pub fn next_child(&self, from: u16) -> Option<u16>
        ensures next { TellsNextChild self.now from result }
        ensures small { IfSome result (λ symbol. symbol < MAX_NODES) }
    {
        if self.at() == 0 {
            return self.next_opening(from);
        }
        if from == 0 && self.child(0) {
            return Some(0);
        }
        self.next_stop(from)
    }

    // The first customer from this one on with whom a route can be opened, where none is open.
    #[inline(always)]
    fn next_opening(&self, from: u16) -> Option<u16>
        requires { last_symbol self.now.word ≡ 0 }
        ensures next { TellsNextChild self.now from result }
        ensures small { IfSome result (λ symbol. symbol < MAX_NODES) }
    {
        let first_customer = self.tally.first_customer;
        if !self.has_truck() {
            return None;
        }
        for customer in from.max(first_customer)..self.instance.customers() + 1 {
            if first_customer < customer && !self.served[usize::from(customer)] {
                return Some(customer);
            }
        }
        None
    }

    // The first customer from this one on whom the open route can take in, where the depot is no child from this symbol on.
    #[inline(always)]
    fn next_stop(&self, from: u16) -> Option<u16>
        requires open { 0 < last_symbol self.now.word }
        requires depot { from ≡ 0 → IsPrefix self.now.problem (self.now.word ++ 0 ∷ []) → ⊥ }
        ensures next { TellsNextChild self.now from result }
        ensures small { IfSome result (λ symbol. symbol < MAX_NODES) }
    {
        let room = self.instance.capacity() - self.tally.load;
        for customer in from.max(1)..self.instance.customers() + 1 {
            if !self.served[usize::from(customer)] && self.instance.demand(customer) <= room {
                return Some(customer);
            }
        }
        None
    }

    /// What is counted along the word with one more symbol.
    #[inline(always)]
    pub(crate) fn tally_after(&self, symbol: u16) -> Tally
        requires { IsPrefix self.now.problem (self.now.word ++ symbol ∷ []) }
        ensures tally { IsTally self.now.problem (self.now.word ++ symbol ∷ []) result }
        ensures place { symbol < place_count self.now.problem }
        ensures short { length self.now.word + 3 ≤ 2 * place_count self.now.problem }
    {
        let at = self.at();
        let tally = self.tally;
        let cost = tally.cost + self.instance.weight(at, symbol);
        if symbol == 0 {
            return Tally {
                cost,
                load: 0,
                rest: tally.rest,
                inbound_sum: tally.inbound_sum,
                first_customer: tally.first_customer,
                unserved: tally.unserved,
                greatest: tally.greatest,
                routes: tally.routes,
            };
        }
        let demand = self.instance.demand(symbol);
        let first_customer = if at == 0 {
            symbol
        } else {
            tally.first_customer
        };
        let routes = if at == 0 {
            tally.routes + 1
        } else {
            tally.routes
        };
        let greatest = if symbol == tally.greatest {
            self.greatest_below(symbol)
        } else {
            tally.greatest
        };
        Tally {
            cost,
            load: tally.load + demand,
            rest: tally.rest - demand,
            inbound_sum: tally.inbound_sum - self.instance.least_in(symbol),
            first_customer,
            unserved: tally.unserved - 1,
            greatest,
            routes,
        }
    }

    // The greatest unserved customer below this one, 0 where there is none.
    fn greatest_below(&self, customer: u16) -> u16
        requires { customer < place_count self.now.problem }
        ensures { IsGreatestBelow self.now.problem self.now.word customer result }
    {
        for lower in (1..customer).rev() {
            if !self.served[usize::from(lower)] {
                return lower;
            }
        }
        0
    }
}
