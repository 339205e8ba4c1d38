//! Conversion of routes from and to a word.
ghost use Rattle.std.specs.Prelude.{◌≡◌, ◌<◌, IfSome};
ghost use Rattle.vrp_model.specs.Problem.{place_count};

use crate::routes::{Gap, Routes, Stop};
use crate::surroundings::Surroundings;
use std::alloc::Global;
use vrp_model::{Instance, NoMemory};

// A stop on a route, and the place before it, 0 for the depot.
#[derive(Clone, Copy)]
struct Walk {
    last: u16,
    at: u16,
}

impl Routes {
    /// Puts the customers of a word, in which 0 ends each route, onto new routes. There are no routes yet.
    pub(crate) fn load(&mut self, setting: &Surroundings<'_>, word: &[u16])
        requires { self.old ≡ place_count setting.now }
        ensures { self.new ≡ self.old }
    {
        let customers = setting.instance().customers();
        let mut route = customers.min(1);
        let mut before = 0;
        for symbol in word {
            let place = *symbol;
            if place == 0 {
                route = customers.min(route.saturating_add(1));
            } else if place <= customers {
                self.put(setting, place, Gap { route, before });
            }
            before = place.min(customers);
        }
    }

    /// The routes as a word: by rising first customer, each followed by 0. In a symmetric instance each runs from the lower of its ends. The
    /// error is lack of memory. No clause pins the word, and it need not be that of a feasible plan.
    pub fn word(&self, alloc: Global, instance: &Instance) -> Result<Vec<u16>, NoMemory>
        requires { self.now ≡ place_count instance.now }
    {
        let mut word = Vec::with_capacity(alloc, 2 * usize::from(instance.customers()))?;
        self.append_word(instance, &mut word)?;
        Ok(word)
    }

    /// Adds the routes as a word to a list.
    pub(crate) fn append_word(
        &self,
        instance: &Instance,
        word: &mut Vec<u16>,
    ) -> Result<(), NoMemory>
        requires { self.now ≡ place_count instance.now }
    {
        let customers = instance.customers();
        for first in 1..customers + 1 {
            if self.is_start(first, instance) {
                self.push_route(first, customers, word)?;
            }
        }
        Ok(())
    }

    // Whether a route starts at a customer.
    fn is_start(&self, customer: u16, instance: &Instance) -> bool
        requires places { self.now ≡ place_count instance.now }
        requires customer { customer < self.now }
    {
        let stop = self.stop(customer);
        if stop.route == 0 {
            return false;
        }
        if !instance.symmetric() {
            return stop.before == 0;
        }
        (stop.before == 0 || stop.after == 0)
            && customer <= self.far_end(customer, instance.customers())
    }

    // The other end of the route of at most this many stops that has one end here.
    fn far_end(&self, end: u16, most: u16) -> u16
        requires { end < self.now }
    {
        let mut walk = Walk { last: 0, at: end };
        for _ in 0..most {
            let Some(next) = self.onward(walk) else {
                break;
            };
            walk = next;
        }
        walk.at
    }

    // Adds the route of at most this many stops that has one end here, from this end on.
    fn push_route(&self, end: u16, most: u16, word: &mut Vec<u16>) -> Result<(), NoMemory>
        requires { end < self.now }
    {
        let mut walk = Walk { last: 0, at: end };
        for _ in 0..most {
            word.push(walk.at)?;
            let Some(next) = self.onward(walk) else {
                break;
            };
            walk = next;
        }
        word.push(0)?;
        Ok(())
    }

    // The next stop: the neighbour that isn't the last place. `None` at the end of the route.
    fn onward(&self, walk: Walk) -> Option<Walk>
        requires { walk.at < self.now }
        ensures { IfSome result (λ next. next.at < self.now) }
    {
        let Walk { last, at } = walk;
        let Stop { before, after, .. } = self.stop(at);
        let next = if before == last { after } else { before };
        if next == 0 {
            return None;
        }
        Some(Walk { last: at, at: next })
    }
}
