//! The removed customers, in the order in which they are put back.
ghost use Rattle.std.specs.Prelude.{◌≡◌, ◌<◌, IfOk};
ghost use Rattle.std.specs.List.{All};
ghost use Rattle.vrp_heuristic.specs.Inner.Turns.{IsTurn};
ghost use Rattle.vrp_model.specs.Problem.{place_count};

use crate::random::Random;
use crate::surroundings::Surroundings;
use std::alloc::Global;
use std::marker::Model;
use vrp_model::{Instance, NoMemory};

/// The turn of a customer; turns are compared by number, the lowest first, and then by place.
#[derive(Clone, Copy, Debug, PartialEq, Eq, PartialOrd, Ord)]
pub(crate) struct Turn {
    number: u64,
    pub customer: u16,
}

/// The order in which customers are put back.
#[derive(Clone, Copy)]
enum Order {
    Chance,
    GreatestDemand,
    Farthest,
    Nearest,
}

/// The removed customers. There is room for all, so no move allocates. Public for tests alone.
#[derive(Debug, Drop)]
pub struct Taken {
    places: u16,
    turns: Vec<Turn>,
}

impl Model for Taken {
    ghost use Rattle.std.specs.Prelude.{ℕ};
    ghost use Rattle.std.specs.List.{All};
    ghost use Rattle.vrp_heuristic.specs.Inner.Turns.{IsTurn};

    // The number of places.
    ghost Value = { ℕ };

    ghost view = { λ a. a.places };

    ghost invariant = { λ a. All (IsTurn a.places) a.turns.items };
}

impl Taken {
    /// An empty list with room for all customers of an instance; no clause says so. The error is lack of memory.
    pub fn new(alloc: Global, instance: &Instance) -> Result<Taken, NoMemory>
        ensures { IfOk result (λ taken. taken ≡ place_count instance.now) }
    {
        let customers = instance.customers();
        let turns = Vec::with_capacity(alloc, usize::from(customers))?;
        Ok(Taken {
            places: customers + 1,
            turns,
        })
    }

    /// Empties the list.
    pub(crate) fn clear(&mut self)
        ensures { self.new ≡ self.old }
    {
        self.turns.clear();
    }

    /// The customers' turns, in order.
    pub(crate) fn turns(&self) -> &[Turn]
        ensures { All (IsTurn self.now) result.now }
    {
        self.turns.as_slice()
    }

    /// Adds a customer, if there is room.
    pub(crate) fn add(&mut self, customer: u16)
        requires { customer < self.old }
        ensures { self.new ≡ self.old }
    {
        if self.turns.len() < self.turns.capacity() {
            self.turns.push_reserved(Turn {
                number: 0,
                customer,
            });
        }
    }

    /// Puts the customers into one of four orders at random.
    pub(crate) fn sort(&mut self, setting: &Surroundings<'_>, random: &mut Random)
        requires { self.old ≡ place_count setting.now }
        ensures { self.new ≡ self.old }
    {
        let order = match random.below(11) {
            0..=3 => Order::Chance,
            4..=7 => Order::GreatestDemand,
            8..=9 => Order::Farthest,
            _ => Order::Nearest,
        };
        sort_turns(&mut self.turns, setting, random, order);
    }
}

// Numbers the turns by the order, and sorts them.
fn sort_turns(turns: &mut Vec<Turn>, setting: &Surroundings<'_>, random: &mut Random, order: Order)
    requires { All (IsTurn (place_count setting.now)) turns.old.items }
    ensures { All (IsTurn (place_count setting.now)) turns.new.items }
{
    for index in 0..turns.len() {
        let customer = turns[index].customer;
        let number = order.number(setting, random, customer);
        turns[index] = Turn { number, customer };
    }
    turns.sort_unstable();
}

impl Order {
    // The number of a customer's turn.
    fn number(self, setting: &Surroundings<'_>, random: &mut Random, customer: u16) -> u64
        requires { customer < place_count setting.now }
    {
        match self {
            Order::Chance => u64::from(random.any()),
            Order::GreatestDemand => u64::MAX - setting.instance().demand(customer),
            Order::Farthest => u64::MAX - u64::from(setting.arcs().weight(0, customer)),
            Order::Nearest => u64::from(setting.arcs().weight(0, customer)),
        }
    }
}
