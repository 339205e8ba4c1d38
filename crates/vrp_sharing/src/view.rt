//! The callers' knowledge of the costs. These types have no values at run time: they exist only in proofs.
use std::collections::LinkedList;

/// A caller has offered a cost.
pub struct Offer {
    pub caller: u64,
    pub cost: u64,
}

/// A caller's knowledge: its number, the opening cost, the history that it has seen, and its own offers in it.
pub struct Known {
    pub number: u64,
    pub opening: u64,
    pub seen: LinkedList<Offer>,
    pub mine: LinkedList<Offer>,
}

/// The view of a seat at the cost word: the knowledge of its callers. A caller's seat has only its own, until it takes in
/// others. The first seat makes the callers, by rising number.
pub struct View {
    pub makes: bool,
    pub next: u64,
    pub opening: u64,
    pub callers: LinkedList<Known>,
}
