//! Enters prices and cut prices into the arcs.
use crate::ascent::walks::{Walks, at};

impl Walks {
    /// Enters the arcs anew: each costs its scaled weight plus the prices of its two ends. There is one scaled price for each
    /// place; earlier cut prices are gone. The tables keep their last contents. The contract leaves open what arcs cost.
    pub fn enter(&mut self, prices: &[i64]) {
        for to in 0..self.places() {
            let own = at(prices, to);
            if let Some((arcs, weights)) = self.arcs_into(to) {
                enter_prices(arcs, weights, prices, own);
            }
        }
    }

    /// Takes a scaled cut price off each arc between a marked and an unmarked place. There is one mark for each place. The
    /// tables keep their last contents. The contract leaves open what arcs cost.
    pub fn take_off(&mut self, inside: &[bool], cut_price: i64) {
        for to in 0..self.places() {
            let own = inside.get(to).copied().unwrap_or(false);
            if let Some((arcs, _)) = self.arcs_into(to) {
                take_off(arcs, inside, own, cut_price);
            }
        }
    }
}

// Enters the arcs into a place that has this price.
fn enter_prices(arcs: &mut [i64], weights: &[i64], prices: &[i64], own: i64) {
    for (arc, (&weight, &price)) in arcs.iter_mut().zip(weights.iter().zip(prices)) {
        *arc = weight.wrapping_add(price).wrapping_add(own);
    }
}

// Takes a cut price off the arcs into a place that come from the other side of the border.
fn take_off(arcs: &mut [i64], inside: &[bool], own: bool, cut_price: i64) {
    for (arc, &other) in arcs.iter_mut().zip(inside) {
        if other != own {
            *arc = arc.wrapping_sub(cut_price);
        }
    }
}
