//! Giant tours: the routes of a plan one after the other, without the depot between them.
ghost use Rattle.std.specs.Prelude.{◌≡◌, ◌<◌, IfOk, OnOk, length, vec_len};
ghost use Rattle.std.specs.List.{All};
ghost use Rattle.vrp_heuristic.specs.Inner.Tables.{IsPlace};

use crate::near::Near;
use std::alloc::Global;
use vrp_model::NoMemory;

// The mean rank of a route is counted in parts of a rank.
const PARTS: u64 = 16;

/// A route of a word, between two positions. Routes are compared by the mean rank of their customers.
#[derive(Clone, Copy, PartialEq, Eq, PartialOrd, Ord)]
struct RankedRoute {
    rank: u64,
    start: usize,
    end: usize,
}

/// The rank of each place along a tour that always goes on to the nearest place left: near places mostly have near ranks.
pub(crate) fn place_ranks(alloc: Global, near: &Near, places: u16) -> Result<Vec<u16>, NoMemory>
    requires near { near.now ≡ places }
    requires some { 0 < places }
{
    let mut ranks = Vec::from_elem(alloc, 0, usize::from(places))?;
    let mut at = 0;
    for rank in 1..places {
        at = nearest_left(near, &ranks, at, places);
        ranks[usize::from(at)] = rank;
    }
    Ok(ranks)
}

// The nearest customer to a place that has no rank yet; the place itself if there is none.
fn nearest_left(near: &Near, ranks: &[u16], at: u16, places: u16) -> u16
    requires near { near.now ≡ places }
    requires ranks { length ranks.now ≡ places }
    requires at { at < places }
    ensures { result < places }
{
    for index in 0..places {
        let place = near.nearest(at, index);
        if place != 0 && ranks[usize::from(place)] == 0 {
            return place;
        }
    }
    at
}

/// The routes of a word as one tour, those of the lowest mean rank first.
pub(crate) fn giant_tour(alloc: Global, word: &[u16], ranks: &[u16]) -> Result<Vec<u16>, NoMemory> {
    let mut routes = ranked_routes(alloc, word, ranks)?;
    routes.sort_unstable();
    let mut tour = Vec::with_capacity(alloc, word.len())?;
    for route in &routes {
        if route.start <= route.end && route.end <= word.len() {
            tour.extend_from_slice(&word[route.start..route.end])?;
        }
    }
    Ok(tour)
}

// The routes of a word, in its order.
fn ranked_routes(alloc: Global, word: &[u16], ranks: &[u16]) -> Result<Vec<RankedRoute>, NoMemory> {
    let mut routes = Vec::new(alloc);
    let mut start = 0;
    let mut sum: u64 = 0;
    for end in 0..word.len() {
        let place = usize::from(word[end]);
        if place == 0 {
            let stops = (end - start) as u64;
            let rank = sum / stops.max(1);
            routes.push(RankedRoute { rank, start, end })?;
            start = end + 1;
            sum = 0;
        } else if place < ranks.len() {
            sum = sum.saturating_add(u64::from(ranks[place]) * PARTS);
        }
    }
    Ok(routes)
}

/// The part of a tour between two positions, and then the other customers in the order of another tour (ordered crossover).
pub(crate) fn crossed(
    alloc: Global,
    one: &[u16],
    other: &[u16],
    from: usize,
    to: usize,
    places: u16,
) -> Result<Vec<u16>, NoMemory>
    ensures { IfOk result (λ tour. All (IsPlace places) tour.items) }
{
    let to = to.min(one.len()).min(other.len());
    let from = from.min(to);
    let mut tour = Vec::with_capacity(alloc, usize::from(places))?;
    let mut has = Vec::from_elem(alloc, false, usize::from(places))?;
    push_new(&mut tour, &mut has, &one[from..to])?;
    push_new(&mut tour, &mut has, &other[to..])?;
    push_new(&mut tour, &mut has, &other[..to])?;
    Ok(tour)
}

// Adds those customers of a part that a tour doesn't have yet.
fn push_new(tour: &mut Vec<u16>, has: &mut Vec<bool>, part: &[u16]) -> Result<(), NoMemory>
    requires { All (IsPlace (vec_len has.old)) tour.old.items }
    ensures len { vec_len has.new ≡ vec_len has.old }
    ensures places { OnOk result (All (IsPlace (vec_len has.old)) tour.new.items) }
{
    for symbol in part {
        let place = usize::from(*symbol);
        if place < has.len() && !has[place] {
            has[place] = true;
            tour.push(*symbol)?;
        }
    }
    Ok(())
}
