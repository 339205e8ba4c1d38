//! Several workers find the same routes as one, in a game with enough labels for all of them.
ghost use Rattle.std.specs.Prelude.{◌≤◌};

use crate::pricing::fixture::{put, set_of};
use std::alloc::Global;
use std::process::Abort;
use std::thread::Threads;
use test_fixtures::{Random, one_each, with_arcs};
use vrp_columns_and_cuts::{Effort, Limit, Priced, PricedRoutes, RoutePricer};
use vrp_duals::{Duals, FoldedDuals, SubsetRow};
use vrp_model::{Crew, CustomerSet, Instance, Unhurried};

// The places of the game, and the capacity of each truck.
const PLACES: usize = 40;

const CAPACITY: u32 = 32;

// What the workers price.
#[derive(Drop)]
struct LargeGame {
    pricer: RoutePricer,
    folded: FoldedDuals,
    followers: Vec<CustomerSet>,
}

#[test]
fn routes_of_three_workers(rt: HostRuntime) {
    let alloc = rt.alloc();
    let game = large_game(&rt, alloc);
    for effort in [Effort::OneLabel, Effort::FewLabels, Effort::AllLabels] {
        let one = routes_of(&rt, alloc, &game, effort, 1);
        let three = routes_of(&rt, alloc, &game, effort, 3);
        assert!(rt; one.len() > 2 && one.labels == three.labels);
        assert!(rt; one.costs.as_slice() == three.costs.as_slice());
        assert!(rt; one.ends.as_slice() == three.ends.as_slice());
        assert!(rt; one.stops.as_slice() == three.stops.as_slice());
    }
}

#[test]
fn limit_of_three_workers(rt: HostRuntime) {
    let alloc = rt.alloc();
    let game = large_game(&rt, alloc);
    let exact = routes_of(&rt, alloc, &game, Effort::AllLabels, 1).labels;
    assert!(rt; exact > 10_000, "{exact} labels");
    for workers in [1, 3] {
        let met = priced(&rt, alloc, &game, Effort::AllLabels, workers, exact - 1);
        assert!(rt; matches!(met, Priced::Met(Limit::Labels)));
    }
}

// The routes that so many workers find.
fn routes_of(
    rt: &(impl Abort + Threads + Sync),
    alloc: Global,
    game: &LargeGame,
    effort: Effort,
    workers: u16,
) -> PricedRoutes
    requires { 1 ≤ workers }
{
    match priced(rt, alloc, game, effort, workers, 1_000_000) {
        Priced::Routes(routes) => Some(routes),
        Priced::Met(_) => None,
    }
    .expect(rt, "a limit was met")
}

// What so many workers find with so many labels at most.
fn priced(
    rt: &(impl Abort + Threads + Sync),
    alloc: Global,
    game: &LargeGame,
    effort: Effort,
    workers: u16,
    most_labels: usize,
) -> Priced
    requires { 1 ≤ workers }
{
    let crew = Crew {
        rt,
        alloc,
        workers,
        watch: &Unhurried,
    };
    game.pricer
        .find_routes(
            &crew,
            &game.folded,
            &game.followers,
            effort,
            100,
            most_labels,
            0,
        )
        .expect(rt, "memory")
}

// A random game in which each customer may follow each other one.
fn large_game(rt: &impl Abort, alloc: Global) -> LargeGame {
    let mut random = Random(9);
    let ones = one_each(alloc, PLACES).expect(rt, "demands");
    let weights = random_weights(rt, alloc, &mut random);
    let instance = with_arcs(alloc, &weights, &ones, 6).expect(rt, "an instance");
    let duals = random_duals(rt, alloc, &instance, &mut random);
    assert!(rt; duals.prices().len() == usize::from(instance.customers()) + 1);
    let mut demands = Vec::new(alloc);
    let mut all = CustomerSet::empty();
    for place in 0..PLACES as u16 {
        demands.push(random.next() % 3 + 1).expect(rt, "memory");
        all = all.with(place);
    }
    let near = vec![in alloc; set_of(&[1, 2, 3, 4, 5, 6, 7, 8]); PLACES].expect(rt, "memory");
    let made = RoutePricer::new(alloc, &demands, CAPACITY, &near);
    LargeGame {
        pricer: made.expect(rt, "memory").expect(rt, "a pricer"),
        folded: duals.fold(alloc, &instance).expect(rt, "memory"),
        followers: vec![in alloc; all; PLACES].expect(rt, "memory"),
    }
}

// Weights from 600 to 999, the same both ways.
fn random_weights(rt: &impl Abort, alloc: Global, random: &mut Random) -> Vec<u64> {
    let mut weights = vec![in alloc; 0u64; PLACES * PLACES].expect(rt, "memory");
    for from in 0..PLACES {
        for to in 0..from {
            let weight = u64::from(random.next() % 400) + 600;
            put(&mut weights, from, to, PLACES, weight);
            put(&mut weights, to, from, PLACES, weight);
        }
    }
    weights
}

// Prices of some hundreds, and eight subset rows. The customers that are remembered pay most.
fn random_duals(rt: &impl Abort, alloc: Global, instance: &Instance, random: &mut Random) -> Duals {
    let mut prices = Vec::new(alloc);
    prices.push(0).expect(rt, "memory");
    for place in 1..PLACES {
        let least = if place <= 8 { 1_500 } else { 700 };
        let price = i64::from(random.next() % 300) + least;
        prices.push(price).expect(rt, "memory");
    }
    let mut rows = Vec::new(alloc);
    for first in 1..9 {
        let customers = set_of(&[first, first + 9, first + 18]);
        let row = SubsetRow {
            customers,
            memory: customers.with(first + 1),
            price: u64::from(random.next() % 300),
        };
        rows.push(row).expect(rt, "memory");
    }
    Duals::new(instance, 1, prices, Vec::new(alloc), rows).expect(rt, "dual prices")
}
