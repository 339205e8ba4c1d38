//! Plans improved while there is time, by so many moves, and over given routes, by one worker and by several.
use crate::assertion::assert_same;
use crate::heuristic::fixture::{Told, by_matrix, scattered};
use std::alloc::Global;
use std::process::Abort;
use std::sync::atomic::{AtomicU64, Ordering};
use std::thread::Threads;
use vrp_heuristic::{evolved_plan, improved_plan, recombined_plan, savings_plan};
use vrp_model::{Crew, Instance, News, Plan, Unhurried, Watch};

// A watch that goes on for so many looks; a run looks at it before each 16th move.
#[derive(Drop)]
struct Looks {
    most: u64,
    made: AtomicU64,
    // The least cost that was heard of.
    heard: AtomicU64,
}

impl Looks {
    fn new(most: u64) -> Looks {
        Looks {
            most,
            made: AtomicU64::new(0),
            heard: AtomicU64::new(u64::MAX),
        }
    }
}

impl Watch for Looks {
    fn should_continue(&self) -> bool {
        self.made.fetch_add(1, Ordering::Relaxed) < self.most
    }

    fn on_news(&self, news: News) {
        if let News::Cheaper(cost) = news {
            self.heard.fetch_min(cost, Ordering::Relaxed);
        }
    }

    fn milliseconds_left(&self) -> Option<u64> {
        Some(self.most.saturating_sub(self.made.load(Ordering::Relaxed)))
    }
}

// The cost of the plan improved by this many workers and looks, and the least cost that the watch heard of.
fn improved<R: Threads + Abort + Sync>(
    rt: &R,
    alloc: Global,
    instance: &Instance,
    plan: &Plan,
    workers: u16,
    looks: u64,
) -> u64 {
    let watch = Looks::new(looks);
    assert!(rt; 1 <= workers && plan.fits(instance));
    let crew = Crew {
        rt,
        alloc,
        workers,
        watch: &watch,
    };
    let better = improved_plan(&crew, instance, plan).expect(rt, "memory");
    assert!(rt; better.cost() == plan.cost().min(watch.heard.load(Ordering::Relaxed)));
    better.cost()
}

// The weights, the demands, and the cost of a cheapest plan, worked out by hand: customers on a line, on either side of the
// depot, on a ring, and at one point. The capacity is two.
const BY_HAND: &[(&[u64], &[u64], u64)] = &[
    (&[0, 1, 2, 1, 0, 1, 2, 1, 0], &[0, 1, 1], 4),
    (&[0, 1, 1, 1, 0, 9, 1, 9, 0], &[0, 1, 1], 4),
    (&[0, 1, 2, 1, 0, 1, 2, 1, 0], &[0, 2, 2], 6),
    (
        &[0, 1, 9, 9, 9, 0, 1, 9, 9, 9, 0, 1, 1, 9, 9, 0],
        &[0, 0, 0, 0],
        4,
    ),
    (&[0, 0, 0, 0, 0, 0, 0, 0, 0], &[0, 1, 1], 0),
];

// The cheapest plan is found from one truck for each customer.
#[test]
fn cheapest_by_hand(rt: HostRuntime) {
    for &(arcs, demands, cost) in BY_HAND {
        let told = Told {
            demands,
            capacity: 2,
            trucks: 0,
        };
        let instance = by_matrix(&rt, rt.alloc(), arcs, told);
        let singles = Plan::singles(rt.alloc(), &instance).expect(&rt, "memory");
        let singles = singles.expect(&rt, "a plan");
        for workers in 1..4 {
            let found = improved(&rt, rt.alloc(), &instance, &singles, workers, 300);
            assert_same(&rt, found, cost, (arcs, workers));
        }
    }
}

// With many customers the plan becomes cheaper than that by savings, whose cost `compare/savings.py` computed.
#[test]
fn many_customers(rt: HostRuntime) {
    let instance = scattered(&rt, rt.alloc(), 1_200, 1, 0);
    let savings = savings_plan(rt.alloc(), &instance).expect(&rt, "memory");
    let savings = savings.expect(&rt, "a plan");
    assert_same(&rt, savings.cost(), 124_175, "by savings");
    for workers in [1, 3] {
        assert!(rt; improved(&rt, rt.alloc(), &instance, &savings, workers, 300) < 124_175);
    }
}

// So few customers have a population: its children, too, make the plan cheaper, and no plan is claimed that is not feasible.
#[test]
fn population(rt: HostRuntime) {
    let instance = scattered(&rt, rt.alloc(), 200, 1, 0);
    let savings = savings_plan(rt.alloc(), &instance).expect(&rt, "memory");
    let savings = savings.expect(&rt, "a plan");
    for workers in [1, 3] {
        let found = improved(&rt, rt.alloc(), &instance, &savings, workers, 2_000);
        assert!(rt; found < savings.cost());
    }
}

// With a limit on trucks each worker makes a run; here the plan keeps within it.
#[test]
fn few_trucks(rt: HostRuntime) {
    let instance = scattered(&rt, rt.alloc(), 60, 1, 3);
    let savings = savings_plan(rt.alloc(), &instance).expect(&rt, "memory");
    let savings = savings.expect(&rt, "a plan");
    assert!(rt; improved(&rt, rt.alloc(), &instance, &savings, 2, 500) <= savings.cost());
}

// Without a time limit the plan stays as it is.
#[test]
fn without_a_time(rt: HostRuntime) {
    let instance = scattered(&rt, rt.alloc(), 60, 0, 0);
    let singles = Plan::singles(rt.alloc(), &instance).expect(&rt, "memory");
    let singles = singles.expect(&rt, "a plan");
    let crew = Crew {
        rt: &rt,
        alloc: rt.alloc(),
        workers: 2,
        watch: &Unhurried,
    };
    let same = improved_plan(&crew, &instance, &singles).expect(&rt, "memory");
    assert_same(&rt, same.word(), singles.word(), "the word");
}

// The plan of one truck for each customer, improved by so many moves of a population.
fn evolved<R: Threads + Abort + Sync>(
    rt: &R,
    alloc: Global,
    instance: &Instance,
    workers: u16,
    moves: u64,
) -> Plan {
    assert!(rt; 1 <= workers);
    let crew = Crew {
        rt,
        alloc,
        workers,
        watch: &Unhurried,
    };
    let singles = Plan::singles(alloc, instance).expect(rt, "memory");
    let singles = singles.expect(rt, "a plan");
    evolved_plan(&crew, instance, singles, moves).expect(rt, "memory")
}

// So many moves find the cheapest plan, and the same one with any number of workers.
#[test]
fn moves_of_a_population(rt: HostRuntime) {
    for &(arcs, demands, cost) in BY_HAND {
        let told = Told {
            demands,
            capacity: 2,
            trucks: 0,
        };
        let instance = by_matrix(&rt, rt.alloc(), arcs, told);
        let one = evolved(&rt, rt.alloc(), &instance, 1, 4_000);
        let three = evolved(&rt, rt.alloc(), &instance, 3, 4_000);
        assert_same(&rt, one.cost(), cost, arcs);
        assert_same(&rt, three.word(), one.word(), arcs);
    }
}

// Given routes of three customers, each with demand 1, on a truck that carries two; and the cost of the cheapest plan over them and the
// routes of one customer each, worked out by hand. The customers are at 1, 2 and 3 on a line from the depot.
const ROUTES: &[(&[&[u16]], u64)] = &[
    (&[], 12),
    (&[&[1, 2]], 10),
    (&[&[1, 2], &[2, 3]], 8),
    (&[&[3, 1], &[1, 3]], 10),
    // Too much for a truck, a customer twice, and nobody whom the instance has: such routes are left out.
    (&[&[1, 2, 3]], 12),
    (&[&[2, 2], &[3, 1, 3]], 12),
    (&[&[4], &[2, 9], &[0], &[]], 12),
];

const SINGLE_ROUTES: &[&[u16]] = &[&[1], &[2], &[3]];

#[test]
fn recombined_routes(rt: HostRuntime) {
    let alloc = rt.alloc();
    let told = Told {
        demands: &[0, 1, 1, 1],
        capacity: 2,
        trucks: 0,
    };
    let line = [0, 1, 2, 3, 1, 0, 1, 2, 2, 1, 0, 1, 3, 2, 1, 0];
    let instance = by_matrix(&rt, alloc, &line, told);
    let crew = Crew {
        rt: &rt,
        alloc,
        workers: 2,
        watch: &Unhurried,
    };
    for &(given, cost) in ROUTES {
        let mut routes = Vec::new(alloc);
        for stops in SINGLE_ROUTES.iter().chain(given) {
            let stops = Vec::from_slice(alloc, stops).expect(&rt, "memory");
            routes.push(stops).expect(&rt, "memory");
        }
        let singles = Plan::singles(alloc, &instance).expect(&rt, "memory");
        let singles = singles.expect(&rt, "a plan");
        let found = recombined_plan(&crew, &instance, &routes, singles, 10_000);
        assert_same(&rt, found.expect(&rt, "memory").cost(), cost, given);
    }
}
