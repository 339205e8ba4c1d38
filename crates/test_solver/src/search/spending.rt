//! Searches that their board stops.
ghost use Rattle.std.specs.Prelude.{true, ⊤};

use crate::assertion::assert_same;
use crate::search::depth_first::search_all;
use std::alloc::Global;
use std::process::Abort;
use test_fixtures::{SCATTERED, at_points};
use vrp_model::{Instance, NO_COST, NoMemory, Plan};
use vrp_search_tree::{Board, Ended};

// A board that keeps only the least cost.
#[derive(Drop)]
struct CostBoard {
    least: u64,
    should_continue: bool,
}

impl Board for CostBoard {
    ghost serves = { λ _ _. ⊤ };

    ghost floor = { λ board. board.least };

    ghost keeps = { λ _ _. ⊤ };

    ghost may_stop = { λ _. true };

    fn least(&mut self) -> u64 {
        self.least
    }

    fn offer(&mut self, _alloc: Global, plan: &Plan) -> Result<(), NoMemory> {
        self.least = self.least.min(plan.cost());
        Ok(())
    }

    fn should_continue(&self) -> bool {
        self.should_continue
    }
}

// The board's answer, the budget, and how many partial plans are looked at. The board is asked after 65,536 of them.
const STOPS: &[(bool, u64, u64)] = &[
    (false, 1, 1),
    (false, 65_535, 65_535),
    (false, 65_536, 65_536),
    (false, 65_537, 65_536),
    (false, 1_000_000, 65_536),
    (true, 65_537, 65_537),
    (true, 200_000, 200_000),
];

// Twenty customers, four to a truck.
#[test]
fn stops_where_the_board_says_so(rt: HostRuntime) {
    let instance = at_points(rt.alloc(), &SCATTERED, ONE_EACH, 4).expect(&rt, "an instance");
    for &(should_continue, budget, looked) in STOPS {
        assert_looked(
            &rt,
            rt.alloc(),
            &instance,
            (should_continue, budget),
            looked,
        );
    }
}

// Asserts how many partial plans are looked at before the search ends unfinished.
fn assert_looked(
    rt: &impl Abort,
    alloc: Global,
    instance: &Instance,
    (should_continue, budget): (bool, u64),
    looked: u64,
) {
    let mut board = CostBoard {
        least: NO_COST,
        should_continue,
    };
    assert!(rt; budget >= 1);
    let ended = search_all(alloc, instance, budget, &mut board).expect(rt, "memory");
    let Ended::Unfinished { spent, .. } = ended else {
        panic!(rt; "{ended:?}")
    };
    assert_same(rt, spent, looked, (should_continue, budget));
}

const ONE_EACH: &[u64] = &[
    0, 1, 1, 1, 1, 1, 1, 1, 1, 1, 1, 1, 1, 1, 1, 1, 1, 1, 1, 1, 1,
];
