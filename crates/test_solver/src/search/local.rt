//! Offers to the board of one thread.
ghost use Rattle.vrp_model.specs.Route.{IsPlanOf};
ghost use Rattle.vrp_search_tree.specs.Board.{KeepsPlanOf};

use crate::assertion::assert_same;
use crate::search::fixture::{board_with, one_each, plan_of, three_on_a_line};
use std::alloc::Global;
use std::process::Abort;
use test_fixtures::with_arcs;
use vrp_model::{Instance, NO_COST, Plan};
use vrp_search_tree::{Board, Local};

// Opened with the plan of one truck each and offered it again.
#[test]
fn keeps_its_plan(rt: HostRuntime) {
    let instance = three_on_a_line(&rt, rt.alloc(), 2);
    let singles = one_each(&rt, rt.alloc(), &instance);
    let mut board = opened(&rt, rt.alloc(), &instance, &singles);
    assert_least(&rt, &instance, &mut board, 30);
    offer(&rt, rt.alloc(), &instance, &mut board, &singles);
    assert_least(&rt, &instance, &mut board, 30);
    assert_same(&rt, board.plan().map(Plan::routes), Some(2), "routes");
}

#[test]
fn takes_a_plan_where_it_has_none(rt: HostRuntime) {
    let instance = three_on_a_line(&rt, rt.alloc(), 2);
    let mut board = board_with(&instance, None);
    assert_least(&rt, &instance, &mut board, NO_COST);
    assert!(rt; board.plan().is_none());
    let singles = one_each(&rt, rt.alloc(), &instance);
    offer(&rt, rt.alloc(), &instance, &mut board, &singles);
    assert_least(&rt, &instance, &mut board, 30);
}

// Both directions of the route cost the same: the earlier word is kept, and the later one is not accepted again.
#[test]
fn keeps_the_earlier_word(rt: HostRuntime) {
    let arcs = [0, 1, 2, 2, 0, 1, 4, 2, 0];
    let instance = with_arcs(rt.alloc(), &arcs, &[0, 1, 1], 2).expect(&rt, "an instance");
    let earlier = plan_of(&rt, rt.alloc(), &instance, &[1, 2, 0]);
    let later = plan_of(&rt, rt.alloc(), &instance, &[2, 1, 0]);
    assert_same(&rt, (earlier.cost(), later.cost()), (6, 6), "costs");
    let mut board = opened(&rt, rt.alloc(), &instance, &later);
    assert_kept(&rt, rt.alloc(), &instance, &mut board, &earlier);
    offer(&rt, rt.alloc(), &instance, &mut board, &later);
    assert_kept(&rt, rt.alloc(), &instance, &mut board, &earlier);
}

// A board that has a plan of the instance.
fn opened(rt: &impl Abort, alloc: Global, instance: &Instance, plan: &Plan) -> Local
    requires { IsPlanOf instance.now plan.now }
    ensures { KeepsPlanOf instance.now result }
{
    Local::open(Some(plan.copy(alloc).expect(rt, "memory")))
}

fn offer(rt: &impl Abort, alloc: Global, instance: &Instance, board: &mut Local, plan: &Plan)
    requires plan { IsPlanOf instance.now plan.now }
    requires board { KeepsPlanOf instance.now board.old }
    ensures { KeepsPlanOf instance.now board.new }
{
    board.offer(alloc, plan).expect(rt, "memory");
}

fn assert_least(rt: &impl Abort, instance: &Instance, board: &mut Local, cost: u64)
    requires { KeepsPlanOf instance.now board.old }
    ensures { KeepsPlanOf instance.now board.new }
{
    assert_same(rt, board.least(), cost, "the least cost");
}

// Offers a plan, which the board keeps.
fn assert_kept(rt: &impl Abort, alloc: Global, instance: &Instance, board: &mut Local, plan: &Plan)
    requires plan { IsPlanOf instance.now plan.now }
    requires board { KeepsPlanOf instance.now board.old }
    ensures { KeepsPlanOf instance.now board.new }
{
    offer(rt, alloc, instance, board, plan);
    assert_same(
        rt,
        board.plan().map(Plan::word),
        Some(plan.word()),
        "the plan",
    );
    assert_least(rt, instance, board, plan.cost());
}
