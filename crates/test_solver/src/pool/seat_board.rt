//! A board with its own register.
ghost use Rattle.std.specs.Prelude.{◌≡◌};
ghost use Rattle.std.specs.Option.{ForSome};
ghost use Rattle.vrp_model.specs.Route.{IsPlanOf};

use crate::pool::fixture::{both_directions_equal, three_nodes};
use std::alloc::Global;
use std::marker::Brand;
use std::process::Abort;
use std::sync::Wait;
use std::sync::ledger::{Blank, Ledger};
use test_fixtures::joined;
use vrp_model::{Instance, Plan};
use vrp_search_tree::Board;
use vrp_sharing::Register;
use vrp_solver::{NoGate, SeatBoard};

#[test]
fn one_seat(rt: HostRuntime) {
    check_one_seat::<Brand, HostRuntime>(&rt, rt.alloc(), Blank::new(1));
}

// The register opens with one truck for each customer, and the board is offered the plan of one truck.
fn check_one_seat<L: Ledger, R: Wait + Abort>(rt: &R, alloc: Global, blank: Blank)
    requires name { blank.name ≡ L.name }
    requires parts { blank.parts ≡ L.parts }
    requires one { blank.parts ≡ 1 }
{
    let instance = three_nodes(rt, alloc, 2);
    let joined = joined(alloc, &instance, 1).expect(rt, "a plan");
    let singles = Plan::singles(alloc, &instance).expect(rt, "memory");
    let opened = Register::<L>::new(alloc, singles, blank, 1);
    let (register, mut callers) = opened.expect(rt, "memory");
    let Some(caller) = callers.pop() else {
        unreachable!()
    };
    let mut board = SeatBoard::new(rt, &register, caller, &NoGate);
    assert!(rt; board.least() == 30);
    assert!(rt; least_after(rt, alloc, &instance, &mut board, &joined) == 20);
    let (_caller, best) = board.into_parts();
    assert!(rt; best.is_some_and(|plan| plan.word() == joined.word()));
    let kept = register.look(rt, alloc).expect(rt, "memory");
    assert!(rt; kept.is_some_and(|plan| plan.word() == joined.word()));
}

// Of two plans of the same cost the one with the earlier word is kept, whichever comes first.
#[test]
fn ties_go_by_the_word(rt: HostRuntime) {
    for first in [1, 2] {
        check_ties(&rt, rt.alloc(), first);
    }
}

fn check_ties<R: Wait + Abort>(rt: &R, alloc: Global, first: u16) {
    check_ties_of::<Brand, R>(rt, alloc, Blank::new(1), first);
}

// The board is offered the plan that serves this customer first, and then the other.
fn check_ties_of<L: Ledger, R: Wait + Abort>(rt: &R, alloc: Global, blank: Blank, first: u16)
    requires name { blank.name ≡ L.name }
    requires parts { blank.parts ≡ L.parts }
    requires one { blank.parts ≡ 1 }
{
    let instance = both_directions_equal(rt, alloc);
    assert!(rt; first <= 2);
    let earlier = joined(alloc, &instance, first).expect(rt, "a plan");
    let later = joined(alloc, &instance, 3 - first).expect(rt, "a plan");
    let opened = Register::<L>::new(alloc, None, blank, 1);
    let (register, mut callers) = opened.expect(rt, "memory");
    let Some(caller) = callers.pop() else {
        unreachable!()
    };
    let mut board = SeatBoard::new(rt, &register, caller, &NoGate);
    assert!(rt; least_after(rt, alloc, &instance, &mut board, &earlier) == 6);
    assert!(rt; least_after(rt, alloc, &instance, &mut board, &later) == 6);
    let (_caller, best) = board.into_parts();
    let is_earlier = best.is_some_and(|plan| plan.word() == [1, 2, 0].as_slice());
    assert!(rt; is_earlier, "{first}");
}

// The board's answer after it was offered a plan.
fn least_after<R: Wait, L: Ledger>(
    rt: &impl Abort,
    alloc: Global,
    instance: &Instance,
    board: &mut SeatBoard<'_, R, L, NoGate>,
    plan: &Plan,
) -> u64
    requires serves { ForSome board.old.best (IsPlanOf instance.now) }
    requires plan { IsPlanOf instance.now plan.now }
    ensures serves { ForSome board.new.best (IsPlanOf instance.now) }
{
    let offered = board.offer(alloc, plan);
    offered.expect(rt, "memory");
    board.least()
}
