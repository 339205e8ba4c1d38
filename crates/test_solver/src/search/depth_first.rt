//! Searches of small trees, and of a piece at the limits of an instance.
ghost use Rattle.std.specs.Prelude.{◌≤◌};
ghost use Rattle.std.specs.Option.{ForSome};
ghost use Rattle.vrp_model.specs.Route.{IsPlanOf};
ghost use Rattle.vrp_model.specs.Word.{IsPrefix};

use crate::assertion::assert_same;
use crate::search::fixture::{
    board_with, on_a_line, piece_at, plan_of, singles, singles_prefix, three_on_a_line,
    two_far_apart,
};
use crate::search::piece::own_tables;
use std::alloc::Global;
use std::process::Abort;
use vrp_bound::Tables;
use vrp_model::{Instance, MAX_NODES, NO_COST, NoMemory, Plan};
use vrp_search_tree::{Board, Cutting, Ended, Local, Piece, search};

// The expected end of a search: how many partial plans it looks at, and the word of the plan that it found, empty if none;
// or, if it is left unfinished, the low.
#[derive(Clone, Copy, Debug, PartialEq, Eq)]
pub(crate) enum End<'a> {
    Finished(u64, &'a [u16]),
    Unfinished(u64, u64),
}

// The capacity, the budget, how the search ends, and the cost of the board's plan afterwards.
const THREE_NODES: &[(u64, u64, End<'_>, u64)] = &[
    (2, 1, End::Unfinished(1, 20), 30),
    (2, 6, End::Unfinished(6, 20), 30),
    (2, 7, End::Unfinished(7, 20), 20),
    (2, 8, End::Finished(8, &[1, 2, 0]), 20),
    (2, 1_000, End::Finished(8, &[1, 2, 0]), 20),
    (1, 5, End::Unfinished(5, 20), 30),
    (1, 6, End::Finished(6, &[1, 0, 2, 0]), 30),
];

#[test]
fn three_nodes_on_a_line(rt: HostRuntime) {
    for &(capacity, budget, end, cost) in THREE_NODES {
        let instance = three_on_a_line(&rt, rt.alloc(), capacity);
        let plan = singles(&rt, rt.alloc(), &instance);
        assert_search(&rt, rt.alloc(), &instance, plan, budget, (end, cost));
    }
}

// The capacity, how the search ends, and the cost of the board's plan afterwards.
const ONE_TRUCK: &[(u64, End<'_>, u64)] = &[
    (2, End::Finished(6, &[1, 2, 0]), 20),
    (1, End::Finished(1, &[]), NO_COST),
];

// Two customers fit on a truck, and there is one truck: the plan serves both with it. If each demand needs its own truck,
// there is no plan.
#[test]
fn one_truck_for_two(rt: HostRuntime) {
    for &(capacity, end, cost) in ONE_TRUCK {
        let instance = three_on_a_line(&rt, rt.alloc(), capacity).with_trucks(1);
        let plan = singles(&rt, rt.alloc(), &instance);
        assert!(rt; plan.is_none());
        assert_search(&rt, rt.alloc(), &instance, plan, 1_000, (end, cost));
    }
}

// The budget, how the search ends, and the cost of the board's plan afterwards.
const DEAR_PLAN: &[(u64, End<'_>, u64)] = &[
    (1, End::Unfinished(1, 4), 11),
    (4, End::Unfinished(4, 4), 11),
    (5, End::Unfinished(5, 4), 4),
    (6, End::Unfinished(6, 4), 4),
    (7, End::Finished(7, &[1, 0, 2, 0]), 4),
];

// Both customers are a step from the depot and nine steps from one another: one truck for both costs 11, and two trucks cost
// 4. The costly plan stays until a cheaper one is looked at, the fifth.
#[test]
fn opened_with_a_costly_plan(rt: HostRuntime) {
    let instance = two_far_apart(&rt, rt.alloc());
    for &(budget, end, cost) in DEAR_PLAN {
        let plan = plan_of(&rt, rt.alloc(), &instance, &[1, 2, 0]);
        assert_same(&rt, plan.cost(), 11, "the plan");
        assert_search(&rt, rt.alloc(), &instance, Some(plan), budget, (end, cost));
    }
}

// Of 1,199 customers at the places 1 to 1,199 of a line, all but the last two have a truck, there and back. The last two are
// still to be carried: in the tables that costs no more than twice to the first customer and back.
#[test]
fn deep_piece_at_the_limits(rt: HostRuntime) {
    let (rt, alloc) = (&rt, rt.alloc());
    let instance = on_a_line(rt, alloc, MAX_NODES);
    let piece = singles_prefix(rt, alloc, &instance, MAX_NODES - 3);
    assert_same(rt, piece.word().len(), 2_394, "symbols");
    let mut board = board_with(&instance, singles(rt, alloc, &instance));
    let ended = search_piece(alloc, &instance, &piece, 1, &mut board);
    let priced_tally = 1_197 * 1_198;
    assert_end(
        rt,
        &ended.expect(rt, "memory"),
        End::Unfinished(1, priced_tally + 4),
    );
    assert_same(rt, board.least(), 1_199 * 1_200, "the least cost");
}

// Behind the first customer's truck the second one is left. With tables over both, a tour for the rest may go to the first.
#[test]
fn tables_over_those_left_are_tighter(rt: HostRuntime) {
    let instance = three_on_a_line(&rt, rt.alloc(), 1);
    let piece = piece_at(&rt, rt.alloc(), &instance, &[1, 0]);
    let mut board = board_with(&instance, singles(&rt, rt.alloc(), &instance));
    let ended = search_piece(rt.alloc(), &instance, &piece, 1, &mut board);
    assert_left(&rt, ended, &mut board, 20);
    let mut board = board_with(&instance, singles(&rt, rt.alloc(), &instance));
    let ended = search_over_unserved(rt.alloc(), &instance, &piece, 1, &mut board);
    assert_left(&rt, ended, &mut board, 30);
}

// The search was left unfinished at once, and the board has the plan of one truck each.
fn assert_left(rt: &impl Abort, ended: Result<Ended, NoMemory>, board: &mut Local, low: u64) {
    assert_end(rt, &ended.expect(rt, "memory"), End::Unfinished(1, low));
    assert_same(rt, board.least(), 30, low);
}

/// Asserts how a search ended.
pub(crate) fn assert_end(rt: &impl Abort, ended: &Ended, end: End<'_>) {
    let found = match ended {
        Ended::Finished { spent, first } => {
            End::Finished(*spent, first.as_ref().map_or(&[], Plan::word))
        }
        Ended::Unfinished { spent, low } => End::Unfinished(*spent, *low),
    };
    assert_same(rt, found, end, "the end");
}

// Searches the whole tree with a board that has this plan: this is how it ends, and the cost of the board's plan afterwards.
fn assert_search(
    rt: &impl Abort,
    alloc: Global,
    instance: &Instance,
    plan: Option<Plan>,
    budget: u64,
    ending: (End<'_>, u64),
)
    requires { ForSome plan (IsPlanOf instance.now) }
{
    let (end, cost) = ending;
    assert!(rt; budget >= 1);
    let mut board = board_with(instance, plan);
    let ended = search_all(alloc, instance, budget, &mut board);
    assert_end(rt, &ended.expect(rt, "memory"), end);
    assert_same(rt, board.least(), cost, budget);
}

/// Searches the whole tree with tables over all customers.
pub(crate) fn search_all<B: Board>(
    alloc: Global,
    instance: &Instance,
    budget: u64,
    board: &mut B,
) -> Result<Ended, NoMemory>
    requires board { B.serves board.old instance.now }
    requires budget { 1 ≤ budget }
{
    let cutting = Cutting::whole(alloc, instance)?;
    search_piece(alloc, instance, &cutting.pieces()[0], budget, board)
}

// Searches a piece with tables over all customers.
fn search_piece<B: Board>(
    alloc: Global,
    instance: &Instance,
    piece: &Piece,
    budget: u64,
    board: &mut B,
) -> Result<Ended, NoMemory>
    requires piece { IsPrefix instance.now piece.now.word }
    requires board { B.serves board.old instance.now }
    requires budget { 1 ≤ budget }
{
    let tables = Tables::over_all(alloc, instance)?;
    search(alloc, instance, &tables, piece, budget, board)
}

// Searches a piece with tables over the customers that it leaves unserved.
fn search_over_unserved(
    alloc: Global,
    instance: &Instance,
    piece: &Piece,
    budget: u64,
    board: &mut Local,
) -> Result<Ended, NoMemory>
    requires piece { IsPrefix instance.now piece.now.word }
    requires board { ForSome board.old (IsPlanOf instance.now) }
    requires budget { 1 ≤ budget }
{
    let tables = own_tables(alloc, instance, piece)?;
    search(alloc, instance, &tables, piece, budget, board)
}
