//! Instances for tests, whose first place is the depot, and their pieces, cuttings and plans. Lack of memory ends the test.
ghost use Rattle.std.specs.Prelude.{length, ◌≡◌, ◌≤◌};
ghost use Rattle.std.specs.Option.{ForSome};
ghost use Rattle.vrp_model.specs.Route.{IsPlanOf};
ghost use Rattle.vrp_model.specs.Word.{IsPrefix};
ghost use Rattle.vrp_search_tree.specs.Cutting.{IsCutting};
ghost use Rattle.vrp_search_tree.specs.declared.cutting.TheConstants.{MAX_REFINED};

use std::alloc::Global;
use std::process::Abort;
use test_fixtures::{LINE, at_points, with_arcs};
use vrp_model::{Instance, MAX_NODES, Plan};
use vrp_search_tree::{Cutting, Local, MAX_PIECES, Partial, Piece};

/// The depot and two customers on a line, five apart.
pub(crate) fn three_on_a_line(rt: &impl Abort, alloc: Global, capacity: u64) -> Instance {
    at_points(alloc, LINE, &[0, 1, 1], capacity).expect(rt, "an instance")
}

/// Two customers, each a step from the depot, and nine steps from one another.
pub(crate) fn two_far_apart(rt: &impl Abort, alloc: Global) -> Instance {
    with_arcs(alloc, &[0, 1, 1, 1, 0, 9, 1, 9, 0], &[0, 1, 1], 2).expect(rt, "an instance")
}

/// This many nodes on a line, a step apart, the depot first. Each truck carries two customers.
pub(crate) fn on_a_line(rt: &impl Abort, alloc: Global, nodes: u16) -> Instance {
    let mut arcs = Vec::new(alloc);
    for from in 0..nodes {
        for to in 0..nodes {
            let arc = u64::from(from.abs_diff(to));
            arcs.push(arc).expect(rt, "memory");
        }
    }
    let demands = test_fixtures::one_each(alloc, usize::from(nodes)).expect(rt, "demands");
    with_arcs(alloc, &arcs, &demands, 2).expect(rt, "an instance")
}

/// The plan of one truck for each customer, if there are enough trucks.
pub(crate) fn singles(rt: &impl Abort, alloc: Global, instance: &Instance) -> Option<Plan>
    ensures { ForSome result (IsPlanOf instance.now) }
{
    Plan::singles(alloc, instance).expect(rt, "memory")
}

/// The plan of one truck for each customer, given enough trucks.
pub(crate) fn one_each(rt: &impl Abort, alloc: Global, instance: &Instance) -> Plan
    ensures { IsPlanOf instance.now result }
{
    let plan = Plan::singles(alloc, instance).expect(rt, "memory");
    plan.expect(rt, "a truck for each")
}

/// A board that is opened with this plan of the instance, or without one.
pub(crate) fn board_with(instance: &Instance, plan: Option<Plan>) -> Local
    requires { ForSome plan (IsPlanOf instance.now) }
    ensures { ForSome result (IsPlanOf instance.now) }
{
    Local::open(plan)
}

/// The partial plan of this word, which must be a prefix.
pub(crate) fn partial_at<'a>(
    rt: &impl Abort,
    alloc: Global,
    instance: &'a Instance,
    word: &[u16],
) -> Partial<'a>
    ensures { result.problem ≡ instance.now }
{
    let mut partial = Partial::root(alloc, instance).expect(rt, "memory");
    for &symbol in word {
        assert!(rt; partial.child(symbol));
        partial.push(symbol);
    }
    partial
}

/// The plan of this word, which must be feasible.
pub(crate) fn plan_of(rt: &impl Abort, alloc: Global, instance: &Instance, word: &[u16]) -> Plan
    ensures { IsPlanOf instance.now result }
{
    let partial = partial_at(rt, alloc, instance, word);
    assert!(rt; partial.complete());
    partial.plan(alloc).expect(rt, "memory")
}

/// The piece of this word, which must be a prefix.
pub(crate) fn piece_at(rt: &impl Abort, alloc: Global, instance: &Instance, word: &[u16]) -> Piece
    ensures { IsPrefix instance.now result.word }
{
    let partial = partial_at(rt, alloc, instance, word);
    let word = Vec::from_slice(alloc, partial.word()).expect(rt, "memory");
    Piece::new(0, word)
}

/// The piece in which each of the first customers has a truck of its own.
pub(crate) fn singles_prefix(
    rt: &impl Abort,
    alloc: Global,
    instance: &Instance,
    customers: u16,
) -> Piece
    ensures { IsPrefix instance.now result.word }
{
    let mut word = Vec::new(alloc);
    for index in 0..customers.min(MAX_NODES) {
        word.push(index + 1).expect(rt, "memory");
        word.push(0).expect(rt, "memory");
    }
    piece_at(rt, alloc, instance, &word)
}

/// The tree, cut into at least this many pieces if it has as many.
pub(crate) fn cut_into(rt: &impl Abort, alloc: Global, instance: &Instance, pieces: u32) -> Cutting
    ensures cutting { IsCutting instance.now result }
    ensures few { length result ≤ MAX_REFINED }
{
    assert!(rt; pieces <= MAX_PIECES);
    let mut cutting = Cutting::whole(alloc, instance).expect(rt, "memory");
    let made = cutting.at_least(alloc, instance, pieces);
    made.expect(rt, "memory");
    cutting
}
