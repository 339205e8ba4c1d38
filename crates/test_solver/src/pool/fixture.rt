//! Instances for tests, and cuttings of them. Lack of memory ends the test.
ghost use Rattle.std.specs.Prelude.{length, ◌*◌, ◌≤◌};
ghost use Rattle.vrp_search_tree.specs.Cutting.{IsCutting};
ghost use Rattle.vrp_search_tree.specs.declared.cutting.TheConstants.{MAX_REFINED};

use std::alloc::Global;
use std::process::Abort;
use test_fixtures::{
    E_N22_K4_DEMANDS, E_N22_K4_POINTS, LINE, Random, SCATTERED, at_points, one_each, with_arcs,
};
use vrp_model::Instance;
use vrp_search_tree::{Cutting, MAX_PIECES};

/// Places at these points, the depot first, at rounded Euclidean distances. Each customer demands 1.
fn alike(rt: &impl Abort, alloc: Global, points: &[(i64, i64)], capacity: u64) -> Instance {
    let demands = one_each(alloc, points.len()).expect(rt, "demands");
    at_points(alloc, points, &demands, capacity).expect(rt, "an instance")
}

/// Three nodes at (0, 0), (3, 4) and (6, 8): two customers, who both fit on one truck of capacity 2.
pub(crate) fn three_nodes(rt: &impl Abort, alloc: Global, capacity: u64) -> Instance {
    alike(rt, alloc, LINE, capacity)
}

/// Two customers, for whom the words 1 2 0 and 2 1 0 cost 6 each.
pub(crate) fn both_directions_equal(rt: &impl Abort, alloc: Global) -> Instance {
    let entries = [0, 1, 2, 2, 0, 1, 4, 2, 0];
    with_arcs(alloc, &entries, &[0, 1, 1], 2).expect(rt, "an instance")
}

/// The depot alone.
pub(crate) fn depot_alone(rt: &impl Abort, alloc: Global) -> Instance {
    alike(rt, alloc, &[(0, 0)], 1)
}

/// Ten nodes in two rows of five, ten apart: one truck can go around all of them by steps of 10, in one direction and its
/// reverse.
pub(crate) fn ring(rt: &impl Abort, alloc: Global) -> Instance {
    let points = [
        (0, 0),
        (10, 0),
        (20, 0),
        (30, 0),
        (40, 0),
        (40, 10),
        (30, 10),
        (20, 10),
        (10, 10),
        (0, 10),
    ];
    alike(rt, alloc, &points, 9)
}

// The distances of twenty customers from the depot.
const AWAY: [i64; 20] = [
    80, 160, 30, 110, 190, 60, 140, 10, 90, 170, 40, 120, 200, 70, 150, 20, 100, 180, 50, 130,
];

/// Twenty customers on a line from the depot, ten apart, in no order: one truck can go out and back for 400.
pub(crate) fn line(rt: &impl Abort, alloc: Global) -> Instance {
    let mut points = Vec::new(alloc);
    points.push((0, 0)).expect(rt, "memory");
    for away in AWAY {
        points.push((away, 0)).expect(rt, "memory");
    }
    alike(rt, alloc, &points, 20)
}

/// Seven scattered nodes: six customers, three to a truck.
pub(crate) fn seven_nodes(rt: &impl Abort, alloc: Global) -> Instance {
    let points = [
        (68, 88),
        (17, 98),
        (27, 45),
        (41, 22),
        (10, 61),
        (52, 59),
        (58, 87),
    ];
    alike(rt, alloc, &points, 3)
}

/// Ten scattered nodes: nine customers, who fit on one truck, at a cost of 322.
pub(crate) fn ten_nodes(rt: &impl Abort, alloc: Global) -> Instance {
    alike(rt, alloc, &SCATTERED[1..11], 9)
}

/// A grid with this many columns and rows, ten apart, whose middle place is the depot. The customers are numbered row by row.
pub(crate) fn grid(
    rt: &impl Abort,
    alloc: Global,
    (columns, rows): (u16, u16),
    capacity: u64,
) -> Instance {
    assert!(rt; 1 <= columns && columns <= 10 && rows <= 10);
    let places = columns * rows;
    let depot = places / 2;
    let mut points = Vec::new(alloc);
    points.push(place(depot, columns)).expect(rt, "memory");
    for number in 0..places {
        if number != depot {
            points.push(place(number, columns)).expect(rt, "memory");
        }
    }
    alike(rt, alloc, &points, capacity)
}

// The position of the place with this number in a grid with this many columns.
fn place(number: u16, columns: u16) -> (i64, i64)
    requires { 1 ≤ columns }
{
    (
        i64::from(number % columns) * 10,
        i64::from(number / columns) * 10,
    )
}

/// E-n22-k4 of Christofides and Eilon (1969), in hundreds: 21 customers, whose cheapest plan costs 375.
pub(crate) fn four_trucks(rt: &impl Abort, alloc: Global) -> Instance {
    at_points(alloc, E_N22_K4_POINTS, E_N22_K4_DEMANDS, 60).expect(rt, "an instance")
}

/// Up to sixty customers at random points, whose demands are all of different sizes from 101 to 160.
pub(crate) fn varied(
    rt: &impl Abort,
    alloc: Global,
    seed: u64,
    customers: u8,
    capacity: u64,
) -> Instance {
    let mut random = Random(seed);
    let (mut points, mut demands) = (Vec::new(alloc), Vec::new(alloc));
    for place in 0..u64::from(customers) + 1 {
        let point = (
            i64::from(random.next() % 100),
            i64::from(random.next() % 100),
        );
        points.push(point).expect(rt, "memory");
        let demand = if place == 0 { 0 } else { 101 + 23 * place % 60 };
        demands.push(demand).expect(rt, "memory");
    }
    at_points(alloc, &points, &demands, capacity).expect(rt, "an instance")
}

/// The tree, cut into at least this many pieces if it has as many.
pub(crate) fn cut_into(rt: &impl Abort, alloc: Global, instance: &Instance, pieces: u32) -> Cutting
    ensures cutting { IsCutting instance.now result }
    ensures few { length result ≤ 2 * MAX_REFINED }
{
    assert!(rt; pieces <= MAX_PIECES);
    let mut cutting = Cutting::whole(alloc, instance).expect(rt, "memory");
    let made = cutting.at_least(alloc, instance, pieces);
    made.expect(rt, "memory");
    cutting
}
