//! The size of a page, and the position of its route list.
ghost use Rattle.std.specs.Prelude.{◌≤◌};

use crate::plan_write::fixture::{count, drawn, file_of, instance, plan, points, told};
use std::alloc::Global;
use std::process::Abort;
use std::test::*;
use vrp_answer::Status;
use vrp_plan_text::picture_text;

// Four places, the bound for a plan of cost 18, the size of its page, and where its two routes are listed. A line of the list
// has room for 26 letters, which is 3,120 wide, with 700 before it and 400 behind it.
const PAGES: &[(&str, Option<u64>, &str, &str, &str)] = &[
    // At least as high as the list.
    (
        "NODE_COORD_SECTION\n1 0 4\n2 0 0\n3 3 0\n4 -3 0\n",
        None,
        "0 0 14220 7333",
        "M10000 400h600",
        "M10000 720h600",
    ),
    // Flat: in two columns below the map.
    (
        "NODE_COORD_SECTION\n1 3 0\n2 0 0\n3 6 0\n4 9 0\n",
        None,
        "0 0 10000 1840",
        "M400 800h600",
        "M4620 800h600",
    ),
    // Narrow.
    (
        "NODE_COORD_SECTION\n1 0 3\n2 0 0\n3 0 6\n4 0 9\n",
        None,
        "0 0 5020 10400",
        "M800 400h600",
        "M800 720h600",
    ),
    // One point: in one column below the map.
    (
        "NODE_COORD_SECTION\n1 5 5\n2 5 5\n3 5 5\n4 5 5\n",
        None,
        "0 0 4620 2160",
        "M400 800h600",
        "M400 1120h600",
    ),
    // The caption is wider than the list: 29 letters, 4,872 wide, and 400 on each side.
    (
        "NODE_COORD_SECTION\n1 5 5\n2 5 5\n3 5 5\n4 5 5\n",
        Some(17),
        "0 0 5672 2160",
        "M400 800h600",
        "M400 1120h600",
    ),
];

#[test]
fn pages(rt: HostRuntime) {
    for (sections, lower_bound, page, first, second) in PAGES {
        let text = drawn(&rt, rt.alloc(), sections, Status::Open, *lower_bound);
        let text = text.expect(&rt, "a picture");
        for part in [*page, *first, *second] {
            assert!(&rt; text.as_str().contains(part), "{part}: {}", text.as_str());
        }
    }
}

// Long numbers.
const LONG: &str =
    "TYPE: CVRP\nDIMENSION: 2\nCAPACITY: 1000000000\nEDGE_WEIGHT_TYPE: EUC_2D\nNODE_COORD_SECTION\n1 0 0\n2 0 100000000\nDEMAND_SECTION\n1 0\n2 1000000000\nDEPOT_SECTION\n1\n-1\n";

// The picture of a plan.
fn picture(rt: &impl Abort, alloc: Global, file: &str, routes: &str) -> String {
    let instance = instance(rt, alloc, file);
    let plan = plan(rt, alloc, &instance, routes);
    let points = points(rt, alloc, file, &instance);
    let finding = told(Some(&plan), Status::Lawful, None);
    picture_text(alloc, &instance, &finding, &points).expect(rt, "memory")
}

// The list has room for 50 letters, 6,000 wide, beside a map that is 800 wide.
#[test]
fn long_numbers(rt: HostRuntime) {
    let text = picture(&rt, rt.alloc(), LONG, "Route #1: 1\n");
    let text = text.as_str();
    assert!(&rt; text.contains("viewBox=\"0 0 7900 10400\""), "{text}");
    let told = ">#1: load 1000000000 of 1000000000, cost 200000000</text>";
    assert!(&rt; text.contains(told), "{text}");
}

// A solution with this many routes of two customers.
fn pairs(rt: &impl Abort, alloc: Global, routes: u16) -> String {
    let mut text = String::new(alloc);
    for index in 0..routes {
        let first = u32::from(index) * 2 + 1;
        let second = first + 1;
        let line = format!(in alloc; "Route #{first}: {first} {second}\n").expect(rt, "memory");
        text.push_str(line.as_str()).expect(rt, "memory");
    }
    text
}

// The picture of this many routes of two customers.
fn drawn_pairs(rt: &impl Abort, alloc: Global, routes: u16) -> String
    requires { routes ≤ 599 }
{
    let file = file_of(rt, alloc, 2 * routes + 1, 1);
    let solution = pairs(rt, alloc, routes);
    picture(rt, alloc, file.as_str(), solution.as_str())
}

// Up to 24 routes are listed, and drawn from the depot and back.
#[test]
fn few_routes(rt: HostRuntime) {
    let text = drawn_pairs(&rt, rt.alloc(), 24);
    let text = text.as_str();
    let first =
        "d=\"M400 400L591 400L783 400Z\"><title>Route #1: load 0 of 1, cost 4</title></path>";
    assert!(&rt; text.contains(first), "{text}");
    assert!(&rt; count(text, "<text") == 49 + 24 + 1, "{text}");
    assert!(&rt; count(text, "<path") == 2 * 24, "{text}");
    assert!(&rt; !text.contains("opacity"), "{text}");
}

// With more routes, the arcs to and from the depot are thin and pale.
#[test]
fn many_routes(rt: HostRuntime) {
    let text = drawn_pairs(&rt, rt.alloc(), 25);
    let text = text.as_str();
    let first = "d=\"M584 400L768 400\"><title>Route #1: load 0 of 1, cost 4</title></path>";
    assert!(&rt; text.contains(first), "{text}");
    let legs =
        "<g fill=\"none\" stroke-width=\"8\" stroke-opacity=\"0.4\">\n<path stroke=\"#14213d\" d=\"M584 400L400 400L768 400\"/>";
    assert!(&rt; text.contains(legs), "{text}");
    assert!(&rt; count(text, "<text") == 51 + 1, "{text}");
    assert!(&rt; count(text, "<path") == 2 * 25, "{text}");
}
