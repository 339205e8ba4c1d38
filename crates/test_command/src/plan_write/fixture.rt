//! Instances, plans and findings.
ghost use Rattle.std.specs.Option.{option_map};
ghost use Rattle.std.specs.Prelude.{◌≡◌};
ghost use Rattle.vrp_model.specs.Route.{IsPlanOf};

use std::alloc::Global;
use std::process::Abort;
use std::test::*;
use vrp_answer::{Finding, Status};
use vrp_model::{Instance, Plan};
use vrp_plan_text::{Context, Points, Settings, Solution, picture_text};

/// Three customers around a depot that is node 2. The capacity is ten.
pub(crate) const FOUR: &str =
    "NAME: four\nTYPE: CVRP\nDIMENSION: 4\nCAPACITY: 10\nEDGE_WEIGHT_TYPE: EUC_2D\nNODE_COORD_SECTION\n1 0 4\n2 0 0\n3 3 0\n4 -3 0\nDEMAND_SECTION\n1 5\n2 0\n3 4\n4 7\nDEPOT_SECTION\n2\n-1\nEOF\n";

/// A plan for that instance.
pub(crate) const TWO_ROUTES: &str = "Route #1: 1 2\nRoute #2: 3\nCost 18\n";

/// The context of its findings.
pub(crate) const CONTEXT: Context<'static> = Context {
    name: Some("four"),
    version: "1.2.3",
    stated_cost: Some(18),
    asked: Settings {
        workers: 2,
        pieces: 64,
        budget: Some(1_000),
        seconds: None,
        depot: Some(2),
        trucks: None,
    },
};

/// A context with hardly any data.
pub(crate) const BARE: Context<'static> = Context {
    name: None,
    version: "",
    stated_cost: None,
    asked: Settings {
        workers: 1,
        pieces: 1,
        budget: None,
        seconds: Some(60),
        depot: None,
        trucks: Some(1),
    },
};

/// The instance of a file.
pub(crate) fn instance(rt: &impl Abort, alloc: Global, file: &str) -> Instance {
    vrp_text::read(alloc, file.as_bytes(), None).expect(rt, "a file")
}

/// The plan of a solution.
pub(crate) fn plan(rt: &impl Abort, alloc: Global, instance: &Instance, text: &str) -> Plan
    ensures { IsPlanOf instance.now result }
{
    Solution::read(alloc, text.as_bytes(), instance)
        .expect(rt, "a solution")
        .plan
}

/// The finding of a plan, if there is one, without a better lower bound.
pub(crate) fn told(plan: Option<&Plan>, status: Status, lower_bound: Option<u64>) -> Finding<'_>
    ensures { option_map (λ plan. plan.now) result.plan ≡ option_map (λ plan. plan.now) plan.entry }
{
    Finding {
        plan,
        status,
        lower_bound,
        best_lower_bound: lower_bound,
    }
}

/// Asserts a text.
pub(crate) fn assert_text(rt: &impl Abort, text: &str, wanted: &str) {
    assert!(rt; text == wanted, "{text}");
}

/// The points of the instance's places, as a file has them.
pub(crate) fn points(rt: &impl Abort, alloc: Global, file: &str, instance: &Instance) -> Points {
    let points = Points::read(alloc, file.as_bytes(), instance).expect(rt, "memory");
    points.expect(rt, "coordinates")
}

/// The picture of the plan on four nodes, over the coordinates of some sections.
pub(crate) fn drawn(
    rt: &impl Abort,
    alloc: Global,
    sections: &str,
    status: Status,
    lower_bound: Option<u64>,
) -> Option<String> {
    let four = instance(rt, alloc, FOUR);
    let plan = plan(rt, alloc, &four, TWO_ROUTES);
    let points = Points::read(alloc, sections.as_bytes(), &four).expect(rt, "memory")?;
    let finding = told(Some(&plan), status, lower_bound);
    Some(picture_text(alloc, &four, &finding, &points).expect(rt, "memory"))
}

/// How often a text contains a part.
pub(crate) fn count(text: &str, part: &str) -> usize {
    text.matches(part).count()
}

/// A file of this many nodes, each with a demand of 0. Node n is the point (n times the step, 7), and the depot is node 1.
pub(crate) fn file_of(rt: &impl Abort, alloc: Global, nodes: u16, step: u32) -> String {
    let mut text = String::new(alloc);
    let heading = format!(in alloc;
        "TYPE: CVRP\nDIMENSION: {nodes}\nCAPACITY: 1\nEDGE_WEIGHT_TYPE: EUC_2D\nNODE_COORD_SECTION\n"
    );
    text.push_str(heading.expect(rt, "memory").as_str())
        .expect(rt, "memory");
    push_coordinates(rt, alloc, &mut text, nodes, step);
    text.push_str("DEMAND_SECTION\n").expect(rt, "memory");
    for index in 0..nodes {
        let line = format!(in alloc; "{} 0\n", u32::from(index) + 1).expect(rt, "memory");
        text.push_str(line.as_str()).expect(rt, "memory");
    }
    text.push_str("DEPOT_SECTION\n1\n-1\n").expect(rt, "memory");
    text
}

// Appends a line for each of this many nodes.
fn push_coordinates(rt: &impl Abort, alloc: Global, text: &mut String, nodes: u16, step: u32) {
    for index in 0..nodes {
        let node = u64::from(index) + 1;
        let x = node * u64::from(step);
        let line = format!(in alloc; "{node} {x} 7\n").expect(rt, "memory");
        text.push_str(line.as_str()).expect(rt, "memory");
    }
}
