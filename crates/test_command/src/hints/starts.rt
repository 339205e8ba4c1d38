//! Refused start plans, and the hint on each.
use std::alloc::Global;
use std::process::Abort;
use vrp_command_streams::{start_hint, stated_cost};

// A file of four nodes.
const FILE: &str = "TYPE : CVRP\nDIMENSION : 4\n";

// The text of a plan, and the hint on it; empty if there is none.
const PLANS: &[(&str, &str)] = &[
    (
        "Route #1: 2 3\nCost 20\nProven\n",
        "the plan looks like a report, whose numbers are those of nodes: save it with --format sol",
    ),
    (
        "Cost 20\r\nOpen 7\r\n",
        "the plan looks like a report, whose numbers are those of nodes: save it with --format sol",
    ),
    (
        "Route #1: 2 3 4\nCost 20\n",
        "customers are numbered from 1 to 3, without the depot: a report, which has the numbers of nodes, is saved with --format sol",
    ),
    ("Route #4: 1 2\nCost 4\n", ""),
    ("", ""),
];

// Asserts the hint on the text of a plan.
fn assert_hint(rt: &impl Abort, alloc: Global, text: &str, wanted: &str) {
    let Some(hint) = start_hint(FILE.as_bytes(), text.as_bytes()) else {
        assert!(rt; wanted.is_empty(), "no hint: {text}");
        return;
    };
    let found = format!(in alloc; "{hint}").expect(rt, "memory");
    assert!(rt; found.as_str() == wanted, "{found}: {text}");
}

#[test]
fn hints_on_plans(rt: HostRuntime) {
    for (text, wanted) in PLANS {
        assert_hint(&rt, rt.alloc(), text, wanted);
    }
}

// A text, and its stated cost.
const COSTS: &[(&str, Option<&str>)] = &[
    ("Route #1: 2 3\nCost 20\n", Some("20")),
    ("cost: 20.5\r\n", Some("20.5")),
    ("Cost\n", None),
    ("Route #1: 2 3\n", None),
];

#[test]
fn stated_costs(rt: HostRuntime) {
    for (text, wanted) in COSTS {
        let found = stated_cost(text.as_bytes());
        assert!(rt; found == wanted.map(str::as_bytes), "{text}");
    }
}
