//! Answers, and the hint on each.
use std::alloc::Global;
use std::process::Abort;
use vrp_command_streams::{AnswerHint, depot_hint, no_plan_hint};
use vrp_text::read;

// Two customers with demands of 3 and 4, and capacity 5.
const SMALL: &str =
    "TYPE : CVRP\nDIMENSION : 3\nEDGE_WEIGHT_TYPE : EUC_2D\nCAPACITY : 5\nNODE_COORD_SECTION\n1 0 0\n2 3 4\n3 6 8\nDEMAND_SECTION\n1 0\n2 3\n3 4\nDEPOT_SECTION\n1\n-1\nEOF\n";

// Asserts the text of a hint.
fn assert_text(rt: &impl Abort, alloc: Global, hint: Option<AnswerHint>, wanted: &str) {
    let found = match hint {
        Some(hint) => format!(in alloc; "{hint}").expect(rt, "memory"),
        None => String::new(alloc),
    };
    assert!(rt; found.as_str() == wanted, "{found}, not {wanted}");
}

#[test]
fn few_trucks(rt: HostRuntime) {
    let instance = read(rt.alloc(), SMALL.as_bytes(), None).expect(&rt, "an instance");
    assert!(rt; no_plan_hint(&instance).is_none());
    assert_text(
        &rt,
        rt.alloc(),
        no_plan_hint(&instance.with_trucks(1)),
        "all customers demand 7, and --trucks 1 allows 5, 5 for each",
    );
    let uneven = SMALL
        .replacen(rt.alloc(), "3 4\nDEPOT", "3 2\nDEPOT", 1)
        .expect(&rt, "memory");
    let instance = read(rt.alloc(), uneven.as_bytes(), None).expect(&rt, "an instance");
    assert_text(
        &rt,
        rt.alloc(),
        no_plan_hint(&instance.with_trucks(1)),
        "all customers demand 5, and --trucks 1 allows 5, 5 for each; but no sharing out of whole customers fits",
    );
}

// The contents of a section of depots, the depot used, and the hint.
const DEPOTS: &[(&str, u16, &str)] = &[
    (
        "DEPOT_SECTION\n3\n1\n-1\n",
        3,
        "the file lists several depots, and node 3 is used: --depot NODE chooses another",
    ),
    ("DEPOT_SECTION\n3\n3\n-1\n1\n", 3, ""),
    ("DEPOT_SECTION\n", 3, ""),
    ("TYPE : CVRP\n", 3, ""),
];

#[test]
fn several_depots(rt: HostRuntime) {
    for (file, used, wanted) in DEPOTS {
        let hint = depot_hint(file.as_bytes(), *used);
        assert_text(&rt, rt.alloc(), hint, wanted);
    }
}
