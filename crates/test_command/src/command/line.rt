//! The text of progress lines.
use std::alloc::Global;
use std::process::Abort;
use vrp_bound::LowerBound;
use vrp_command::{Line, LongRun, RunState, Stage, Status};

const NOTHING: Line = Line {
    state: RunState::At(Stage::StartPlan),
    seconds: Some(0),
    cost: None,
    bound: None,
    labels: 0,
    routes: 0,
    nodes_done: 0,
    nodes_open: 0,
    done: 0,
    left_open: 0,
    pieces: 0,
    looked: 0,
};

// The state once a choice has begun.
const CHOSEN: Line = Line {
    state: RunState::At(Stage::Choice),
    seconds: Some(5),
    cost: Some(521),
    bound: Some(LowerBound { hundredths: 52_000 }),
    labels: 30_000,
    routes: 2_212,
    nodes_done: 17,
    nodes_open: 4,
    ..NOTHING
};

const LINES: &[(Line, &str)] = &[
    (NOTHING, "0 s, first plan"),
    (
        Line {
            state: RunState::At(Stage::Prices),
            seconds: None,
            cost: Some(530),
            ..NOTHING
        },
        "prices, cost 530",
    ),
    (
        Line {
            state: RunState::At(Stage::BetterPlans),
            seconds: Some(30),
            cost: Some(90_539),
            bound: Some(LowerBound {
                hundredths: 8_890_000,
            }),
            ..NOTHING
        },
        "30 s, better plans, cost 90539, lower bound 88900.00, gap 1.85%",
    ),
    (
        Line {
            state: RunState::At(Stage::Choice),
            seconds: Some(5),
            cost: Some(521),
            bound: Some(LowerBound { hundredths: 51_718 }),
            routes: 2_212,
            ..NOTHING
        },
        "5 s, choice, cost 521, lower bound 517.18, gap 0.58%, 2212 useful routes",
    ),
    (
        Line {
            state: RunState::At(Stage::Columns),
            cost: Some(521),
            bound: Some(LowerBound { hundredths: 51_718 }),
            ..NOTHING
        },
        "0 s, columns, cost 521, lower bound 517.18, gap 0.58%",
    ),
    (
        Line {
            state: RunState::At(Stage::Columns),
            seconds: Some(4),
            cost: Some(521),
            bound: Some(LowerBound { hundredths: 51_718 }),
            labels: 1_234_567,
            ..NOTHING
        },
        "4 s, columns, cost 521, lower bound 517.18, gap 0.58%, 1234567 labels",
    ),
    (
        CHOSEN,
        "5 s, choice, cost 521, lower bound 520.00, gap 0.20%, 2212 useful routes, 17 nodes done, 4 open",
    ),
    // Only the root, before and after it.
    (
        Line {
            nodes_done: 0,
            nodes_open: 1,
            ..CHOSEN
        },
        "5 s, choice, cost 521, lower bound 520.00, gap 0.20%, 2212 useful routes, 0 nodes done, 1 open",
    ),
    (
        Line {
            nodes_done: 1,
            nodes_open: 0,
            ..CHOSEN
        },
        "5 s, choice, cost 521, lower bound 520.00, gap 0.20%, 2212 useful routes, 1 nodes done, 0 open",
    ),
    // After the choice its nodes are not mentioned.
    (
        Line {
            state: RunState::At(Stage::Pieces),
            pieces: 64,
            ..CHOSEN
        },
        "5 s, search, cost 521, lower bound 520.00, gap 0.20%, 2212 useful routes, 0 of 64 pieces done, 0 left open, 0 partial plans",
    ),
    (
        Line {
            state: RunState::Ended(Status::Proven),
            bound: Some(LowerBound { hundredths: 52_100 }),
            ..CHOSEN
        },
        "5 s, Proven, cost 521, lower bound 521.00, gap 0.00%, 2212 useful routes",
    ),
    (
        Line {
            state: RunState::At(Stage::Pieces),
            seconds: Some(12),
            cost: Some(521),
            bound: Some(LowerBound { hundredths: 51_718 }),
            done: 3,
            left_open: 2,
            pieces: 64,
            looked: 1_234_567,
            ..NOTHING
        },
        "12 s, search, cost 521, lower bound 517.18, gap 0.58%, 3 of 64 pieces done, 2 left open, 1234567 partial plans",
    ),
    (
        Line {
            state: RunState::Ended(Status::Proven),
            seconds: Some(1),
            cost: Some(0),
            bound: Some(LowerBound { hundredths: 0 }),
            ..NOTHING
        },
        "1 s, Proven, cost 0, lower bound 0.00, gap 0.00%",
    ),
];

#[test]
fn lines_of_a_run(rt: HostRuntime) {
    for (line, text) in LINES {
        assert_line(&rt, rt.alloc(), *line, text);
    }
}

// The one message of a long run.
#[test]
fn long_run(rt: HostRuntime) {
    let told = format!(in rt.alloc(); "{}", LongRun(CHOSEN)).expect(&rt, "memory");
    let text =
        "cvrp: 5 s, choice, cost 521, lower bound 520.00, gap 0.20%, 2212 useful routes, 17 nodes done, 4 open; --seconds N ends a run with the best that it has, --progress tells how it goes";
    assert!(rt; told.as_str() == text, "{told}");
}

fn assert_line(rt: &impl Abort, alloc: Global, line: Line, text: &str) {
    let told = format!(in alloc; "{line}").expect(rt, "memory");
    assert!(rt; told.as_str() == text, "{told}");
}
