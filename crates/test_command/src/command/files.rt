//! The reports on whole files, and refused files.
use crate::assertion::assert_same;
use crate::command::fixture::{MIDDLE, REPORT, SMALL, assert_run, with};
use std::alloc::Global;
use std::process::Abort;
use vrp_command::{RunError, Status};
use vrp_model::InstanceError;
use vrp_text::{Key, TextError};

// A file of this many bytes: the small file behind a long comment.
fn long_file(rt: &impl Abort, alloc: Global, length: usize) -> Vec<u8> {
    let mut bytes = b"COMMENT :".to_vec(alloc).expect(rt, "memory");
    let resized = bytes.resize(length.saturating_sub(SMALL.len()), b'x');
    resized.expect(rt, "memory");
    if let Some(last) = bytes.last_mut() {
        *last = b'\n';
    }
    let extended = bytes.extend_from_slice(SMALL.as_bytes());
    extended.expect(rt, "memory");
    bytes
}

const REPORTS: &[(&str, &str, &str)] = &[
    ("EOF", "EOF", REPORT),
    (
        "CAPACITY : 2",
        "CAPACITY : 1",
        "Route #1: 2\nRoute #2: 3\nCost 30\nProven\n",
    ),
    (SMALL, MIDDLE, "Route #1: 1\nRoute #2: 3\nCost 20\nProven\n"),
    (
        SMALL,
        "TYPE : CVRP\nDIMENSION : 1\nEDGE_WEIGHT_TYPE : EUC_2D\nCAPACITY : 2\nNODE_COORD_SECTION\n1 0 0\nDEMAND_SECTION\n1 0\nDEPOT_SECTION\n1\n-1\nEOF\n",
        "Cost 0\nProven\n",
    ),
    (
        SMALL,
        "TYPE : CVRP\nDIMENSION : 2\nEDGE_WEIGHT_TYPE : EUC_2D\nCAPACITY : 2\nNODE_COORD_SECTION\n1 -100000000 -100000000\n2 100000000 100000000\nDEMAND_SECTION\n1 0\n2 1\nDEPOT_SECTION\n1\n-1\nEOF\n",
        "Route #1: 2\nCost 565685424\nProven\n",
    ),
];

#[test]
fn reports(rt: HostRuntime) {
    for &(old, new, report) in REPORTS {
        let text = with(&rt, rt.alloc(), SMALL, old, new);
        let wanted = Ok(Status::Proven);
        assert_run(&rt, rt.alloc(), text.as_bytes(), None, wanted, report);
    }
}

const REFUSED: &[(&str, &str, Option<u16>, TextError)] = &[
    (SMALL, "", None, TextError::Missing(Key::Problem)),
    (
        SMALL,
        "\0\u{1}\n\u{7f}\u{ffff}",
        None,
        TextError::DataOutside(1),
    ),
    (
        "\n1 0\n2 1",
        "\n1 5\n2 1",
        None,
        TextError::Instance(InstanceError::DepotDemand(1)),
    ),
    (
        "\n2 1\n",
        "\n2 3\n",
        None,
        TextError::Instance(InstanceError::DemandOverCapacity(2)),
    ),
    (
        "EOF",
        "EOF",
        Some(3),
        TextError::Instance(InstanceError::NotADepot(3)),
    ),
    (
        "EOF",
        "EOF",
        Some(1200),
        TextError::Instance(InstanceError::NotADepot(1200)),
    ),
    (
        "\n2 1\n",
        "\n2 1\nCAPACITY : 2\n",
        None,
        TextError::Repeated(14),
    ),
];

// The small file with one text replaced, and with a chosen depot, is refused for this reason.
#[test]
fn refused(rt: HostRuntime) {
    for &(old, new, depot, refusal) in REFUSED {
        let text = with(&rt, rt.alloc(), SMALL, old, new);
        let wanted = Err(RunError::Text(refusal));
        assert_run(&rt, rt.alloc(), text.as_bytes(), depot, wanted, "");
    }
}

// Two depots are listed: the first is used unless the other is chosen, and neither is a customer.
#[test]
fn chosen_depots(rt: HostRuntime) {
    let text = with(&rt, rt.alloc(), SMALL, "\n2 1\n", "\n2 0\n");
    let (one, two) = ("SECTION\n1\n-1", "SECTION\n1 2\n-1");
    let text = with(&rt, rt.alloc(), text.as_str(), one, two);
    for (depot, report) in [
        (None, "Route #1: 3\nCost 20\nProven\n"),
        (Some(1), "Route #1: 3\nCost 20\nProven\n"),
        (Some(2), "Route #1: 3\nCost 10\nProven\n"),
    ] {
        let wanted = Ok(Status::Proven);
        assert_run(&rt, rt.alloc(), text.as_bytes(), depot, wanted, report);
    }
}

#[test]
fn longest_file(rt: HostRuntime) {
    for (length, wanted, report) in [
        (16_777_216, Ok(Status::Proven), REPORT),
        (16_777_217, Err(RunError::Text(TextError::TooLong)), ""),
    ] {
        let bytes = long_file(&rt, rt.alloc(), length);
        assert_same(&rt, bytes.len(), length, "bytes");
        assert_run(&rt, rt.alloc(), &bytes, None, wanted, report);
    }
}
