//! Numbers that are not nodes, and files from which no instance can be made.
use crate::text::fixture::{MATRIX, SMALL, assert_refused, with};
use vrp_model::InstanceError;
use vrp_model::InstanceError::{DemandOverCapacity, DepotDemand, NotADepot};
use vrp_text::{Key, TextError};

const BAD_NODES: &[(&str, &str, &str, Key, i64)] = &[
    (SMALL, "2 3 4", "4 3 4", Key::NodeCoord, 4),
    (SMALL, "2 3 4", "0 3 4", Key::NodeCoord, 0),
    (
        SMALL,
        "2 3 4",
        "-1000000000 3 4",
        Key::NodeCoord,
        -1_000_000_000,
    ),
    (SMALL, "2 3 4", "65538 3 4", Key::NodeCoord, 65_538),
    (SMALL, "2 3 4", "1 3 4", Key::NodeCoord, 1),
    (SMALL, "2 3 4\n3 6 8", "1 3 4\n4 6 8", Key::NodeCoord, 1),
    (SMALL, "2 3 4\n3 6 8", "4 3 4\n1 6 8", Key::NodeCoord, 4),
    (SMALL, "\n3 1\n", "\n2 1\n", Key::Demand, 2),
    (SMALL, "\n1 0\n2 1\n", "\n3 0\n2 1\n", Key::Demand, 3),
    (SMALL, "\n1 0\n2 1\n", "\n-1 0\n2 1\n", Key::Demand, -1),
    (
        SMALL,
        "\n3 1\n",
        "\n1000000000 1\n",
        Key::Demand,
        1_000_000_000,
    ),
    (SMALL, "\n1\n-1\n", "\n4\n-1\n", Key::Depot, 4),
    (SMALL, "\n1\n-1\n", "\n0\n-1\n", Key::Depot, 0),
    (SMALL, "\n1\n-1\n", "\n1 1 -2 9\n-1\n", Key::Depot, -2),
    (SMALL, "\n1\n-1\n", "\n65537\n", Key::Depot, 65_537),
    (MATRIX, "\n2 1\n", "\n4 1\n", Key::Demand, 4),
    // Sections are checked in the order of the keys, in any order of the file.
    (
        SMALL,
        "3 6 8\nDEMAND_SECTION\n1 0\n",
        "5 6 8\nDEMAND_SECTION\n6 0\n",
        Key::NodeCoord,
        5,
    ),
    (
        SMALL,
        "\n3 1\nDEPOT_SECTION\n1\n",
        "\n5 1\nDEPOT_SECTION\n6\n",
        Key::Demand,
        5,
    ),
    (
        SMALL,
        SMALL,
        "TYPE : CVRP\nDIMENSION : 1\nEDGE_WEIGHT_TYPE : ATT\nCAPACITY : 1\nDEPOT_SECTION\n4\nDEMAND_SECTION\n3 0\nNODE_COORD_SECTION\n2 0 0",
        Key::NodeCoord,
        2,
    ),
    // Reported before faults of the instance.
    (
        SMALL,
        "\n1 0\n2 1\n3 1\nDEPOT_SECTION\n1\n",
        "\n1 5\n2 1\n3 1\nDEPOT_SECTION\n1 4\n",
        Key::Depot,
        4,
    ),
];

// A number that is not a node, or that is given twice: the first by position is reported.
#[test]
fn bad_nodes(rt: HostRuntime) {
    for &(text, old, new, key, node) in BAD_NODES {
        assert!(rt; text.contains(old), "no {old}");
        let text = text.replacen(rt.alloc(), old, new, 1).expect(&rt, "memory");
        let refusal = TextError::BadNode(key, node);
        // For any chosen depot.
        assert_refused(&rt, rt.alloc(), text.as_str(), None, refusal);
        assert_refused(&rt, rt.alloc(), text.as_str(), Some(1200), refusal);
    }
}

const NO_INSTANCE: &[(&str, &str, Option<u16>, InstanceError)] = &[
    ("1 5 2 1 3 1", "1", None, DepotDemand(1)),
    ("1 0 2 1 3 1", "1 3 2", None, DepotDemand(2)),
    ("3 1 2 1 1 0", "3 2 1", Some(1), DepotDemand(2)),
    ("1 5 2 1 3 1", "1", Some(3), DepotDemand(1)),
    ("1 1 2 9 3 1", "1", None, DepotDemand(1)),
    ("1 0 2 1 3 1", "1", Some(3), NotADepot(3)),
    ("1 0 2 1 3 1", "1 -1 3", Some(3), NotADepot(3)),
    ("1 0 2 1 3 1", "1", Some(4), NotADepot(4)),
    ("1 0 2 1 3 1", "1", Some(1200), NotADepot(1200)),
    ("1 0 2 9 3 1", "1", Some(2), NotADepot(2)),
    ("1 0 2 3 3 1", "1", None, DemandOverCapacity(2)),
    ("3 9 2 9 1 0", "1", None, DemandOverCapacity(2)),
    ("1 0 2 0 3 3", "1 2", Some(2), DemandOverCapacity(3)),
];

// No instance can be made from the small file with these demands and depots, and this chosen depot.
#[test]
fn no_instance(rt: HostRuntime) {
    for &(demands, depots, chosen, refusal) in NO_INSTANCE {
        let text = with(&rt, rt.alloc(), SMALL, "1 0\n2 1\n3 1", demands);
        let text = with(&rt, rt.alloc(), text.as_str(), "1\n-1", depots);
        let refusal = TextError::Instance(refusal);
        assert_refused(&rt, rt.alloc(), text.as_str(), chosen, refusal);
    }
}
