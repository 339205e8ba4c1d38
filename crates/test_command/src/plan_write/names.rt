//! The names of files, in many spellings.
use std::test::*;
use vrp_plan_text::name_of;

// Files, and their names.
const NAMES: &[(&[u8], Option<&str>)] = &[
    (b"NAME: four\nTYPE: CVRP\n", Some("four")),
    (b"NAME : four", Some("four")),
    (b"NAME four\r\n", Some("four")),
    (b" \tNAME\t:\t four \t\r\n", Some("four")),
    (b"NAME:four\n", Some("four")),
    (
        b"NAME : E-n51-k5 (Christofides and Eilon)\n",
        Some("E-n51-k5 (Christofides and Eilon)"),
    ),
    (b"NAME : : four\n", Some(": four")),
    (b"TYPE: CVRP\n\nNAME: four\nNAME: five\n", Some("four")),
    (b"NODE_COORD_SECTION\n1 0 0\nNAME: four\n", Some("four")),
    (
        b"NAME: a \"quoted\" \\ name\n",
        Some("a \"quoted\" \\ name"),
    ),
    (b"NAME: caf\xc3\xa9\n", Some("café")),
    (b"NAME-four\n", Some("-four")),
    // an empty name
    (b"NAME:\nTYPE: CVRP\n", None),
    (b"NAME : \t\r\nNAME: four\n", None),
    (b"NAME", None),
    // not UTF-8
    (b"NAME: caf\xe9\n", None),
    // no such line, or none before the end
    (b"", None),
    (b"TYPE: CVRP\n", None),
    (b"NAMES: four\n", None),
    (b"name: four\n", None),
    (b"COMMENT: NAME: four\n", None),
    (b"1 NAME: four\n", None),
    (b"EOF\nNAME: four\n", None),
    (b" EOF :\nNAME: four\n", None),
];

#[test]
fn names(rt: HostRuntime) {
    for (bytes, wanted) in NAMES {
        let found = name_of(bytes);
        assert!(&rt; found == *wanted, "{bytes:?}: {found:?}");
    }
}
