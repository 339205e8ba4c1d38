//! Small files, changes to them, and the data of their instances.

use crate::assertion::assert_same;
use std::alloc::Global;
use std::process::Abort;
use vrp_model::{Instance, Plan};
use vrp_text::{TextError, read};

/// Three nodes on a line, 5 apart, and the depot at one end.
pub(crate) const SMALL: &str =
    "NAME : A\nCOMMENT : three nodes\nTYPE : CVRP\nDIMENSION : 3\nEDGE_WEIGHT_TYPE : EUC_2D\nCAPACITY : 2\nNODE_COORD_SECTION\n1 0 0\n2 3 4\n3 6 8\nDEMAND_SECTION\n1 0\n2 1\n3 1\nDEPOT_SECTION\n1\n-1\nEOF\n";

/// Three nodes with a different weight for each arc.
pub(crate) const MATRIX: &str =
    "NAME : M\nTYPE : CVRP\nDIMENSION : 3\nCAPACITY : 2\nEDGE_WEIGHT_TYPE : EXPLICIT\nEDGE_WEIGHT_FORMAT : FULL_MATRIX\nEDGE_WEIGHT_SECTION\n0 1 2\n3 0 4\n5 6 0\nDEMAND_SECTION\n1 0\n2 1\n3 1\nDEPOT_SECTION\n1\n-1\nEOF\n";

/// The data of an instance of three places.
#[derive(Debug, PartialEq, Eq, Drop)]
pub(crate) struct Places {
    pub nodes: [u16; 3],
    pub demands: [u64; 3],
    pub capacity: u64,
    /// The weights from place 0 to 1 and to 2, from 1 to 0 and to 2, from 2 to 0 and to 1.
    pub weights: [u64; 6],
}

/// The places of the small file.
pub(crate) fn small_places() -> Places {
    Places {
        nodes: [1, 2, 3],
        demands: [0, 1, 1],
        capacity: 2,
        weights: [5, 10, 5, 5, 10, 5],
    }
}

/// The places of the file with a matrix.
pub(crate) fn matrix_places() -> Places {
    Places {
        nodes: [1, 2, 3],
        demands: [0, 1, 1],
        capacity: 2,
        weights: [1, 2, 3, 4, 5, 6],
    }
}

/// The places of an instance with three places.
pub(crate) fn places_of(rt: &impl Abort, instance: &Instance) -> Places {
    assert!(rt; instance.customers() == 2);
    Places {
        nodes: [instance.node(0), instance.node(1), instance.node(2)],
        demands: [instance.demand(0), instance.demand(1), instance.demand(2)],
        capacity: instance.capacity(),
        weights: [
            instance.weight(0, 1),
            instance.weight(0, 2),
            instance.weight(1, 0),
            instance.weight(1, 2),
            instance.weight(2, 0),
            instance.weight(2, 1),
        ],
    }
}

/// Asserts the cost of the plan of one truck for each customer.
pub(crate) fn assert_singles_cost(rt: &impl Abort, alloc: Global, instance: &Instance, cost: u64) {
    let plan = Plan::singles(alloc, instance).expect(rt, "memory");
    let plan = plan.expect(rt, "a truck for each");
    assert_same(rt, plan.cost(), cost, "the cost");
}

/// The text with a part replaced, wherever it occurs.
pub(crate) fn with(rt: &impl Abort, alloc: Global, text: &str, old: &str, new: &str) -> String {
    assert!(rt; text.contains(old), "no {old}");
    text.replace(alloc, old, new).expect(rt, "memory")
}

/// The refusal of these bytes, or None if they are accepted.
pub(crate) fn refusal_of(alloc: Global, bytes: &[u8], chosen: Option<u16>) -> Option<TextError> {
    read(alloc, bytes, chosen).err()
}

/// Asserts that a text is refused for this reason.
pub(crate) fn assert_refused(
    rt: &impl Abort,
    alloc: Global,
    text: &str,
    chosen: Option<u16>,
    refusal: TextError,
) {
    let found = refusal_of(alloc, text.as_bytes(), chosen);
    assert_same(rt, found, Some(refusal), text);
}

/// A text, its replacement, and the refusal of a file with the first occurrence replaced.
pub(crate) type Change<'a> = (&'a str, &'a str, TextError);

/// Asserts that a file is refused with each of these changes.
pub(crate) fn assert_changes_refused(
    rt: &impl Abort,
    alloc: Global,
    file: &str,
    changes: &[Change<'_>],
) {
    for &change in changes {
        assert_change_refused(rt, alloc, file, change);
    }
}

/// A file, and a change.
pub(crate) type FileChange<'a> = (&'a str, &'a str, &'a str, TextError);

/// Asserts that each of these files is refused with its change.
pub(crate) fn assert_files_refused(rt: &impl Abort, alloc: Global, changes: &[FileChange<'_>]) {
    for &(file, old, new, refusal) in changes {
        assert_change_refused(rt, alloc, file, (old, new, refusal));
    }
}

pub(crate) fn assert_change_refused(
    rt: &impl Abort,
    alloc: Global,
    file: &str,
    change: Change<'_>,
) {
    let (old, new, refusal) = change;
    assert!(rt; file.contains(old), "no {old}");
    let text = file.replacen(alloc, old, new, 1).expect(rt, "memory");
    assert_refused(rt, alloc, text.as_str(), None, refusal);
}
