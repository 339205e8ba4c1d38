//! Small files, and runs over them.
ghost use Rattle.vrp_command_request.specs.Options.{AreInRange};

use crate::assertion::assert_same;
use std::alloc::Global;
use std::process::Abort;
use std::sync::Wait;
use std::thread::Threads;
use vrp_command::{MAX_BUDGET, MAX_PIECES, Options, RunError, Status, run};

/// A small file: three nodes on a line, 5 apart, and the depot at one end.
pub(crate) const SMALL: &str =
    "NAME : A\nCOMMENT : three nodes\nTYPE : CVRP\nDIMENSION : 3\nEDGE_WEIGHT_TYPE : EUC_2D\nCAPACITY : 2\nNODE_COORD_SECTION\n1 0 0\n2 3 4\n3 6 8\nDEMAND_SECTION\n1 0\n2 1\n3 1\nDEPOT_SECTION\n1\n-1\nEOF\n";

/// The small file with the node in the middle as its depot.
pub(crate) const MIDDLE: &str =
    "TYPE : CVRP\nDIMENSION : 3\nEDGE_WEIGHT_TYPE : EUC_2D\nCAPACITY : 2\nNODE_COORD_SECTION\n1 0 0\n2 3 4\n3 6 8\nDEMAND_SECTION\n1 1\n2 0\n3 1\nDEPOT_SECTION\n2\n-1\nEOF\n";

/// The report on the small file.
pub(crate) const REPORT: &str = "Route #1: 2 3\nCost 20\nProven\n";

/// The text with the first such part replaced.
pub(crate) fn with(rt: &impl Abort, alloc: Global, text: &str, old: &str, new: &str) -> String {
    text.replacen(alloc, old, new, 1).expect(rt, "memory")
}

/// Asserts the outcome of a run over these bytes, with this chosen depot, and all that it writes.
pub(crate) fn assert_run<R: Abort + Threads + Wait + Sync>(
    rt: &R,
    alloc: Global,
    bytes: &[u8],
    depot: Option<u16>,
    wanted: Result<Status, RunError>,
    report: &str,
) {
    let options = Options {
        depot,
        ..Options::default()
    };
    let (outcome, written) = run_as(rt, alloc, bytes, options);
    assert_same(rt, outcome, wanted, report);
    assert_same(rt, written.as_slice(), report.as_bytes(), report);
}

/// Asserts the outcome of a run over a text with this many pieces and this budget, and the end of its output.
pub(crate) fn assert_end<R: Abort + Threads + Wait + Sync>(
    rt: &R,
    alloc: Global,
    text: &str,
    (pieces, budget): (u32, u64),
    status: Status,
    end: &str,
) {
    assert!(rt; 1 <= pieces && pieces <= MAX_PIECES);
    assert!(rt; 1 <= budget && budget <= MAX_BUDGET);
    let options = Options {
        pieces,
        budget,
        ..Options::default()
    };
    let (outcome, written) = run_as(rt, alloc, text.as_bytes(), options);
    assert_same(rt, outcome, Ok(status), (pieces, budget, end));
    assert!(rt;
        written.ends_with(end.as_bytes()),
        "{pieces} pieces, budget {budget}, not {end}"
    );
}

/// The answer of a run over these bytes, and its output.
pub(crate) fn run_as<R: Threads + Wait + Sync>(
    rt: &R,
    alloc: Global,
    bytes: &[u8],
    options: Options,
) -> (Result<Status, RunError>, Vec<u8>)
    requires { AreInRange options }
{
    let mut input = bytes;
    let mut output = Vec::new(alloc);
    let outcome = run(rt, alloc, options, &mut input, &mut output);
    (outcome, output)
}
