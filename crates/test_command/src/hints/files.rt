//! Refused files, and the hint on each.
use std::alloc::Global;
use std::process::Abort;
use vrp_command_streams::file_hint;
use vrp_text::read;

// A file, and the hint on it; empty if there is none.
const FILES: &[(&str, &str)] = &[
    (
        "",
        "the input is empty: a file is read from standard input, as in cvrp < FILE",
    ),
    (
        " \r\n\n",
        "the input is empty: a file is read from standard input, as in cvrp < FILE",
    ),
    ("EOF\n", ""),
    (
        "TYPE : CVRP\nVEHICLES : 4\n",
        "give --trucks 4, and take the line VEHICLES out",
    ),
    (
        "TRUCKS: many\n",
        "give --trucks N, and take the line TRUCKS out",
    ),
    (
        "DISTANCE : 200\n",
        "DISTANCE limits how long a route may be, and that is not supported",
    ),
    (
        "NAME : a\nSERVICE_TIME : 10\n",
        "SERVICE_TIME is time that a stop takes, where the length of a route is limited, and that is not supported",
    ),
    (
        "FIXED_EDGES_SECTION\n",
        "FIXED_EDGES_SECTION fixes ways that a plan has to take, and that is not supported",
    ),
    ("Type : CVRP\n", "keywords are written in capital letters"),
    ("XYZ : 1\n", ""),
    ("TYPE : VRPTW\n", "TYPE is VRPTW: only CVRP is solved"),
    ("TYPE:TSP\n", "TYPE is TSP: only CVRP is solved"),
    (
        "DIMENSION : 1201\n",
        "DIMENSION is 1201: it has to be a whole number from 1 to 1200",
    ),
    (
        "CAPACITY :\n",
        "CAPACITY is empty: it has to be a whole number from 1 to 1000000000",
    ),
    (
        "EDGE_WEIGHT_TYPE : GEO\n",
        "EDGE_WEIGHT_TYPE is GEO: it has to be EUC_2D, CEIL_2D, MAN_2D, MAX_2D, ATT or EXPLICIT",
    ),
    (
        "DEPOT_SECTION 1\n",
        "nothing may stand behind DEPOT_SECTION on its line",
    ),
    (
        "NODE_COORD_SECTION\n1 0 0\n2 1.5 7\n",
        "1.5 is not whole: coordinates have to be; multiply all of them by the same power of ten, and costs grow alike",
    ),
    (
        "EDGE_WEIGHT_TYPE : EXPLICIT\nEDGE_WEIGHT_SECTION\n1 2 0.25 4.5\n",
        "0.25 is not whole: weights have to be; multiply all of them by the same power of ten, and costs grow alike",
    ),
    (
        "DEMAND_SECTION\n1 0\n2 2.5\n",
        "2.5 is not whole: demands have to be; multiply all of them, and CAPACITY, by the same power of ten",
    ),
    ("DEMAND_SECTION\n1 0\n2 1,5\n", "1,5 is no number"),
    ("DEMAND_SECTION\n1 0\n2 -1\n", ""),
    (
        "TYPE : CVRP\nDIMENSION : 3\nCAPACITY : 9\nEDGE_WEIGHT_TYPE : EUC_2D\nNODE_COORD_SECTION\n1 0 0\n2 1 1\nDEMAND_SECTION\nDEPOT_SECTION\n",
        "NODE_COORD_SECTION has 6 numbers, and DIMENSION 3 needs 9",
    ),
    (
        "TYPE : CVRP\nDIMENSION : 1\nCAPACITY : 9\nEDGE_WEIGHT_TYPE : EUC_2D\nNODE_COORD_SECTION\n1 0 0\nDEMAND_SECTION\n1 0 2 0 3 0\nDEPOT_SECTION\n1\n",
        "DEMAND_SECTION has 6 numbers, and DIMENSION 1 needs 2",
    ),
    (
        "TYPE : CVRP\nDIMENSION : 4\nCAPACITY : 9\nEDGE_WEIGHT_TYPE : EXPLICIT\nEDGE_WEIGHT_FORMAT : LOWER_ROW\nEDGE_WEIGHT_SECTION\n1 2 3\nDEMAND_SECTION\nDEPOT_SECTION\n",
        "EDGE_WEIGHT_SECTION has 3 numbers, and DIMENSION 4 needs 6",
    ),
    (
        "TYPE : CVRP\nDIMENSION : 1\nCAPACITY : 9\nEDGE_WEIGHT_TYPE : EUC_2D\nNODE_COORD_SECTION\n1 0 0\nDEMAND_SECTION\n1 0\nDEPOT_SECTION\n-1\n",
        "no depot is listed before the -1",
    ),
    (
        "TYPE : CVRP\nDIMENSION : 1\nCAPACITY : 9\nEDGE_WEIGHT_TYPE : EUC_2D\nNODE_COORD_SECTION\n0 0 0\nDEMAND_SECTION\n0 0\nDEPOT_SECTION\n0\n",
        "nodes are counted from 1 in NODE_COORD_SECTION, not from 0",
    ),
];

// Asserts the hint on a refused file.
fn assert_hint(rt: &impl Abort, alloc: Global, file: &str, wanted: &str) {
    let Err(refusal) = read(alloc, file.as_bytes(), None) else {
        assert!(rt; false, "not refused: {file}");
        return;
    };
    let Some(hint) = file_hint(file.as_bytes(), &refusal) else {
        assert!(rt; wanted.is_empty(), "no hint, {refusal}: {file}");
        return;
    };
    let found = format!(in alloc; "{hint}").expect(rt, "memory");
    assert!(rt; found.as_str() == wanted, "{found}, {refusal}: {file}");
}

#[test]
fn hints_on_files(rt: HostRuntime) {
    for (file, wanted) in FILES {
        assert_hint(&rt, rt.alloc(), file, wanted);
    }
}

// Text from a file is printed without control characters, and cut.
#[test]
fn strange_tokens(rt: HostRuntime) {
    assert_hint(
        &rt,
        rt.alloc(),
        "TYPE : \x1b[1mTSP\n",
        "TYPE is ?[1mTSP: only CVRP is solved",
    );
    assert_hint(
        &rt,
        rt.alloc(),
        "TYPE : 12345678901234567890123456789012345678901\n",
        "TYPE is 1234567890123456789012345678901234567890..: only CVRP is solved",
    );
}
