//! Files with the greatest number of nodes.
use crate::command::fixture::assert_end;
use itoa::Buffer;
use std::alloc::{AllocError, Global};
use vrp_command::Status;
use vrp_model::MAX_NODES;

// The nodes are on a line, a step apart, the depot first. Each customer demands 1, and the capacity is 2. One truck for each
// costs 2 + 4 + .. + 2,398 = 1,438,800. With a budget of 1,000 a plan by savings is offered: 1198 and 1199 share a truck,
// 1196 and 1197, and so on down to 2 and 3, which saves 2,396 + 2,392 + .. + 4 = 718,800. The search itself finds no plan
// with so small a budget. Each unit can be carried to the first customer and back: no less than 2,398.
#[test]
fn most_nodes(rt: HostRuntime) {
    let points = points_file(rt.alloc()).expect(&rt, "memory");
    let matrix = matrix_file(rt.alloc()).expect(&rt, "memory");
    for (text, budget, end) in [
        (points.as_str(), 999, "Cost 1438800\nOpen 2398\n"),
        (points.as_str(), 1_000, "Cost 720000\nOpen 2398\n"),
        (matrix.as_str(), 1_000, "Cost 720000\nOpen 2398\n"),
    ] {
        assert_end(&rt, rt.alloc(), text, (1, budget), Status::Open, end);
    }
}

// The file with points.
fn points_file(alloc: Global) -> Result<String, AllocError> {
    let mut text = String::new(alloc);
    text.push_str("TYPE : CVRP\nDIMENSION : 1200\nEDGE_WEIGHT_TYPE : EUC_2D\nCAPACITY : 2\n")?;
    text.push_str("NODE_COORD_SECTION\n")?;
    for place in 0..MAX_NODES {
        push_row(&mut text, &[place + 1, place, 0])?;
    }
    push_demands(&mut text)?;
    Ok(text)
}

// The file with an arc from each node to each.
fn matrix_file(alloc: Global) -> Result<String, AllocError> {
    let mut text = String::new(alloc);
    text.push_str("TYPE : CVRP\nDIMENSION : 1200\nEDGE_WEIGHT_TYPE : EXPLICIT\n")?;
    text.push_str("EDGE_WEIGHT_FORMAT : FULL_MATRIX\nCAPACITY : 2\nEDGE_WEIGHT_SECTION\n")?;
    for from in 0..MAX_NODES {
        for to in 0..MAX_NODES {
            push_row(&mut text, &[from.abs_diff(to)])?;
        }
    }
    push_demands(&mut text)?;
    Ok(text)
}

// Appends the demands, the depot and the end of the file.
fn push_demands(text: &mut String) -> Result<(), AllocError> {
    text.push_str("DEMAND_SECTION\n")?;
    for place in 0..MAX_NODES {
        push_row(text, &[place + 1, place.min(1)])?;
    }
    text.push_str("DEPOT_SECTION\n1\n-1\nEOF\n")
}

// Appends a line of numbers.
fn push_row(text: &mut String, numbers: &[u16]) -> Result<(), AllocError> {
    for number in numbers {
        let mut buffer = Buffer::new();
        text.push_str(buffer.format(*number))?;
        text.push_str(" ")?;
    }
    text.push_str("\n")
}
