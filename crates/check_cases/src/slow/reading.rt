//! Reads the problem that a file's text states, or the first of its faults.

use crate::slow::distance::Metric;
use crate::slow::fault::{Fault, Wrong};
use crate::slow::keyword::{self, KEYS, is_needed};
use crate::slow::layout::Layout;
use crate::slow::lines::{Line, before_the_end, first_with};
use crate::slow::number::whole;
use crate::slow::problem::Problem;
use crate::slow::section::{self, numbers};
use crate::slow::weights::Weights;
use std::alloc::{AllocError, Global};

const MOST_BYTES: usize = 16_777_216;

/// Reads a file. The problem that it states has no limit on trucks.
pub(crate) fn read(alloc: Global, text: &str) -> Result<Problem, Fault> {
    if text.len() > MOST_BYTES {
        return Err(Fault::TooLong);
    }
    let lines = before_the_end(alloc, text)?;
    read_lines(alloc, &lines)
}

// Reads the lines of a file.
fn read_lines(alloc: Global, lines: &[Line<'_>]) -> Result<Problem, Fault> {
    let is_explicit = value(lines, "EDGE_WEIGHT_TYPE") == "EXPLICIT";
    for line in lines {
        if let Some(wrong) = file_line_fault(alloc, lines, *line, is_explicit)? {
            return Err(Fault::Line(line.number, wrong));
        }
    }
    check_keys(lines, is_explicit)?;
    let problem = stated(alloc, lines, is_explicit)?;
    match problem.fault() {
        Some(fault) => Err(fault),
        None => Ok(problem),
    }
}

// Checks that each needed keyword is present.
fn check_keys(lines: &[Line<'_>], is_explicit: bool) -> Result<(), Fault> {
    for key in KEYS {
        if is_needed(key, is_explicit) && first_with(lines, key).is_none() {
            return Err(Fault::Missing(key));
        }
    }
    Ok(())
}

// The fault of a line.
fn file_line_fault(
    alloc: Global,
    lines: &[Line<'_>],
    line: Line<'_>,
    is_explicit: bool,
) -> Result<Option<Wrong>, AllocError> {
    if line.is_data {
        section::fault(alloc, lines, line, is_explicit)
    } else {
        Ok(keyword::fault(lines, line, is_explicit))
    }
}

// The value of a keyword; empty if it is missing.
fn value<'a>(lines: &[Line<'a>], keyword: &str) -> &'a str {
    first_with(lines, keyword).map_or("", |line| line.value())
}

// The statements of lines without a fault, if each section has the right count and names the right nodes.
fn stated(alloc: Global, lines: &[Line<'_>], is_explicit: bool) -> Result<Problem, Fault> {
    let nodes = number(value(lines, "DIMENSION"));
    let problem = Problem {
        nodes,
        capacity: number(value(lines, "CAPACITY")),
        weights: weights(alloc, lines, nodes, is_explicit)?,
        demands: demands(alloc, lines, nodes)?,
        depots: depots(alloc, lines)?,
        trucks: None,
    };
    check_all_nodes(&problem)?;
    Ok(problem)
}

fn weights(
    alloc: Global,
    lines: &[Line<'_>],
    nodes: i64,
    is_explicit: bool,
) -> Result<Weights, Fault> {
    if is_explicit {
        matrix(alloc, lines, nodes)
    } else {
        points(alloc, lines, nodes)
    }
}

// Checks that each section names the right nodes.
fn check_all_nodes(problem: &Problem) -> Result<(), Fault> {
    let nodes = problem.nodes;
    if let Weights::Points(_, points) = &problem.weights {
        check_nodes(points, nodes, "NODE_COORD_SECTION")?;
    }
    check_nodes(&problem.demands, nodes, "DEMAND_SECTION")?;
    for depot in &problem.depots {
        check_node(*depot, nodes, "DEPOT_SECTION")?;
    }
    Ok(())
}

// The number of a token that is known to be one.
fn number(token: &str) -> i64 {
    whole(token, i64::MIN, i64::MAX).unwrap_or(0)
}

fn matrix(alloc: Global, lines: &[Line<'_>], nodes: i64) -> Result<Weights, Fault> {
    let numbers = numbers(alloc, lines, "EDGE_WEIGHT_SECTION")?;
    let cells = match Layout::named(value(lines, "EDGE_WEIGHT_FORMAT")) {
        Some(layout) => layout.cells(alloc, nodes)?,
        None => Vec::new(alloc),
    };
    check_count(numbers.len(), cells.len(), "EDGE_WEIGHT_SECTION")?;
    let mut weights = Vec::new(alloc);
    for (cell, weight) in cells.iter().zip(numbers.iter()) {
        weights.push((*cell, *weight)).map_err(AllocError::from)?;
    }
    Ok(Weights::Listed(weights))
}

fn points(alloc: Global, lines: &[Line<'_>], nodes: i64) -> Result<Weights, Fault> {
    let numbers = numbers(alloc, lines, "NODE_COORD_SECTION")?;
    check_count(numbers.len(), times(nodes, 3), "NODE_COORD_SECTION")?;
    let mut points = Vec::new(alloc);
    for row in numbers.chunks(3) {
        if let [node, x, y] = row {
            points.push((*node, (*x, *y))).map_err(AllocError::from)?;
        }
    }
    let metric = Metric::named(value(lines, "EDGE_WEIGHT_TYPE")).unwrap_or(Metric::Nearest);
    Ok(Weights::Points(metric, points))
}

fn demands(alloc: Global, lines: &[Line<'_>], nodes: i64) -> Result<Vec<(i64, i64)>, Fault> {
    let numbers = numbers(alloc, lines, "DEMAND_SECTION")?;
    check_count(numbers.len(), times(nodes, 2), "DEMAND_SECTION")?;
    let mut demands = Vec::new(alloc);
    for row in numbers.chunks(2) {
        if let [node, demand] = row {
            demands.push((*node, *demand)).map_err(AllocError::from)?;
        }
    }
    Ok(demands)
}

// The depots, up to the number -1 or to the end of the section.
fn depots(alloc: Global, lines: &[Line<'_>]) -> Result<Vec<i64>, Fault> {
    let mut depots = Vec::new(alloc);
    for number in numbers(alloc, lines, "DEPOT_SECTION")? {
        if number == -1 {
            break;
        }
        depots.push(number).map_err(AllocError::from)?;
    }
    if depots.is_empty() {
        return Err(Fault::WrongCount("DEPOT_SECTION"));
    }
    Ok(depots)
}

fn times(nodes: i64, width: usize) -> usize {
    usize::try_from(nodes).unwrap_or(0).saturating_mul(width)
}

fn check_count(count: usize, wanted: usize, section: &'static str) -> Result<(), Fault> {
    if count == wanted {
        Ok(())
    } else {
        Err(Fault::WrongCount(section))
    }
}

fn check_node(node: i64, nodes: i64, section: &'static str) -> Result<(), Fault> {
    if 1 <= node && node <= nodes {
        Ok(())
    } else {
        Err(Fault::BadNode(node, section))
    }
}

// Checks that each number is a node's, and that none is repeated.
fn check_nodes<V>(rows: &[(i64, V)], nodes: i64, section: &'static str) -> Result<(), Fault> {
    for (index, (node, _)) in rows.iter().enumerate() {
        check_node(*node, nodes, section)?;
        for (other, _) in rows.iter().take(index) {
            if other == node {
                return Err(Fault::BadNode(*node, section));
            }
        }
    }
    Ok(())
}
