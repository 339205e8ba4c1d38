//! Sections with a row for each node, and the depots: turns numbers into nodes.
ghost use Rattle.std.specs.Prelude.{◌≡◌, ◌+◌, ◌*◌, ◌≤◌, ◌<◌, pos, true, false, unsigned_abs, map, length, replicate, IfOk, IfErr, OnOk, OnErr, None, MatchOption, []};
ghost use Rattle.std.specs.List.{All};
ghost use Rattle.vrp_text.specs.Complete.{bad_node, demands_of, is_node, no_node, points_of, row_nodes};
ghost use Rattle.vrp_text.specs.Inner.PlacedRows.{IsGivenFirst, IsGivenOrNone};
ghost use Rattle.vrp_text.specs.Inner.Answered.{FailsWith, RefusesFor};
ghost use Rattle.vrp_text.specs.Inner.NodeFaults.{AreAtLeast, AreAtMost, IsPoint, coordinates_fault, demands_fault, depots_fault};
ghost use Rattle.vrp_text.specs.Section.{AreWithin};
ghost use Rattle.vrp_text.specs.declared.section.Section.TheVariants.{Coordinates};

use crate::error::TextError;
use crate::lexer::Key;
use std::alloc::{AllocError, Global};
use std::marker::Model;
use vrp_model::MAX_NODES;

// The nodes given so far.
#[derive(Drop)]
struct GivenNodes {
    // A mark for each node.
    marks: Vec<bool>,
}

impl Model for GivenNodes {
    ghost use Rattle.std.specs.Prelude.{Bool, List};

    ghost Value = { List Bool };

    ghost view = { λ given. given.marks.items };
}

impl GivenNodes {
    // No node is given.
    fn none(alloc: Global, nodes: u16) -> Result<GivenNodes, AllocError>
        ensures { IfOk result (λ given. given ≡ replicate nodes false) }
    {
        Ok(GivenNodes {
            marks: vec![in alloc; false; usize::from(nodes)]?,
        })
    }

    // Marks a node as given, and answers its position, from 0. None if the number is not a node, or was given before.
    fn give(&mut self, number: i64) -> Option<usize>
        requires few { length self.old ≤ MAX_NODES }
        ensures { MatchOption result
            ((self.new ≡ self.old) × (IsGivenOrNone self.old number))
            (λ place. IsGivenFirst self.old number place self.new) }
    {
        if number < 1 || number > self.marks.len() as i64 {
            return None;
        }
        let place = (number - 1) as usize;
        if self.marks[place] {
            return None;
        }
        self.marks[place] = true;
        Some(place)
    }
}

/// The points of all nodes, by rising node, from rows of a node and two coordinates.
pub(crate) fn points_of(
    alloc: Global,
    nodes: u16,
    numbers: &[i64],
) -> Result<Vec<(i64, i64)>, TextError>
    requires few { nodes ≤ MAX_NODES }
    requires rows { length numbers.now ≡ 3 * nodes }
    requires within { AreWithin Coordinates 0 numbers.now }
    ensures sound { OnOk result (bad_node nodes [] (row_nodes 3 nodes numbers.now) ≡ None) }
    ensures value { IfOk result (λ points. points.items ≡ points_of nodes numbers.now) }
    ensures small { IfOk result (λ points. All IsPoint points.items) }
    ensures refused { RefusesFor result (coordinates_fault nodes numbers.now) }
{
    let mut given = GivenNodes::none(alloc, nodes)?;
    let mut points = vec![in alloc; (0i64, 0i64); usize::from(nodes)]?;
    place_points(nodes, numbers, &mut given, &mut points)?;
    Ok(points)
}

// Puts each point at the position of its node. It has no allocator, so no bad node is reported as lack of memory.
fn place_points(
    nodes: u16,
    numbers: &[i64],
    given: &mut GivenNodes,
    points: &mut [(i64, i64)],
) -> Result<(), TextError>
    requires few { nodes ≤ MAX_NODES }
    requires rows { length numbers.now ≡ 3 * nodes }
    requires within { AreWithin Coordinates 0 numbers.now }
    requires none_given { given.old ≡ replicate nodes false }
    requires none_placed { points.old ≡ replicate nodes (pos 0, pos 0) }
    ensures sound { OnOk result (bad_node nodes [] (row_nodes 3 nodes numbers.now) ≡ None) }
    ensures value { OnOk result (points.new ≡ points_of nodes numbers.now) }
    ensures small { OnOk result (All IsPoint points.new) }
    ensures refused { FailsWith result (coordinates_fault nodes numbers.now) }
{
    for row in 0..usize::from(nodes) {
        let number = numbers[3 * row];
        let Some(place) = given.give(number) else {
            return Err(TextError::BadNode(Key::NodeCoord, number));
        };
        points[place] = (numbers[3 * row + 1], numbers[3 * row + 2]);
    }
    Ok(())
}

/// The demands of all nodes, by rising node, from rows of a node and its demand.
pub(crate) fn demands_of(alloc: Global, nodes: u16, numbers: &[i64]) -> Result<Vec<u64>, TextError>
    requires few { nodes ≤ MAX_NODES }
    requires rows { length numbers.now ≡ 2 * nodes }
    ensures sound { OnOk result (bad_node nodes [] (row_nodes 2 nodes numbers.now) ≡ None) }
    ensures value { IfOk result (λ demands. demands.items ≡ demands_of nodes numbers.now) }
    ensures refused { RefusesFor result (demands_fault nodes numbers.now) }
{
    let mut given = GivenNodes::none(alloc, nodes)?;
    let mut demands = vec![in alloc; 0u64; usize::from(nodes)]?;
    place_demands(nodes, numbers, &mut given, &mut demands)?;
    Ok(demands)
}

// Puts each demand at the position of its node. It has no allocator, so no bad node is reported as lack of memory.
fn place_demands(
    nodes: u16,
    numbers: &[i64],
    given: &mut GivenNodes,
    demands: &mut [u64],
) -> Result<(), TextError>
    requires few { nodes ≤ MAX_NODES }
    requires rows { length numbers.now ≡ 2 * nodes }
    requires none_given { given.old ≡ replicate nodes false }
    requires none_placed { demands.old ≡ replicate nodes 0 }
    ensures sound { OnOk result (bad_node nodes [] (row_nodes 2 nodes numbers.now) ≡ None) }
    ensures value { OnOk result (demands.new ≡ demands_of nodes numbers.now) }
    ensures refused { FailsWith result (demands_fault nodes numbers.now) }
{
    for row in 0..usize::from(nodes) {
        let number = numbers[2 * row];
        let Some(place) = given.give(number) else {
            return Err(TextError::BadNode(Key::Demand, number));
        };
        demands[place] = numbers[2 * row + 1].unsigned_abs();
    }
    Ok(())
}

/// The nodes of the depots.
pub(crate) fn depots_of(alloc: Global, nodes: u16, numbers: &[i64]) -> Result<Vec<u16>, TextError>
    ensures sound { OnOk result (no_node nodes numbers.now ≡ None) }
    ensures value { IfOk result (λ depots. depots.items ≡ map unsigned_abs numbers.now) }
    ensures from_one { IfOk result (λ depots. AreAtLeast 1 depots.items) }
    ensures within { IfOk result (λ depots. AreAtMost nodes depots.items) }
    ensures refused { RefusesFor result (depots_fault nodes numbers.now) }
{
    let mut depots = Vec::with_capacity(alloc, numbers.len())?;
    for number in numbers {
        depots.push(depot_of(nodes, *number)?)?;
    }
    Ok(depots)
}

// The node of one depot.
fn depot_of(nodes: u16, number: i64) -> Result<u16, TextError>
    ensures node { OnOk result (is_node nodes number ≡ true) }
    ensures value { IfOk result (λ depot. depot ≡ unsigned_abs number) }
    ensures within { IfOk result (λ depot. (1 ≤ depot) × (depot ≤ nodes)) }
    ensures no_node { OnErr result (is_node nodes number ≡ false) }
    ensures refused { IfErr result (λ error. error ≡ TextError.BadNode Key.Depot number) }
{
    if number < 1 || number > i64::from(nodes) {
        return Err(TextError::BadNode(Key::Depot, number));
    }
    Ok(number as u16)
}

/// The weights that a matrix lists.
pub(crate) fn entries_of(alloc: Global, numbers: &[i64]) -> Result<Vec<u64>, TextError>
    ensures value { IfOk result (λ entries. entries.items ≡ map unsigned_abs numbers.now) }
    ensures refused { IfErr result (λ error. error ≡ TextError.OutOfMemory) }
{
    let mut entries = Vec::with_capacity(alloc, numbers.len())?;
    for number in numbers {
        entries.push(number.unsigned_abs())?;
    }
    Ok(entries)
}
