//! From the bytes of a file to the instance that they mean.
ghost use Rattle.std.specs.Prelude.{◌≡◌, ◌≤◌, Err, None, IfOk, IfErr, OnOk};
ghost use Rattle.vrp_text.specs.Complete.{complete_of, count_fault, nodes_fault, source_count_fault, source_node_fault};
ghost use Rattle.vrp_text.specs.Meaning.{HasWeights, MeansProblem, MeansRefusal, checked, reading_of};
ghost use Rattle.vrp_text.specs.Inner.InMemory.{complete_in, nodes_checked, source_in};
ghost use Rattle.vrp_text.specs.Inner.Answered.{RefusesFor};
ghost use Rattle.vrp_text.specs.Inner.StatedSoFar.{IsInRange, IsSourceInRange};
ghost use Rattle.vrp_text.specs.Inner.Outcome.{StatesProblem, IsStatedRefusal};
ghost use Rattle.vrp_text.specs.Refusal.{Refuses};

use crate::complete::{Complete, Source, listed_depots};
use crate::error::TextError;
use crate::nodes::{demands_of, depots_of, entries_of, points_of};
use crate::reading::read_statements;
use crate::statements::Statements;
use std::alloc::Global;
use vrp_model::{Instance, MAX_NODES, Weights};

/// The instance that a CVRP file means (TSPLIB 95, section 1), with the chosen node as its depot, or the first listed depot
/// if none is chosen. A refusal is the first that the file means, in this order: too long; the fault of the first faulty
/// line; a missing keyword or section; a wrong count; a bad node; a fault of the instance. `OutOfMemory` may come instead of
/// any answer.
pub fn read(alloc: Global, bytes: &[u8], chosen: Option<u16>) -> Result<Instance, TextError>
    ensures meant { IfOk result (MeansProblem bytes.now chosen) }
    ensures refused { Refuses result (λ error. MeansRefusal bytes.now chosen error) }
{
    let complete = read_complete(alloc, bytes)?;
    instance_of(alloc, &complete, chosen)
}

// The statements of a file, if no line is at fault, nothing is missing and the counts are right.
fn read_complete(alloc: Global, bytes: &[u8]) -> Result<Complete, TextError>
    ensures read { IfOk result (λ file. reading_of bytes.now ≡ nodes_checked file) }
    ensures counted { IfOk result (λ file. count_fault (complete_in file) ≡ None) }
    ensures in_range { IfOk result (λ file. IsInRange (complete_in file)) }
    ensures refused { Refuses result (λ error. reading_of bytes.now ≡ Err error) }
{
    counted(read_statements(alloc, bytes)?)
}

// The statements, if nothing is missing and the counts are right. It has no allocator, so no refusal is reported as lack of
// memory.
fn counted(statements: Statements) -> Result<Complete, TextError>
    ensures read { IfOk result (λ file. checked (complete_of statements) ≡ nodes_checked file) }
    ensures counted { IfOk result (λ file. count_fault (complete_in file) ≡ None) }
    ensures in_range { IfOk result (λ file. IsInRange (complete_in file)) }
    ensures refused { IfErr result (λ error. checked (complete_of statements) ≡ Err error) }
{
    let complete = statements.complete()?;
    complete.check_counts()?;
    Ok(complete)
}

// The stated instance, if the nodes are right and a truck can serve each customer.
fn instance_of(
    alloc: Global,
    complete: &Complete,
    chosen: Option<u16>,
) -> Result<Instance, TextError>
    requires counted { count_fault (complete_in complete.now) ≡ None }
    requires in_range { IsInRange (complete_in complete.now) }
    ensures sound { OnOk result (nodes_fault (complete_in complete.now) ≡ None) }
    ensures meant { IfOk result (StatesProblem (complete_in complete.now) chosen) }
    ensures refused { Refuses result (IsStatedRefusal (complete_in complete.now) chosen) }
{
    let weights = weights_of(alloc, complete.nodes, &complete.source)?;
    let demands = demands_of(alloc, complete.nodes, &complete.demands)?;
    let depots = depots_of(alloc, complete.nodes, listed_depots(&complete.depots))?;
    Ok(Instance::new(alloc, weights, &demands, complete.capacity, &depots, chosen)?)
}

// The weights between all nodes.
fn weights_of(alloc: Global, nodes: u16, source: &Source) -> Result<Weights, TextError>
    requires some { 1 ≤ nodes }
    requires few { nodes ≤ MAX_NODES }
    requires count { source_count_fault nodes (source_in source.now) ≡ None }
    requires within { IsSourceInRange (source_in source.now) }
    ensures sound { OnOk result (source_node_fault nodes (source_in source.now) ≡ None) }
    ensures nodes { IfOk result (λ grid. grid.nodes ≡ nodes) }
    ensures weights { IfOk result (HasWeights nodes (source_in source.now)) }
    ensures refused { RefusesFor result (source_node_fault nodes (source_in source.now)) }
{
    match source {
        Source::Points(metric, numbers) => {
            let points = points_of(alloc, nodes, numbers)?;
            Ok(Weights::points(alloc, *metric, &points)?)
        }
        Source::Matrix(layout, numbers) => {
            let entries = entries_of(alloc, numbers)?;
            Ok(Weights::matrix(alloc, *layout, &entries, nodes)?)
        }
    }
}
