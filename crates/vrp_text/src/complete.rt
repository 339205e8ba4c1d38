//! A file with nothing missing, and the check that its sections have the numbers that they need.
ghost use Rattle.std.specs.Prelude.{◌≡◌, ◌≤◌, OnOk, None};
ghost use Rattle.vrp_text.specs.Complete.{count_fault, listed_depots};
ghost use Rattle.vrp_text.specs.Inner.Answered.{FailsWith};
ghost use Rattle.vrp_text.specs.Inner.InMemory.{complete_in};

use crate::error::TextError;
use crate::lexer::Key;
use vrp_model::{Layout, MAX_NODES, Metric};

// The number that ends a list of depots.
const LAST_DEPOT: i64 = -1;

/// The source of the weights.
#[derive(Drop)]
pub(crate) enum Source {
    /// The distances of points: a node and its two coordinates, for each node.
    Points(Metric, Vec<i64>),
    /// A matrix: the weight of each cell that the layout lists.
    Matrix(Layout, Vec<i64>),
}

/// What a file states.
#[derive(Drop)]
pub(crate) struct Complete {
    pub nodes: u16,
    pub capacity: u64,
    pub source: Source,
    /// A node and its demand, for each node.
    pub demands: Vec<i64>,
    /// The depots, and any numbers after them.
    pub depots: Vec<i64>,
}

impl Complete {
    /// Checks that each section has as many numbers as it needs; refuses the first, in the order of `Key`, that has not.
    pub(crate) fn check_counts(&self) -> Result<(), TextError>
        requires { self.now.nodes ≤ MAX_NODES }
        ensures sound { OnOk result (count_fault (complete_in self.now) ≡ None) }
        ensures refused { FailsWith result (count_fault (complete_in self.now)) }
    {
        let nodes = usize::from(self.nodes);
        match &self.source {
            Source::Points(_, numbers) => {
                if numbers.len() != 3 * nodes {
                    return Err(TextError::WrongCount(Key::NodeCoord));
                }
            }
            Source::Matrix(layout, numbers) => {
                if numbers.len() != layout.entries(self.nodes) {
                    return Err(TextError::WrongCount(Key::EdgeWeight));
                }
            }
        }
        if self.demands.len() != 2 * nodes {
            return Err(TextError::WrongCount(Key::Demand));
        }
        if listed_depots(&self.depots).is_empty() {
            return Err(TextError::WrongCount(Key::Depot));
        }
        Ok(())
    }
}

/// The depots that a section lists: the numbers before the first -1, or all if there is none.
pub(crate) fn listed_depots(numbers: &[i64]) -> &[i64]
    ensures { result.now ≡ listed_depots numbers.now }
{
    for place in 0..numbers.len() {
        let number = numbers[place];
        if number == LAST_DEPOT {
            return &numbers[..place];
        }
    }
    numbers
}
