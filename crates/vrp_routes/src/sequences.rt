//! Sequences of customers, each of which extends an earlier one.
ghost use Rattle.std.specs.Prelude.{◌≡◌, ◌+◌, ◌^◌, ◌<◌, ◌≤◌, ℕ, List, [], ◌∷◌, ◌++◌, OnErr, OnOk, IfOk, IfSome, drop, length, slice_index_or};
ghost use Rattle.std.specs.List.{All};
ghost use Rattle.vrp_routes.specs.Level.{sequences};
ghost use Rattle.vrp_routes.specs.Sequences.{GoOn, sequences_by};

use crate::label::Label;
use std::alloc::Global;
use std::marker::Model;
use vrp_model::NoMemory;

/// The step from an earlier sequence to this one.
#[derive(Clone, Copy, Debug)]
pub struct Step {
    // The number of the earlier sequence. The empty sequence has number 0.
    pub parent: u32,
    pub last: u16,
}

/// Sequences of customers, numbered from 0; the first one is empty. Each takes eight bytes.
#[derive(Drop)]
pub struct Sequences {
    steps: Vec<Step>,
}

impl Model for Sequences {
    ghost use Rattle.std.specs.Prelude.{ℕ, List};
    ghost use Rattle.vrp_routes.specs.Sequences.{GoOn, sequences_by};

    ghost Value = { List (List ℕ) };

    ghost view = { λ a. sequences_by a.steps.items };

    ghost invariant = { λ a. GoOn a.steps.items };
}

impl Sequences {
    /// The empty sequence alone.
    pub fn new(alloc: Global) -> Sequences
        ensures { result ≡ [] ∷ [] }
    {
        Sequences {
            steps: Vec::new(alloc),
        }
    }

    /// The number of sequences.
    pub fn len(&self) -> usize
        ensures { result ≡ length self.now }
    {
        self.steps.len() + 1
    }

    /// Adds the sequences of labels, in their order. The numbers of their parents start at `start`.
    pub fn push_level<X: Copy>(&mut self, start: u32, labels: &[Label<X>]) -> Result<(), NoMemory>
        requires parents { All (λ label. label.parent < length (drop start self.old)) labels.now }
        requires few { length self.old < 2 ^ 32 }
        ensures { OnOk result (self.new ≡ self.old ++ sequences (drop start self.old) labels.now) }
    {
        for label in labels {
            self.push(start + label.parent, label.last)?;
        }
        Ok(())
    }

    /// Adds a sequence with these stops, behind those that it goes on from. Its number; `None` if numbers would take more than 32 bits.
    pub fn push_stops(&mut self, stops: &[u16]) -> Result<Option<u32>, NoMemory>
        ensures within { IfOk result (λ found. IfSome found (λ number. number < length self.new)) }
        ensures stops { IfOk result (λ found. IfSome found (λ number. slice_index_or self.new number [] ≡ stops.now)) }
        ensures longer { length self.old ≤ length self.new }
        ensures kept { (number : ℕ) → number < length self.old → slice_index_or self.new number [] ≡ slice_index_or self.old number [] }
    {
        let mut number = self.root();
        for &stop in stops {
            let Ok(next) = u32::try_from(self.len()) else {
                return Ok(None);
            };
            self.push(number, stop)?;
            number = next;
        }
        Ok(Some(number))
    }

    // The number of the empty sequence.
    fn root(&self) -> u32
        ensures within { result < length self.now }
        ensures stops { slice_index_or self.now result [] ≡ [] }
    {
        let _steps = &self.steps;
        0
    }

    /// The customers of a sequence.
    pub fn stops(&self, alloc: Global, number: u32) -> Result<Vec<u16>, NoMemory>
        requires { number < length self.now }
        ensures { IfOk result (λ stops. stops.items ≡ slice_index_or self.now number []) }
    {
        stops_by(alloc, &self.steps, number)
    }

    // Adds the sequence that extends this one by a last customer.
    fn push(&mut self, parent: u32, last: u16) -> Result<(), NoMemory>
        requires { parent < length self.old }
        ensures added { OnOk result (self.new ≡ self.old ++ (slice_index_or self.old parent [] ++ last ∷ []) ∷ []) }
        ensures same { OnErr result (self.new ≡ self.old) }
    {
        self.steps.push(Step { parent, last })?;
        Ok(())
    }
}

// The customers of a sequence, from the last back to the first.
fn stops_by(alloc: Global, steps: &[Step], number: u32) -> Result<Vec<u16>, NoMemory>
    requires steps { GoOn steps.now }
    requires number { number ≤ length steps.now }
    ensures { IfOk result (λ stops. stops.items ≡ slice_index_or (sequences_by steps.now) number []) }
{
    let mut stops = Vec::new(alloc);
    let mut number = number as usize;
    while number > 0 {
        let step = steps[number - 1];
        stops.push(step.last)?;
        number = step.parent as usize;
    }
    stops.reverse();
    Ok(stops)
}
