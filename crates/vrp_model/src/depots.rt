//! The listed depots of a file, and the faulty nodes for these depots.
ghost use Rattle.std.specs.Prelude.{◌≡◌, ℕ, ◌+◌, ◌-◌, ◌≤◌, ◌<◌, IfNone, IfSome, List, length, slice_index, false};
ghost use Rattle.vrp_model.specs.Request.{is_listed, NoDepotHasDemand, NoneIsTooHeavy, IsLowestDepotWithDemand, IsLowestTooHeavy};

use crate::limits::MAX_NODES;
use std::marker::Model;

// The number of marks: one for each node number from 0 to the greatest.
const MARKS: usize = MAX_NODES as usize + 1;

/// The listed depots, with a mark for each node. A look-up takes one step, however often a depot is listed.
#[derive(Drop)]
pub(crate) struct Depots<'a> {
    listed: &'a [u16],
    marks: [bool; MARKS],
}

impl<'a> Model for Depots<'a> {
    ghost use Rattle.std.specs.Prelude.{List, ℕ};
    ghost use Rattle.vrp_model.specs.Inner.Marks.{AreMarks};

    ghost Value = { List ℕ };

    ghost view = { λ d. d.listed.now };

    ghost invariant = { λ d. AreMarks d.listed.now d.marks };
}

impl<'a> Depots<'a> {
    /// Marks the listed nodes.
    pub(crate) fn new(listed: &'a [u16]) -> Depots<'a>
        requires { (k : ℕ) → slice_index listed.now k ≤ MAX_NODES }
        ensures { result ≡ listed.now }
    {
        let mut marks = [false; MARKS];
        for depot in listed {
            marks[usize::from(*depot)] = true;
        }
        Depots { listed, marks }
    }

    /// Whether a node is listed.
    pub(crate) fn contains(&self, node: u16) -> bool
        requires { node ≤ MAX_NODES }
        ensures { result ≡ is_listed self.now node }
    {
        self.marks[usize::from(node)]
    }

    /// The lowest listed node that has a demand.
    pub(crate) fn lowest_with_demand(&self, demands: &[u64]) -> Option<u16>
        requires few { length demands.now ≤ MAX_NODES }
        requires from_one { is_listed self.now 0 ≡ false }
        ensures none { IfNone result (NoDepotHasDemand self.now demands.now) }
        ensures lowest { IfSome result (IsLowestDepotWithDemand self.now demands.now) }
    {
        let count = demands.len() as u16;
        for index in 0..count {
            let node = index + 1;
            if self.contains(node) && demands[usize::from(index)] != 0 {
                return Some(node);
            }
        }
        None
    }

    /// The lowest node that is not listed and has a demand above the capacity.
    pub(crate) fn lowest_too_heavy(&self, demands: &[u64], capacity: u64) -> Option<u16>
        requires few { length demands.now ≤ MAX_NODES }
        ensures none { IfNone result (NoneIsTooHeavy self.now demands.now capacity) }
        ensures lowest { IfSome result (IsLowestTooHeavy self.now demands.now capacity) }
    {
        let count = demands.len() as u16;
        for index in 0..count {
            let node = index + 1;
            if !self.contains(node) && demands[usize::from(index)] > capacity {
                return Some(node);
            }
        }
        None
    }
}
