//! Labels in numbered piles.
ghost use Rattle.std.specs.Prelude.{◌≡◌, ◌<◌, [], IfOk, OnOk, length, slice_set, ℕ};
ghost use Rattle.vrp_labels.specs.Closing.{pushed};
ghost use Rattle.vrp_labels.specs.Sorting.{IsPileSorted};
ghost use Rattle.vrp_labels.specs.Label.{pile_at};

use crate::label::Label;
use std::alloc::{AllocError, Global};
use std::marker::Model;
use std::mem;

/// Piles of labels, by number.
#[derive(Debug, Drop)]
pub struct LabelPiles {
    alloc: Global,
    piles: Vec<Vec<Label>>,
}

impl Model for LabelPiles {
    ghost use Rattle.std.specs.Prelude.{List, map};
    ghost use Rattle.vrp_labels.specs.declared.label.Label.{Label};

    ghost Value = { List (List Label) };

    ghost view = { λ p. map (λ v. v.items) p.piles.items };
}

impl LabelPiles {
    /// So many piles with no labels. The only error is lack of memory.
    pub fn new(alloc: Global, count: usize) -> Result<LabelPiles, AllocError>
        ensures long { IfOk result (λ piles. length piles ≡ count) }
        ensures none { IfOk result (λ piles. (at : ℕ) → pile_at piles at ≡ []) }
    {
        let mut piles = Vec::with_capacity(alloc, count)?;
        for _ in 0..count {
            piles.push(Vec::new(alloc))?;
        }
        Ok(LabelPiles { alloc, piles })
    }

    /// The number of piles.
    pub fn len(&self) -> usize
        ensures { result ≡ length self.now }
    {
        self.piles.len()
    }

    /// The labels of a pile.
    #[inline(always)]
    pub fn get(&self, at: usize) -> &[Label]
        requires { at < length self.now }
        ensures { result.now ≡ pile_at self.entry.now at }
    {
        self.piles[at].as_slice()
    }

    /// Adds a label to a pile. The only error is lack of memory.
    #[inline(always)]
    pub fn push(&mut self, at: usize, label: Label) -> Result<(), AllocError>
        requires { at < length self.old }
        ensures { OnOk result (self.new ≡ pushed self.old at label) }
    {
        self.piles[at].push(label)?;
        Ok(())
    }

    /// Takes all labels from a pile.
    pub fn take(&mut self, at: usize) -> Vec<Label>
        requires { at < length self.old }
        ensures taken { result.items ≡ pile_at self.old at }
        ensures left { self.new ≡ slice_set self.old at [] }
    {
        mem::replace(&mut self.piles[at], Vec::new(self.alloc))
    }

    /// Sorts a pile by bands of load, and the labels of a band cheapest first.
    pub fn sort_by_band(&mut self, at: usize, shift: u32)
        requires at { at < length self.old }
        requires shift { shift < 32 }
        ensures { IsPileSorted at shift self.old self.new }
    {
        self.piles[at].sort_unstable_by_key(|label| (label.load >> shift, label.cost));
    }
}
