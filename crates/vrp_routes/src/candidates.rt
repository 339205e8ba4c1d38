//! The labels of one length as they are found, and the choice of those to keep.
ghost use Rattle.std.specs.Prelude.{◌≡◌, ◌+◌, ◌^◌, ◌<◌, ◌≤◌, ℕ, List, [], OnOk, IfOk, IsTrue, Some, ◌↔◌, length, slice_index_or};
ghost use Rattle.vrp_routes.specs.Candidates.{HasExtensions, IsKeyed, IsOffered, kept_at};
ghost use Rattle.vrp_routes.specs.Label.{IsLabel};
ghost use Rattle.vrp_routes.specs.Level.{IsLevel};
ghost use Rattle.vrp_routes.specs.Setting.{setting_of};
ghost use Rattle.vrp_routes.specs.Shares.{IsFurther, IsPart};

use crate::completion_test::CompletionTest;
use crate::label::Label;
use crate::setting::Setting;
use crate::share::Share;
use std::alloc::Global;
use std::collections::HashMap;
use vrp_model::{CustomerSet, NoMemory};

/// Labels of one length whose last customer is in a share, in the order of their stops, symbol by symbol. Among labels with the same
/// customers and the same last one the cheapest is kept, and among equal ones the earliest.
#[derive(Drop)]
pub struct Candidates<X> {
    share: Share,
    labels: Vec<Label<X>>,
    // Whether a later label has taken its place, label by label.
    superseded: Vec<bool>,
    // The label that is kept, by set and last customer.
    kept: HashMap<(CustomerSet, u16), KeptLabel>,
}

// Where a label that is kept stands, and its cost, by which a further one is refused without a look at the label.
#[derive(Clone, Copy, Debug)]
pub struct KeptLabel {
    pub at: usize,
    pub cost: u64,
}

impl<X: Copy> Candidates<X> {
    /// No labels yet, for a share.
    pub fn new(alloc: Global, share: Share) -> Candidates<X>
        ensures share { result.share ≡ share }
        ensures empty { result.labels.items ≡ [] }
        ensures keyed { IsKeyed result }
    {
        Candidates {
            share,
            labels: Vec::new(alloc),
            superseded: Vec::new(alloc),
            kept: HashMap::new(alloc),
        }
    }

    /// The number of labels found, kept or not.
    pub fn len(&self) -> usize
        ensures { result ≡ length self.now.labels.items }
    {
        self.labels.len()
    }

    /// Offers the extensions of these labels, whose numbers start at `from`.
    pub fn extended<T: CompletionTest<Resources = X>>(
        mut self,
        setting: &Setting<'_, T>,
        labels: &[Label<X>],
        from: usize,
        to: usize,
    ) -> Result<Candidates<X>, NoMemory>
        requires level { (k : ℕ) × (stops : List (List ℕ))
            × IsLevel (setting_of T.CompletionTest setting.now.test.now) k stops labels.now }
        requires keyed { IsKeyed self }
        requires from { from ≤ to }
        requires to { to ≤ length labels.now }
        requires few { length labels.now < 2 ^ 32 }
        ensures { IfOk result (IsFurther (setting_of T.CompletionTest setting.now.test.now) labels.now from to self) }
    {
        for parent in from..to {
            self.offer_extensions(setting, &labels[parent], parent as u32)?;
        }
        Ok(self)
    }

    // Offers each extension of a label by a customer of the share.
    fn offer_extensions<T: CompletionTest<Resources = X>>(
        &mut self,
        setting: &Setting<'_, T>,
        label: &Label<X>,
        parent: u32,
    ) -> Result<(), NoMemory>
        requires label { (stops : List ℕ) × IsLabel (setting_of T.CompletionTest setting.now.test.now) stops label.now }
        requires keyed { IsKeyed self.old }
        ensures extensions { OnOk result ((k : ℕ) (stops : List (List ℕ)) → parent < length stops
            → IsLabel (setting_of T.CompletionTest setting.now.test.now) (slice_index_or stops parent []) label.now
            → HasExtensions (setting_of T.CompletionTest setting.now.test.now) k stops parent 0 self.old
            → HasExtensions (setting_of T.CompletionTest setting.now.test.now) k stops (parent + 1) 0 self.new) }
        ensures keyed { OnOk result (IsKeyed self.new) }
        ensures share { OnOk result (self.new.share ≡ self.old.share) }
    {
        let share = self.share;
        let places = u32::from(setting.places());
        let mut stop = share.first();
        while stop < places {
            if let Some(extended) = setting.extended(label, stop as u16, parent) {
                self.offer(extended)?;
            }
            stop = share.next(stop);
        }
        Ok(())
    }

    /// The labels that are kept, in their order.
    pub fn undominated(&self, alloc: Global) -> Result<Vec<Label<X>>, NoMemory>
        requires keyed { IsKeyed self.now }
        ensures { IfOk result (IsPart self.now) }
    {
        let mut labels = Vec::new(alloc);
        for at in 0..self.labels.len() {
            if self.keeps(at) {
                labels.push(self.labels[at])?;
            }
        }
        Ok(labels)
    }

    // Whether a label is kept.
    #[inline(always)]
    fn keeps(&self, at: usize) -> bool
        requires keyed { IsKeyed self.now }
        requires within { at < length self.now.labels.items }
        ensures { IsTrue result ↔ (kept_at self.now at ≡ Some at) }
    {
        !self.superseded[at]
    }

    // Adds a label, unless one with the same customers and the same last one costs no more.
    fn offer(&mut self, label: Label<X>) -> Result<(), NoMemory>
        requires keyed { IsKeyed self.old }
        ensures offered { OnOk result (IsOffered self.old label self.new) }
        ensures keyed { OnOk result (IsKeyed self.new) }
    {
        let key = (label.set, label.last);
        if let Some(kept) = self.kept.get(&key) {
            if kept.cost <= label.cost {
                return Ok(());
            }
            self.superseded[kept.at] = true;
        }
        let kept = KeptLabel {
            at: self.labels.len(),
            cost: label.cost,
        };
        self.kept.insert(key, kept)?;
        self.labels.push(label)?;
        self.superseded.push(false)?;
        Ok(())
    }
}
