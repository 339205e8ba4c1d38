//! How labels grow customer by customer, and which of them dominate others.
ghost use Rattle.std.specs.Prelude.{◌≡◌, ◌≤◌, ◌<◌, ◌↔◌, ℕ, List, [], ◌∷◌, IsTrue};
ghost use Rattle.vrp_labels.specs.Completion.{IsForward, MayAdvance, advanced_by};
ghost use Rattle.vrp_labels.specs.Label.{Dominates, IsLabelOf, MayExtend, extended_by, outline_of, root_label};

use crate::graph::RouteGraph;
use crate::label::Label;
use vrp_duals::RowSet;
use vrp_model::CustomerSet;

impl RouteGraph {
    /// The label of no stop, from which beginnings are made.
    pub fn root(&self) -> Label
        ensures value { result ≡ root_label }
        ensures label { IsLabelOf self.now result }
        ensures forward { IsForward self.now [] result }
    {
        let _places = self.places();
        Label::root()
    }

    /// Whether the endings of a label may be extended by a customer in front.
    #[inline(always)]
    pub fn may_extend(&self, label: &Label, customer: u16) -> bool
        requires some { 1 ≤ customer }
        requires place { customer < self.now.folded.places }
        requires label { IsLabelOf self.now label.now }
        ensures { IsTrue result ↔ MayExtend self.now label.now customer }
    {
        self.demand(customer) <= self.capacity() - label.load
            && !label.visited.contains(customer)
            && self.follows(customer, label.at)
    }

    /// Whether the beginning of a label may be extended by a customer.
    #[inline(always)]
    pub fn may_advance(&self, forward: &Label, customer: u16) -> bool
        requires some { 1 ≤ customer }
        requires place { customer < self.now.folded.places }
        requires forward { IsLabelOf self.now forward.now }
        ensures { IsTrue result ↔ MayAdvance self.now forward.now customer }
    {
        self.demand(customer) <= self.capacity() - forward.load
            && !forward.visited.contains(customer)
            && self.follows(forward.at, customer)
    }

    /// The label of endings with one more customer in front.
    #[inline(always)]
    pub fn extended(&self, label: &Label, customer: u16) -> Label
        requires label { IsLabelOf self.now label.now }
        requires may { MayExtend self.now label.now customer }
        ensures value { result ≡ extended_by self.now label.now customer }
        ensures label { IsLabelOf self.now result }
        ensures heavier { label.now.load < result.load }
    {
        let arc = self.arc(customer, label.at);
        let due = self.folded_duals().due_at(customer, label.rows);
        Label {
            visited: label
                .visited
                .intersection(self.near(customer))
                .with(customer),
            rows: self.folded_duals().rows_at(customer, label.rows),
            cost: label.cost + arc + due as i64,
            load: label.load + self.demand(customer),
            at: customer,
        }
    }

    /// As much of the label with one more customer in front as its arcs and its load tell: no label costs less than this.
    #[inline(always)]
    pub(crate) fn outline(&self, label: &Label, customer: u16) -> Label
        requires label { IsLabelOf self.now label.now }
        requires may { MayExtend self.now label.now customer }
        ensures value { result ≡ outline_of self.now label.now customer }
        ensures label { IsLabelOf self.now result }
    {
        Label {
            visited: CustomerSet::empty(),
            rows: RowSet::empty(),
            cost: label.cost + self.arc(customer, label.at),
            load: label.load + self.demand(customer),
            at: customer,
        }
    }

    /// The label of a beginning with one more customer.
    #[inline(always)]
    pub fn advanced(&self, forward: &Label, customer: u16) -> Label
        requires forward { IsLabelOf self.now forward.now }
        requires may { MayAdvance self.now forward.now customer }
        ensures value { result ≡ advanced_by self.now forward.now customer }
        ensures forward { (beginning : List ℕ)
            → IsForward self.now beginning forward.now → IsForward self.now (customer ∷ beginning) result }
        ensures label { IsLabelOf self.now result }
    {
        let arc = self.arc(forward.at, customer);
        let due = self.folded_duals().due_at(customer, forward.rows);
        Label {
            visited: forward.visited.with(customer),
            rows: self.folded_duals().rows_at(customer, forward.rows),
            cost: forward.cost + arc + due as i64,
            load: forward.load + self.demand(customer),
            at: customer,
        }
    }

    /// Whether one label dominates another of the same place.
    #[inline(always)]
    pub fn dominates(&self, label: &Label, other: &Label) -> bool
        requires label { IsLabelOf self.now label.now }
        requires same { label.now.at ≡ other.now.at }
        ensures { IsTrue result ↔ Dominates self.now label.now other.now }
    {
        if label.cost > other.cost {
            return false;
        }
        if label.load > other.load {
            return false;
        }
        if !label.visited.is_subset(other.visited) {
            return false;
        }
        let more = label
            .rows
            .symmetric_difference(label.rows.intersection(other.rows));
        self.weighs_at_most(more, other.cost.abs_diff(label.cost))
    }
}
