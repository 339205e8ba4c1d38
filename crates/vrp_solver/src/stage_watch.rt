//! The watch of a stage: the gate of the run, as the stages below see it.
ghost use Rattle.std.specs.Prelude.{◌≡◌, ◌≤◌};

use crate::stages::share_of;
use vrp_answer::{Event, Gate, Shared, Stage};
use vrp_bound::LowerBound;
use vrp_model::{Crew, NO_COST, News, Watch};

/// Stops a stage when the gate does, or when only the milliseconds that are reserved for later stages are left, and passes its news on to
/// the gate.
#[derive(Drop)]
pub(crate) struct StageWatch<'a, G: Gate> {
    gate: &'a G,
    reserved: u64,
    // The cost of the known plan, `NO_COST` if there is none.
    known: u64,
    // What a plan costs at most that the stage looks for.
    limit: u64,
}

impl<'a, G: Gate> StageWatch<'a, G> {
    /// The watch of a stage that begins now. No clause says how long it lasts.
    pub(crate) fn of_stage<R>(shared: &Shared<'a, R, G>, stage: Stage) -> StageWatch<'a, G> {
        let left = shared.gate.milliseconds_left().unwrap_or(0);
        let known = shared.start_plan.map_or(NO_COST, |plan| plan.cost());
        StageWatch {
            gate: shared.gate,
            reserved: share_of(stage, shared.instance.customers(), shared.budget).reserved(left),
            known,
            limit: known,
        }
    }

    /// The same watch of a stage that looks for plans up to a lower cost.
    pub(crate) fn within(self, limit: u64) -> StageWatch<'a, G> {
        StageWatch { limit, ..self }
    }
}

impl<G: Gate> Watch for StageWatch<'_, G> {
    fn should_continue(&self) -> bool {
        self.gate.should_continue()
            && match self.gate.milliseconds_left() {
                Some(left) => left > self.reserved,
                None => true,
            }
    }

    fn milliseconds_left(&self) -> Option<u64> {
        let left = self.gate.milliseconds_left()?;
        Some(left.saturating_sub(self.reserved))
    }

    fn on_news(&self, news: News) {
        match news {
            News::Cheaper(cost) => {
                if cost < NO_COST {
                    self.gate.on_event(Event::Cheaper(cost));
                }
            }
            News::Labels(labels) => self.gate.on_event(Event::Labels(labels)),
            News::Nodes {
                done,
                open,
                incumbent,
                lower_bound,
            } => {
                self.gate.on_event(Event::Nodes { done, open });
                // The pool has each route of a canonical plan that costs no more than the limit.
                let above = self.limit.saturating_add(1).min(self.known);
                let bound = LowerBound::of_cost(lower_bound.min(above));
                self.gate.on_event(Event::Bound(bound));
                // An incumbent above the limit is none.
                if incumbent <= self.limit && incumbent < self.known {
                    self.gate.on_event(Event::Plan(incumbent));
                }
            }
        }
    }
}

/// The 1 to 64 workers of a search, as long as this watch allows.
pub(crate) fn crew_of<'a, R, G: Gate>(
    shared: &'a Shared<'_, R, G>,
    workers: u32,
    watch: &'a StageWatch<'a, G>,
) -> Crew<'a, R, StageWatch<'a, G>>
    requires some { 1 ≤ workers }
    requires few { workers ≤ 64 }
    ensures workers { result.workers ≡ workers }
{
    Crew {
        rt: shared.rt,
        alloc: shared.alloc,
        workers: workers as u16,
        watch,
    }
}
