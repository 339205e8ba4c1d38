//! A guide of the choice whose nodes are counted.
use anyhow::Result;
use std::alloc::AllocError;
use std::sync::atomic::{AtomicU64, Ordering};
use vrp_model::{CustomerSet, Unhurried};
use vrp_partition::{Guide, PriceOffer, Route, Task};
use vrp_simplex::ProgramGuide;

/// What is counted of a search: its nodes, the steps of the linear program, and the reduced costs that were looked at.
#[derive(Drop)]
pub(crate) struct Counts {
    nodes: AtomicU64,
    primal_steps: AtomicU64,
    dual_steps: AtomicU64,
    looks: AtomicU64,
}

impl Counts {
    pub(crate) fn new() -> Counts {
        Counts {
            nodes: AtomicU64::new(0),
            primal_steps: AtomicU64::new(0),
            dual_steps: AtomicU64::new(0),
            looks: AtomicU64::new(0),
        }
    }
}

/// A guide whose nodes are counted.
#[derive(Drop)]
pub(crate) struct Counted<'a> {
    pub(crate) guide: ProgramGuide<'a, Unhurried>,
    pub(crate) counts: &'a Counts,
}

impl Guide for Counted<'_> {
    fn should_continue(&self) -> bool {
        true
    }

    fn offer(&mut self, pool: &[Route], task: &Task<'_>) -> Result<PriceOffer, AllocError> {
        let (primal, dual) = self.guide.steps();
        let offer = self.guide.offer(pool, task)?;
        let (more_primal, more_dual) = self.guide.steps();
        let counts = self.counts;
        counts.nodes.fetch_add(1, Ordering::SeqCst);
        let primal_steps = more_primal.saturating_sub(primal);
        counts
            .primal_steps
            .fetch_add(primal_steps, Ordering::SeqCst);
        let dual_steps = more_dual.saturating_sub(dual);
        counts.dual_steps.fetch_add(dual_steps, Ordering::SeqCst);
        counts.looks.fetch_add(offer.work, Ordering::SeqCst);
        Ok(offer)
    }

    fn group(&mut self, pool: &[Route]) -> Result<CustomerSet, AllocError> {
        self.guide.group(pool)
    }

    fn fork(&self) -> Result<Self, AllocError> {
        Ok(Counted {
            guide: self.guide.fork()?,
            counts: self.counts,
        })
    }
}

/// Prints what was counted.
pub(crate) fn print_counts(rt: &impl Print, counts: &Counts) -> Result<()> {
    let nodes = counts.nodes.load(Ordering::SeqCst);
    let primal = counts.primal_steps.load(Ordering::SeqCst);
    let dual = counts.dual_steps.load(Ordering::SeqCst);
    let looks = counts.looks.load(Ordering::SeqCst);
    println!(rt; "{nodes} nodes, {primal} primal and {dual} dual steps, {looks} looks")?;
    Ok(())
}
