//! What each worker makes of a block of labels: the joins of those that it takes.

use crate::pricing::joins::{Join, Joiner};
use crate::pricing::label::NO_LABEL;
use crate::pricing::turns::Turns;
use std::alloc::Global;
use vrp_model::NoMemory;

// A worker takes so many labels at once, which make a run.
const LABELS_OF_RUN: usize = 64;

// The runs of a block.
const RUNS: usize = 64;

/// The labels of a block.
pub const LABELS_OF_BLOCK: usize = LABELS_OF_RUN * RUNS;

/// The joins of the labels of a block that a worker took. Its memory serves all blocks.
#[derive(Drop)]
pub struct JoinShare {
    joins: Vec<Join>,
    // An error if memory ran out.
    end: Result<(), NoMemory>,
}

/// The turns that the workers take at the runs of a block.
pub fn turns_of_block(block: usize) -> Turns {
    let first = block.saturating_mul(RUNS);
    Turns::new(first, first.saturating_add(RUNS))
}

impl JoinShare {
    /// Takes runs as long as some are left, and joins their labels.
    pub fn work(&mut self, joiner: &Joiner<'_>, most_cost: i64, turns: &Turns) {
        self.joins.clear();
        self.end = self.take_runs(joiner, most_cost, turns);
    }

    // Joins the labels of the runs that are taken.
    fn take_runs(
        &mut self,
        joiner: &Joiner<'_>,
        most_cost: i64,
        turns: &Turns,
    ) -> Result<(), NoMemory> {
        for _turn in 0..RUNS {
            let Some(run) = turns.take() else {
                break;
            };
            self.join_run(joiner, run.saturating_mul(LABELS_OF_RUN), most_cost)?;
        }
        Ok(())
    }

    // Joins the labels of a run from the first one on.
    fn join_run(
        &mut self,
        joiner: &Joiner<'_>,
        first: usize,
        most_cost: i64,
    ) -> Result<(), NoMemory> {
        let labels = joiner.closed.labels_from(first, LABELS_OF_RUN);
        for (index, label) in labels.iter().enumerate() {
            let head = u32::try_from(first.saturating_add(index)).unwrap_or(NO_LABEL);
            if let Some(join) = joiner.cheapest_join(label, head, most_cost) {
                self.joins.push(join)?;
            }
        }
        Ok(())
    }
}

/// A share for each of so many workers.
pub fn new_join_shares(alloc: Global, workers: u16) -> Result<Vec<JoinShare>, NoMemory> {
    let mut shares = Vec::new(alloc);
    for _worker in 0..workers {
        shares.push(JoinShare {
            joins: Vec::new(alloc),
            end: Ok(()),
        })?;
    }
    Ok(shares)
}

/// Gathers the joins of all shares, by rising number of their first labels.
pub fn gather(fresh: &mut Vec<Join>, shares: &[JoinShare]) -> Result<(), NoMemory> {
    fresh.clear();
    for share in shares {
        share.end?;
        fresh.extend_from_slice(&share.joins)?;
    }
    fresh.sort_unstable_by_key(|join| join.head);
    Ok(())
}
