//! The result of a search.
ghost use Rattle.std.specs.Prelude.{◌≡◌};
ghost use Rattle.std.specs.Option.{option_map};
ghost use Rattle.vrp_answer.specs.Answer.{known_plan};

use vrp_model::{NoMemory, Plan};

/// A feasible plan, if one is known, and its verdict.
#[derive(Debug, Drop)]
pub enum Answer {
    /// No feasible plan costs less, and none of the same cost has an earlier word.
    Proven(Plan),
    /// No feasible plan costs less than `low`. Some pieces were left, and `piece` is the lowest of their numbers.
    Open {
        plan: Option<Plan>,
        low: u64,
        piece: u32,
    },
    /// There is no feasible plan.
    NoPlan,
}

impl Answer {
    /// The plan, if one is known.
    pub fn plan(&self) -> Option<&Plan>
        ensures { option_map (λ plan. plan.now) result ≡ known_plan self.now }
    {
        match self {
            Answer::Proven(plan) => Some(plan),
            Answer::Open { plan, .. } => plan.as_ref(),
            Answer::NoPlan => None,
        }
    }
}

/// The result of a search: its answer, and a lower bound on all feasible plans, which may be higher than the answer's.
#[derive(Debug, Drop)]
pub struct Solved {
    pub answer: Answer,
    /// No feasible plan costs less; 0 if nothing is known.
    pub lower_bound: u64,
}

/// Why there is no answer.
#[derive(Clone, Copy, Debug, PartialEq, Eq, Drop, thiserror::Error)]
pub enum SolveError {
    /// An allocation was refused.
    #[error("out of memory")]
    OutOfMemory,
}

impl From<NoMemory> for SolveError {
    fn from(_: NoMemory) -> SolveError {
        SolveError::OutOfMemory
    }
}
