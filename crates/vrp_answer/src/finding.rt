//! The result that every output form prints.
ghost use Rattle.std.specs.Prelude.{◌≡◌};
ghost use Rattle.vrp_answer.specs.Finding.{bounded_finding, by_best_bound, finding_of, lawful_finding, told_by};

use crate::answers::{Answer, Solved};
use crate::status::Status;
use vrp_model::Plan;

/// The result for an instance: the plan, its verdict, and lower bounds.
#[derive(Clone, Copy)]
pub struct Finding<'a> {
    /// The best known plan, if there is one.
    pub plan: Option<&'a Plan>,
    /// The verdict.
    pub status: Status,
    /// A lower bound on all feasible plans, if known; reports print it.
    pub lower_bound: Option<u64>,
    /// The highest known lower bound.
    pub best_lower_bound: Option<u64>,
}

impl<'a> Finding<'a> {
    /// The finding of an answer.
    pub fn of_answer(answer: &'a Answer) -> Finding<'a>
        ensures { told_by result ≡ finding_of answer.entry.now }
    {
        match answer {
            Answer::Proven(plan) => Finding {
                plan: Some(plan),
                status: Status::Proven,
                lower_bound: Some(plan.cost()),
                best_lower_bound: Some(plan.cost()),
            },
            Answer::Open { plan, low, .. } => Finding {
                plan: plan.as_ref(),
                status: Status::Open,
                lower_bound: Some(*low),
                best_lower_bound: Some(*low),
            },
            Answer::NoPlan => Finding {
                plan: None,
                status: Status::NoPlan,
                lower_bound: None,
                best_lower_bound: None,
            },
        }
    }

    /// The finding of a search's result: its answer and, if that is open, the higher of both bounds as the best one.
    pub fn of_solved(solved: &'a Solved) -> Finding<'a>
        ensures { told_by result ≡ bounded_finding solved.entry.now.answer solved.entry.now.lower_bound }
    {
        let finding = Finding::of_answer(&solved.answer);
        let best_lower_bound = match finding.status {
            Status::Open => finding.lower_bound.map(|low| low.max(solved.lower_bound)),
            _ => finding.best_lower_bound,
        };
        Finding {
            best_lower_bound,
            ..finding
        }
    }

    /// The finding with its best bound as the only one.
    pub fn by_best_bound(self) -> Finding<'a>
        ensures { told_by result ≡ by_best_bound (told_by self.entry) }
    {
        Finding {
            lower_bound: self.best_lower_bound,
            ..self
        }
    }

    /// The finding of a feasible plan that was only checked.
    pub fn lawful(plan: &'a Plan) -> Finding<'a>
        ensures { told_by result ≡ lawful_finding plan.entry.now }
    {
        Finding {
            plan: Some(plan),
            status: Status::Lawful,
            lower_bound: None,
            best_lower_bound: None,
        }
    }
}
