//! Questions about parts of the pool, and their answers.
ghost use Rattle.std.specs.Prelude.{◌≡◌, ◌<◌, IfSome};
ghost use Rattle.std.specs.List.{Contains};
ghost use Rattle.vrp_model.specs.declared.customers.customer_set.TheConstants.{PLACES};

use crate::residual::Residual;
use vrp_partition::Route;

/// A question: can the unserved customers be served, by routes from the first place on, so that this customer is in a route between two
/// places of the pool?
#[derive(Clone, Copy, Debug, PartialEq, Eq)]
pub struct Question {
    pub rest: Residual,
    pub customer: u16,
    pub low: usize,
    pub high: usize,
    ghost place: { customer < PLACES },
}

/// A question and its answer. If that is yes, the routes are a choice that shows it; they are not trusted.
#[derive(Debug, Drop)]
pub struct Answered {
    pub question: Question,
    pub yes: bool,
    pub choice: Vec<Route>,
}

/// The answer to a question, if it is among these answers.
pub fn answer_to<'a>(answers: &'a [Answered], question: &Question) -> Option<&'a Answered>
    ensures among { IfSome result (λ answered. Contains answers.now answered.now) }
    ensures question { IfSome result (λ answered. answered.now.question ≡ question.now) }
{
    for index in 0..answers.len() {
        let answered = &answers[index];
        if answered.question == *question {
            return Some(answered);
        }
    }
    None
}
