//! Questions asked ahead, several at a time: those that will come up if the known choice is the canonical plan.
ghost use Rattle.std.specs.Prelude.{◌<◌, ◌≤◌, IfOk, IfSome, length};
ghost use Rattle.std.specs.Int.{bit_at};
ghost use Rattle.std.specs.List.{All};
ghost use Rattle.vrp_canonical.specs.Asking.{IsReply, IsRight};
ghost use Rattle.vrp_canonical.specs.Passing.{IsInside, route_in};

use crate::asked::{Inquiry, SearchReply};
use crate::halving::likely_place;
use crate::question::{Answered, Question};
use crate::residual::Residual;
use crate::run::run_from;
use crate::searches::Searches;
use std::alloc::AllocError;
use std::thread::Threads;
use vrp_model::{Crew, Watch};
use vrp_partition::{Guide, Route};

// The most questions asked ahead, for any number of workers: so a search takes the same steps with every number of them.
const MOST_AHEAD: usize = 8;

// A step of the pass through the pool, if the known choice is the canonical plan: the question, the residual problem after it, and the
// place to go on from.
#[derive(Clone, Copy)]
struct PassStep {
    question: Question,
    rest: Residual,
    index: usize,
}

impl<R: Threads + Sync, P: Guide + Send, W: Watch + Sync> Searches<'_, R, P, W> {
    /// Answers the questions that will come up from a place on if the known choice is the canonical plan, up to the first yes, which
    /// shows that it is not. The contract leaves open which questions these are, and how much of the budget is spent.
    pub fn ask_ahead(
        &mut self,
        pool: &[Route],
        rest: &Residual,
        index: usize,
    ) -> Result<Vec<Answered>, AllocError>
        ensures { IfOk result (λ answers. All (IsRight pool.now) answers.items) }
    {
        let questions = self.likely_questions(pool, rest, index)?;
        let alone = Crew {
            rt: self.crew.rt,
            alloc: self.crew.alloc,
            workers: 1,
            watch: self.crew.watch,
        };
        let inquiry = Inquiry {
            crew: &alone,
            fleet: self.fleet,
            pool,
            budget: self.budget,
            questions: questions.as_slice(),
        };
        let replies = inquiry.replies(self.guide, usize::from(self.crew.workers))?;
        self.take_replies(pool, replies)
    }

    // The answers up to the first yes, as far as they are known and the budget lasts.
    fn take_replies(
        &mut self,
        pool: &[Route],
        replies: Vec<SearchReply>,
    ) -> Result<Vec<Answered>, AllocError>
        requires replies { All (IsReply pool.now) replies.items }
        ensures { IfOk result (λ answers. All (IsRight pool.now) answers.items) }
    {
        let mut answers = Vec::new(self.crew.alloc);
        for reply in replies {
            let SearchReply {
                place,
                answer,
                spent,
            } = reply;
            let Some(answered) = answer else {
                return Ok(answers);
            };
            if place != answers.len() || spent >= self.budget {
                return Ok(answers);
            }
            self.budget -= spent;
            let yes = answered.yes;
            answers.push(answered)?;
            if yes {
                return Ok(answers);
            }
        }
        Ok(answers)
    }

    // The questions that will come up from a place on if the known choice is the canonical plan. No clause pins them.
    fn likely_questions(
        &self,
        pool: &[Route],
        rest: &Residual,
        index: usize,
    ) -> Result<Vec<Question>, AllocError> {
        let mut questions = Vec::new(self.crew.alloc);
        let (mut rest, mut index) = (*rest, index);
        while index < pool.len() && questions.len() < MOST_AHEAD {
            let set = pool[index].set;
            if !set.is_subset(rest.unserved) {
                index += 1;
            } else {
                let Some(step) = self.likely_step(pool, &rest, index) else {
                    return Ok(questions);
                };
                let step = &step;
                if step.question.low < step.question.high {
                    questions.push(step.question)?;
                }
                rest = step.rest;
                index = step.index;
            }
        }
        Ok(questions)
    }

    // The next step from a place on. `None` if there is none.
    fn likely_step(&self, pool: &[Route], rest: &Residual, index: usize) -> Option<PassStep>
        requires index { index < length pool.now }
        requires inside { IsInside pool.now rest.now.unserved index }
        ensures further { IfSome result (λ step. index < step.index) }
        ensures within { IfSome result (λ step. step.index ≤ length pool.now) }
    {
        if pool[index].set.is_empty() {
            return None;
        }
        let run = run_from(pool, rest.unserved, index);
        let customer = run.customer;
        match likely_place(pool, index, run.end, self.likely(customer)) {
            Some(at) => Some(PassStep {
                question: Question {
                    rest: *rest,
                    customer,
                    low: index,
                    high: at,
                },
                rest: rest.without(&pool[at])?,
                index: at + 1,
            }),
            None => Some(PassStep {
                question: Question {
                    rest: *rest,
                    customer,
                    low: index,
                    high: run.end,
                },
                rest: *rest,
                index: run.end,
            }),
        }
    }
}
