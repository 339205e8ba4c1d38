//! Questions that several workers search answers to: a free worker takes the next question that nobody has taken.
ghost use Rattle.std.specs.Prelude.{◌≤◌, IfOk};
ghost use Rattle.std.specs.List.{All};
ghost use Rattle.vrp_canonical.specs.Asking.{IsReply};

use crate::part::part_of;
use crate::question::{Answered, Question};
use crate::searches::search_within;
use std::alloc::{AllocError, Global};
use std::sync::atomic::{AtomicUsize, Ordering};
use std::thread::{Threads, for_each_mut};
use vrp_model::{Crew, Fleet, Watch};
use vrp_partition::{Found, Guide, Route};

/// The reply to a question: its answer, if it is known, and the part of the budget that was spent.
#[derive(Debug, Drop)]
pub struct SearchReply {
    /// The position of the question among those asked.
    pub place: usize,
    pub answer: Option<Answered>,
    pub spent: u64,
}

impl SearchReply {
    // Whether replies to later questions are useless: the known choice is not the canonical plan, or nothing is known.
    fn is_last(&self) -> bool {
        match &self.answer {
            Some(answered) => answered.yes,
            None => true,
        }
    }
}

/// Questions about a pool. Each is answered by a search within a budget, by one worker.
#[derive(Clone, Copy)]
pub struct Inquiry<'a, R, W> {
    pub crew: &'a Crew<'a, R, W>,
    pub fleet: &'a Fleet,
    pub pool: &'a [Route],
    pub budget: u64,
    pub questions: &'a [Question],
}

// The turns of the workers. They only guide: a worker who takes a question twice, or none, still finds right answers.
#[derive(Drop)]
struct Turns {
    // The first position that nobody has taken.
    next: AtomicUsize,
    // Replies behind this position are useless.
    last: AtomicUsize,
}

impl Turns {
    fn new() -> Turns {
        Turns {
            next: AtomicUsize::new(0),
            last: AtomicUsize::new(usize::MAX),
        }
    }

    // The next position, which belongs to the caller from now on.
    fn take(&self) -> usize {
        self.next.fetch_add(1, Ordering::SeqCst)
    }

    // From now on replies behind this position are useless.
    fn end_at(&self, place: usize) {
        // If another worker writes a later position in between, more work is done, but no answer changes.
        if self.is_of_use(place) {
            self.last.store(place, Ordering::SeqCst);
        }
    }

    // Whether a reply at this position may be useful.
    fn is_of_use(&self, place: usize) -> bool {
        place <= self.last.load(Ordering::SeqCst)
    }
}

// The watch of the search for one answer: it continues only as long as the reply may be useful.
#[derive(Clone, Copy)]
struct UsefulWatch<'a, W> {
    watch: &'a W,
    turns: &'a Turns,
    place: usize,
}

impl<W: Watch> Watch for UsefulWatch<'_, W> {
    fn should_continue(&self) -> bool {
        self.turns.is_of_use(self.place) && self.watch.should_continue()
    }
}

// A worker: a guide for its searches, and its replies to the questions that it took; an error until it has worked.
#[derive(Drop)]
struct QuestionWorker<P: Guide> {
    guide: P,
    replies: Result<Vec<SearchReply>, AllocError>,
}

impl<P: Guide + Send> QuestionWorker<P> {
    // Takes questions as long as useful ones are left, and searches for the answers.
    fn work<R: Threads + Sync, W: Watch>(&mut self, inquiry: &Inquiry<'_, R, W>, turns: &Turns)
        ensures { IfOk self.new.replies (λ replies. All (IsReply inquiry.now.pool.now) replies.items) }
    {
        self.replies = self.taken_replies(inquiry, turns);
    }

    // The replies to the questions that are taken.
    fn taken_replies<R: Threads + Sync, W: Watch>(
        &self,
        inquiry: &Inquiry<'_, R, W>,
        turns: &Turns,
    ) -> Result<Vec<SearchReply>, AllocError>
        ensures { IfOk result (λ replies. All (IsReply inquiry.now.pool.now) replies.items) }
    {
        let mut replies = Vec::new(inquiry.crew.alloc);
        for _ in 0..inquiry.questions.len() {
            let place = turns.take();
            if place >= inquiry.questions.len() || !turns.is_of_use(place) {
                return Ok(replies);
            }
            let turn = UsefulWatch {
                watch: inquiry.crew.watch,
                turns,
                place,
            };
            let reply = self.reply_to(inquiry, &turn, &inquiry.questions[place])?;
            if reply.is_last() {
                turns.end_at(place);
            }
            replies.push(reply)?;
        }
        Ok(replies)
    }

    // The reply to a question, by one search.
    fn reply_to<R: Threads + Sync, W: Watch>(
        &self,
        inquiry: &Inquiry<'_, R, W>,
        turn: &UsefulWatch<'_, W>,
        question: &Question,
    ) -> Result<SearchReply, AllocError>
        ensures { IfOk result (IsReply inquiry.now.pool.now) }
    {
        let rest = &question.rest;
        let crew = Crew {
            rt: inquiry.crew.rt,
            alloc: inquiry.crew.alloc,
            workers: inquiry.crew.workers,
            watch: turn,
        };
        let part = part_of(inquiry.crew.alloc, inquiry.pool, question)?;
        let part = part.as_slice();
        let mut left = inquiry.budget;
        let found = search_within(&crew, &self.guide, inquiry.fleet, part, rest, &mut left)?;
        let spent = inquiry.budget - left;
        let place = turn.place;
        let Some(Found::Cheapest(chosen)) = found else {
            return Ok(SearchReply {
                place,
                answer: None,
                spent,
            });
        };
        let answer = Some(Answered {
            question: *question,
            yes: chosen.cost <= rest.most,
            choice: chosen.routes,
        });
        Ok(SearchReply {
            place,
            answer,
            spent,
        })
    }
}

impl<R: Threads + Sync, W: Watch + Sync> Inquiry<'_, R, W> {
    /// The replies of this many workers, in the order of the questions. The contract leaves open which questions get no reply: those may
    /// be some behind the first one whose answer is yes or unknown. Up to that one the replies are the same for any number of workers.
    pub fn replies<P: Guide + Send>(
        &self,
        guide: &P,
        workers: usize,
    ) -> Result<Vec<SearchReply>, AllocError>
        requires { 1 ≤ workers }
        ensures { IfOk result (λ replies. All (IsReply self.now.pool.now) replies.items) }
    {
        let alloc = self.crew.alloc;
        let team = new_team(alloc, guide, workers.min(self.questions.len()))?;
        let mut replies = Vec::new(alloc);
        for worker in after_work(self, workers, team) {
            let mut more = worker.replies?;
            replies.append(&mut more)?;
        }
        replies.sort_by_key(|reply| reply.place)?;
        Ok(replies)
    }
}

// This many workers.
fn new_team<P: Guide>(
    alloc: Global,
    guide: &P,
    workers: usize,
) -> Result<Vec<QuestionWorker<P>>, AllocError> {
    let mut team = Vec::new(alloc);
    for _ in 0..workers {
        team.push(QuestionWorker {
            guide: guide.fork()?,
            replies: Err(AllocError),
        })?;
    }
    Ok(team)
}

// The workers after they have worked in parallel.
fn after_work<R: Threads + Sync, W: Watch + Sync, P: Guide + Send>(
    inquiry: &Inquiry<'_, R, W>,
    threads: usize,
    mut team: Vec<QuestionWorker<P>>,
) -> Vec<QuestionWorker<P>>
    requires { 1 ≤ threads }
    ensures { All (λ worker. IfOk worker.replies (λ replies. All (IsReply inquiry.now.pool.now) replies.items)) result.items }
{
    let turns = Turns::new();
    for_each_mut(
        inquiry.crew.rt,
        team.as_mut_slice(),
        threads,
        &|_, worker: &mut QuestionWorker<P>|
            ensures { IfOk worker.exit.now.replies (λ replies. All (IsReply inquiry.entry.now.pool.now) replies.items) }
        { worker.work(inquiry, &turns) },
    );
    team
}
