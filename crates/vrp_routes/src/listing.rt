//! The list of useful routes, level by level: the enumeration of routes of Baldacci, Christofides and Mingozzi (2008).
ghost use Rattle.std.specs.Prelude.{◌≡◌, ◌+◌, ◌<◌, ◌≤◌, ◌↔◌, ℕ, IfNone, IfOk, IsTrue};
ghost use Rattle.vrp_model.specs.Problem.{IsProblem, Problem, place_count};
ghost use Rattle.vrp_model.specs.declared.customers.customer_set.TheConstants.{PLACES};
ghost use Rattle.vrp_routes.specs.Listing.{AreListed, IfPool, IsListing};
ghost use Rattle.vrp_routes.specs.Pool.{IsPoolIn};
ghost use Rattle.vrp_routes.specs.Setting.{setting_of};
ghost use Rattle.vrp_routes.specs.declared.plan_range.PlanRange.{PlanRange};

use crate::closed::{ClosedRoute, close_level};
use crate::completion_test::CompletionTest;
use crate::label::Label;
use crate::level::{Extended, Limit, extend_level};
use crate::pool::RoutePool;
use crate::sequences::Sequences;
use crate::setting::Setting;
use crate::tally::LabelTally;
use std::alloc::Global;
use std::thread::Threads;
use vrp_model::{Crew, Instance, MOST_CUSTOMERS, NoMemory, Watch};

/// The pool of routes, or the limit that was met.
#[derive(Drop)]
pub enum Listed {
    Pool(RoutePool),
    Met(Limit),
}

/// Whether an instance has few enough customers that its routes can be listed.
pub fn can_list(instance: &Instance) -> bool
    ensures { IsTrue result ↔ (place_count instance.now ≤ PLACES) }
{
    instance.customers() <= MOST_CUSTOMERS
}

/// The routes that may be in the canonical plan of the test's instance, if that plan is in the test's range. Labels are
/// extended customer by customer. A label is dropped if the test tells that no useful route begins with its customers, or if another
/// label with the same customers and the same last one costs less, or as much and is earlier. At most `most_labels` labels are made; the
/// label of no customers, and labels dropped later, count too. Now and then the watch hears the number of labels made so far, and is
/// asked whether to go on. The contract leaves open that number, which limit is met and when, and that the pool is the same for every
/// number of workers.
pub fn list_routes<R: Threads + Sync, W: Watch + Sync, T: CompletionTest + Sync>(
    crew: &Crew<'_, R, W>,
    test: &T,
    most_labels: u32,
) -> Result<Listed, NoMemory>
    requires few { place_count (T.problem test.now) ≤ PLACES }
    ensures { IfOk result (λ listed. IfPool listed (IsPoolIn (T.problem test.now) (T.range test.now))) }
{
    let setting = Setting::new(test);
    let mut listing = Listing::new(crew.alloc, &setting)?;
    for _level in 1..setting.places() {
        if let Some(limit) = listing.step(crew, &setting, most_labels)? {
            return Ok(Listed::Met(limit));
        }
    }
    Ok(Listed::Pool(listing.into_pool()))
}

// The state of the list: the labels of one length, the sequences of all labels so far, and the routes up to that length.
#[derive(Drop)]
pub struct Listing<X> {
    sequences: Sequences,
    labels: Vec<Label<X>>,
    // The number of the first label's sequence.
    start: u32,
    routes: Vec<ClosedRoute>,
}

impl<X: Copy> Listing<X> {
    // The label of no customers.
    fn new<T: CompletionTest<Resources = X>>(
        alloc: Global,
        setting: &Setting<'_, T>,
    ) -> Result<Listing<X>, NoMemory>
        ensures { IfOk result (λ listing.
            IsListing (setting_of T.CompletionTest setting.now.test.now) 0 listing) }
    {
        let mut labels = Vec::new(alloc);
        labels.push(setting.root())?;
        Ok(Listing {
            sequences: Sequences::new(alloc),
            labels,
            start: 0,
            routes: Vec::new(alloc),
        })
    }

    // The routes that are listed.
    fn into_pool(self) -> RoutePool
        requires { (p : Problem) × (range : PlanRange) × (k : ℕ) × AreListed p range k self.sequences self.routes.items }
        ensures { (p : Problem) (range : PlanRange) (k : ℕ) → AreListed p range k self.sequences self.routes.items
            → IsProblem p → place_count p ≤ k → IsPoolIn p range result }
    {
        let Listing {
            sequences,
            labels: _labels,
            start: _start,
            routes,
        } = self;
        RoutePool::new(sequences, routes)
    }
}

impl<X: Copy + Send + Sync> Listing<X> {
    // Advances to the labels that are one customer longer.
    fn step<R: Threads + Sync, W: Watch + Sync, T: CompletionTest<Resources = X> + Sync>(
        &mut self,
        crew: &Crew<'_, R, W>,
        setting: &Setting<'_, T>,
        most_labels: u32,
    ) -> Result<Option<Limit>, NoMemory>
        requires listing { (k : ℕ) × IsListing (setting_of T.CompletionTest setting.now.test.now) k self.old }
        ensures { IfOk result (λ met. IfNone met ((k : ℕ)
            → IsListing (setting_of T.CompletionTest setting.now.test.now) k self.old
            → IsListing (setting_of T.CompletionTest setting.now.test.now) (k + 1) self.new)) }
    {
        let start = self.sequences.len() as u32;
        let tally = LabelTally {
            made: u64::from(start),
            room: most_labels.saturating_sub(start) as usize,
        };
        let extended = extend_level(crew, setting, &self.labels, tally)?;
        let labels = match extended {
            Extended::Labels(labels) => labels,
            Extended::Met(limit) => return Ok(Some(limit)),
        };
        self.sequences.push_level(self.start, &labels)?;
        let routes = close_level(crew, setting, &labels, start)?;
        self.routes.extend_from_slice(&routes)?;
        self.labels = labels;
        self.start = start;
        Ok(None)
    }
}
