//! A run of ruin and recreate.
ghost use Rattle.std.specs.Prelude.{◌≡◌, ◌<◌, IfOk};
ghost use Rattle.vrp_model.specs.Problem.{place_count};

use crate::gathered::Gathered;
use crate::random::Random;
use crate::recreate::recreate;
use crate::routes::Routes;
use crate::ruin::ruin;
use crate::surroundings::Surroundings;
use crate::taken::Taken;
use crate::threshold::{Progress, Threshold};
use std::alloc::Global;
use std::marker::Model;
use vrp_model::{News, NoMemory, Watch};

/// The routes of a run: the last accepted ones, those of the current move, and the cheapest so far. Public for tests alone.
#[derive(Debug, Drop)]
pub struct States {
    last: Routes,
    // The same as the last ones except during a move.
    next: Routes,
    best: Routes,
}

impl Model for States {
    ghost use Rattle.std.specs.Prelude.{◌≡◌, ℕ};

    // The number of places.
    ghost Value = { ℕ };

    ghost view = { λ a. a.next };

    ghost invariant = { λ a. (a.last ≡ a.next) × (a.best ≡ a.next) };
}

// The watch is asked once in this many moves: reading a clock takes a while.
const MOVES_A_LOOK: u64 = 16;

/// The course of a run: its length, and the number that seeds its chances.
#[derive(Clone, Copy, Debug)]
pub struct Course {
    pub number: u64,
    pub threshold: Threshold,
}

/// Runs ruin and recreate on a word, and answers the word of the cheapest routes found. Each call gives the same answer, unless the
/// watch stops it or a time is set: the watch is asked before each 16th move, and hears of each cheaper cost. The routes of good plans
/// are gathered. A word is the stops of its routes, each route followed by 0; any word may be given, and symbols that are no customers
/// are ignored. The error is lack of memory.
///
/// Which word is answered is left open, and it need not be that of a feasible plan.
pub fn run<W: Watch>(
    alloc: Global,
    setting: &Surroundings<'_>,
    word: &[u16],
    course: Course,
    watch: &W,
    gathered: &mut Gathered,
) -> Result<Vec<u16>, NoMemory> {
    let Course { number, threshold } = course;
    let mut random = Random::new(number);
    let mut taken = Taken::new(alloc, setting.instance())?;
    let mut states = States::new(alloc, setting, word)?;
    let mut progress = Progress::NONE;
    let mut cost = states.best.cost();
    for index in 0..u64::MAX {
        if index % MOVES_A_LOOK == 0 {
            if !watch.should_continue() {
                break;
            }
            progress.left = watch.milliseconds_left();
        }
        progress.moves = index;
        if threshold.length.is_over(progress) {
            break;
        }
        let before = states.last.cost();
        let limit = states.limit(threshold.after(progress));
        let more = states.change(setting, &mut taken, &mut random, index, limit);
        progress.positions = progress.positions.saturating_add(more);
        states.settle(limit);
        if states.last.cost() < before {
            gathered.note(setting.instance(), &states.last, states.best.cost())?;
        }
        if states.best.cost() < cost {
            cost = states.best.cost();
            watch.on_news(News::Cheaper(cost));
        }
    }
    states.best.word(alloc, setting.instance())
}

impl States {
    /// The routes of a word, which serve nobody else. The error is lack of memory. No clause pins the routes.
    pub fn new(alloc: Global, setting: &Surroundings<'_>, word: &[u16]) -> Result<States, NoMemory>
        ensures { IfOk result (λ states. states ≡ place_count setting.now) }
    {
        let instance = setting.instance();
        let mut next = Routes::new(alloc, instance)?;
        let mut last = Routes::new(alloc, instance)?;
        let mut best = Routes::new(alloc, instance)?;
        next.load(setting, word);
        last.copy_from(&next);
        best.copy_from(&next);
        next.clear_changes();
        Ok(States { last, next, best })
    }

    /// Makes the move of an index on the next routes, and answers the number of positions looked at. The removed customers are left in
    /// `taken`. Once the routes cost as much as the limit, the move may be given up, with customers left unserved. No clause pins the
    /// routes or the number.
    pub fn change(
        &mut self,
        setting: &Surroundings<'_>,
        taken: &mut Taken,
        random: &mut Random,
        index: u64,
        limit: u64,
    ) -> u64
        requires places { self.old ≡ place_count setting.now }
        requires taken { taken.old ≡ place_count setting.now }
        ensures places { self.new ≡ self.old }
        ensures taken { taken.new ≡ taken.old }
    {
        taken.clear();
        list_unserved(setting, &self.next, taken);
        let number = (index % u64::from(u32::MAX)) as u32 + 1;
        let at_ruin = ruin(setting, &mut self.next, taken, random, number);
        taken.sort(setting, random);
        recreate(setting, &mut self.next, taken, random, limit).saturating_add(at_ruin)
    }

    /// Accepts the next routes if they cost less than the limit, and otherwise returns to the last ones. The cheapest routes so far are
    /// kept. No clause says so.
    pub fn settle(&mut self, limit: u64)
        ensures { self.new ≡ self.old }
    {
        let cost = self.next.cost();
        if cost < limit {
            self.last.follow(&self.next);
        } else {
            self.next.undo(&self.last);
        }
        self.next.clear_changes();
        if cost < self.best.cost() {
            self.best.copy_from(&self.last);
        }
    }

    /// The limit for the next routes: to be accepted they may not cost more than the last ones, or have to be costlier by less than this
    /// threshold, in the unit of the weights.
    pub fn limit(&self, threshold: u64) -> u64 {
        self.last.cost().saturating_add(threshold.max(1))
    }

    /// The routes after the move; no clause pins them.
    pub fn next(&self) -> &Routes
        ensures { result.now ≡ self.now }
    {
        &self.next
    }

    /// The cheapest routes that the run has kept; no clause pins them.
    pub fn best(&self) -> &Routes
        ensures { result.now ≡ self.now }
    {
        &self.best
    }
}

// Adds the customers that are on no route.
fn list_unserved(setting: &Surroundings<'_>, routes: &Routes, taken: &mut Taken)
    requires routes { routes.now ≡ place_count setting.now }
    requires taken { taken.old ≡ place_count setting.now }
    ensures { taken.new ≡ taken.old }
{
    if routes.unserved() == 0 {
        return;
    }
    for customer in 1..setting.instance().customers() + 1 {
        if routes.stop(customer).route == 0 {
            taken.add(customer);
        }
    }
}
