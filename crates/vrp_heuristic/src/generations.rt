//! A plan is improved by a population: pairs of good plans are crossed, and each child is improved by a short run of ruin and recreate.
ghost use Rattle.std.specs.Prelude.{◌≤◌, IfOk};
ghost use Rattle.vrp_model.specs.Route.{IsPlanOf};

use crate::giant_tour::crossed;
use crate::heuristic::first_threshold;
use crate::population::Population;
use crate::random::Random;
use crate::runs::{Round, Run, run_all, run_each};
use crate::split::split;
use crate::surroundings::Surroundings;
use crate::threshold::{Length, Threshold};
use std::alloc::Global;
use std::thread::Threads;
use vrp_model::{Crew, Instance, News, NoMemory, Plan, Quiet, Watch};
use vrp_search_tree::{cheaper_plan, lawful_plan};

// The number of the first run; the runs of a heuristic plan have lower ones.
const FIRST_RUN: u64 = 100;

// The least number of runs that make the first plans. They take half of the time, or of the moves.
const FIRST_RUNS: u64 = 8;

// Without a time so many runs are made side by side, for any number of workers.
const RUNS_TOGETHER: u16 = 4;

// The average number of positions that a first run looks at for each move, at most.
const POSITIONS_A_MOVE: u64 = 2_000;

// The moves of a child's run for each place.
const MOVES_A_PLACE: u64 = 30;

// The threshold of a child's run begins at this part of the usual one: the child is to keep what it has of its parents.
const PART_OF_THRESHOLD: u64 = 16;

/// How long a population goes on.
#[derive(Clone, Copy)]
pub(crate) enum Span {
    /// As long as the watch lets it, whose first half this is, in milliseconds. Each worker makes runs of its own.
    Half(u64),
    /// About so many moves. What comes of them is the same for any number of workers.
    Moves(u64),
}

impl Span {
    // The number of runs that are made side by side.
    fn together(self, workers: u16) -> u16 {
        match self {
            Span::Half(_) => workers,
            Span::Moves(_) => RUNS_TOGETHER,
        }
    }

    // The length of a run of one of so many rounds of first runs, where the watch has so many milliseconds left; none if there is no time.
    fn first_length(self, rounds: u64, left: Option<u64>) -> Option<Length> {
        match self {
            Span::Half(half) => {
                let first = left?;
                let last = first.saturating_sub(half / rounds.max(1));
                if first == 0 {
                    return None;
                }
                Some(Length::Time { first, last })
            }
            Span::Moves(moves) => {
                let moves = moves / (2 * FIRST_RUNS);
                let positions = moves.saturating_mul(POSITIONS_A_MOVE);
                Some(Length::Work { moves, positions })
            }
        }
    }

    // How many times children are made.
    fn generations(self, instance: &Instance) -> u64 {
        match self {
            Span::Half(_) => u64::MAX,
            Span::Moves(moves) => {
                let each = u64::from(RUNS_TOGETHER).saturating_mul(moves_of_child(instance));
                moves / 2 / each.max(1)
            }
        }
    }
}

// The moves of a child's run.
fn moves_of_child(instance: &Instance) -> u64 {
    MOVES_A_PLACE * (u64::from(instance.customers()) + 1)
}

/// The plan, or a better one. For the first half of the time, or of the moves, runs are made with seeds of their own. Then come children: two
/// plans are crossed as giant tours, the tour is split into routes, and a short run improves these.
pub(crate) fn evolved<R: Threads + Sync, W: Watch + Sync>(
    crew: &Crew<'_, R, W>,
    setting: &Surroundings<'_>,
    plan: Plan,
    span: Span,
) -> Result<Plan, NoMemory>
    requires { IsPlanOf setting.now plan }
    ensures lawful { IfOk result (IsPlanOf setting.now) }
    ensures no_costlier { IfOk result (λ found. found.cost ≤ plan.cost) }
{
    let mut population = Population::new(crew.alloc, setting)?;
    let best = after_runs(crew, setting, &mut population, plan, span)?;
    after_children(crew, setting, &mut population, best, span)
}

// The best of a plan and those that the first runs make, which are added to a population.
fn after_runs<R: Threads + Sync, W: Watch + Sync>(
    crew: &Crew<'_, R, W>,
    setting: &Surroundings<'_>,
    population: &mut Population,
    plan: Plan,
    span: Span,
) -> Result<Plan, NoMemory>
    requires { IsPlanOf setting.now plan }
    ensures lawful { IfOk result (IsPlanOf setting.now) }
    ensures no_costlier { IfOk result (λ found. found.cost ≤ plan.cost) }
{
    let together = span.together(crew.workers);
    let rounds = FIRST_RUNS.div_ceil(u64::from(together).max(1));
    let mut best = plan;
    for index in 0..rounds {
        let Some(length) = span.first_length(rounds, crew.watch.milliseconds_left()) else {
            break;
        };
        let round = Round {
            first: FIRST_RUN + index * u64::from(together),
            runs: together,
            threshold: Threshold {
                start: first_threshold(setting.instance()),
                length,
            },
            gathers: 0,
            recombines: false,
        };
        let runs = run_all(crew, setting, round, best.word())?;
        best = admitted(crew.alloc, setting, population, runs, best)?;
    }
    Ok(best)
}

// The best of a plan and the children of a population.
fn after_children<R: Threads + Sync, W: Watch + Sync>(
    crew: &Crew<'_, R, W>,
    setting: &Surroundings<'_>,
    population: &mut Population,
    plan: Plan,
    span: Span,
) -> Result<Plan, NoMemory>
    requires { IsPlanOf setting.now plan }
    ensures lawful { IfOk result (IsPlanOf setting.now) }
    ensures no_costlier { IfOk result (λ found. found.cost ≤ plan.cost) }
{
    // Most children cost more than the best plan, so nobody hears of their costs.
    let quiet = Quiet { watch: crew.watch };
    let quiet_crew = crew.watched_by(&quiet);
    let mut random = Random::new(FIRST_RUN);
    let mut round = round_of_children(setting.instance(), span.together(crew.workers));
    let mut best = plan;
    for _ in 0..span.generations(setting.instance()) {
        if !crew.watch.should_continue() {
            break;
        }
        let mut runs = children(crew.alloc, setting, population, &mut random, round)?;
        run_each(&quiet_crew, setting, round, &mut runs);
        let known = best.cost();
        best = admitted(crew.alloc, setting, population, runs, best)?;
        if best.cost() < known {
            crew.watch.on_news(News::Cheaper(best.cost()));
        }
        round.first = round.first.saturating_add(u64::from(round.runs));
    }
    Ok(best)
}

// The runs of the first children.
fn round_of_children(instance: &Instance, together: u16) -> Round {
    Round {
        first: FIRST_RUN.saturating_mul(2),
        runs: together,
        threshold: Threshold {
            start: first_threshold(instance) / PART_OF_THRESHOLD,
            length: Length::Work {
                moves: moves_of_child(instance),
                positions: u64::MAX,
            },
        },
        gathers: 0,
        recombines: false,
    }
}

// The runs of children of a population, before they have run.
fn children(
    alloc: Global,
    setting: &Surroundings<'_>,
    population: &Population,
    random: &mut Random,
    round: Round,
) -> Result<Vec<Run>, NoMemory> {
    let mut runs = Vec::with_capacity(alloc, usize::from(round.runs))?;
    for index in 0..round.runs {
        let child = child(alloc, setting, population, random)?;
        runs.push(Run::new(alloc, round, index, child))?;
    }
    Ok(runs)
}

// The word of a child of two plans of a population.
fn child(
    alloc: Global,
    setting: &Surroundings<'_>,
    population: &Population,
    random: &mut Random,
) -> Result<Vec<u16>, NoMemory> {
    let instance = setting.instance();
    let places = instance.customers() + 1;
    let (one, other) = population.parents(random);
    let (end, start) = (random.below(places), random.below(places));
    let (from, to) = (usize::from(start.min(end)), usize::from(start.max(end)));
    let tour = crossed(alloc, one, other, from, to, places)?;
    split(alloc, instance, &tour)
}

// The best of a plan and those that runs made, which are added to a population.
fn admitted(
    alloc: Global,
    setting: &Surroundings<'_>,
    population: &mut Population,
    runs: Vec<Run>,
    plan: Plan,
) -> Result<Plan, NoMemory>
    requires { IsPlanOf setting.now plan }
    ensures lawful { IfOk result (IsPlanOf setting.now) }
    ensures no_costlier { IfOk result (λ found. found.cost ≤ plan.cost) }
{
    let instance = setting.instance();
    let mut best = plan;
    for run in runs {
        let word = run.word?;
        if let Some(found) = lawful_plan(alloc, instance, &word)? {
            population.add(alloc, found.word(), found.cost())?;
        }
        best = cheaper_plan(alloc, instance, &word, best)?;
    }
    Ok(best)
}
