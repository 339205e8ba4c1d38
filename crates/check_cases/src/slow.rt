//! A plain slow evaluator: computes the meaning of a file from its text, the long way round, and compares it with what the
//! command prints: at a glance and, if there are few customers, also given time. It has no clauses: it serves to check the
//! definitions, so it does not use them. The modules below it use nothing of the product but the metrics that they check.

mod distance;
mod fault;
mod keyword;
mod layout;
mod least;
mod lines;
mod number;
mod plan;
mod problem;
mod reading;
mod report;
mod section;
mod weights;

use self::fault::Fault;
use self::least::Cheapest;
use self::problem::Problem;
use anyhow::{Result, ensure};
use std::alloc::Global;
use std::rt::Files;
use std::sync::Wait;
use std::thread::Threads;
use std::{fs, str};
use vrp_command::{Options, RunError, Status, exit_status, fault_line, run};

// The exit status of a refused file.
const REFUSED: u8 = 3;

const MOST_TRUCKS: u16 = 1_200;

// The command's answer to a file.
#[derive(Debug, Drop)]
struct Answer {
    outcome: Result<Status, RunError>,
    printed: Vec<u8>,
}

// The command's budget for each piece.
#[derive(Clone, Copy)]
enum Time {
    // A look at the empty partial plan alone: the command keeps the plan that it starts with, if any, and its bound is the
    // one known before the search.
    Glance,
    Enough,
}

// The report and bounds of the plan that the command starts with.
#[derive(Debug, Drop)]
struct Start {
    said: String,
    cost: Option<u64>,
    // The report of that plan, with the verdict that the command printed.
    report: String,
}

/// Whether the command's metrics agree with the evaluator's, in words.
pub(crate) fn compare_metrics() -> &'static str {
    agreement(distance::agree_on_a_square())
}

/// The number of cuts of a file, one after each of its bytes, how many of them the evaluator refuses, and whether the
/// command's answer to each agrees with the evaluator.
pub(crate) fn compare_cuts<R: Files + AllocGlobal + Threads + Wait + Sync>(
    rt: &R,
    name: &str,
) -> Result<String> {
    let alloc = rt.alloc();
    let text = fs::read_to_string(rt, name)?;
    let cuts = text.len();
    let mut refusals = 0u32;
    let mut is_same = true;
    for length in 0..cuts {
        let cut = str::from_utf8(&text.as_bytes()[..length])?;
        let (is_refused, agrees) = compare_cut(rt, alloc, cut)?;
        refusals = refusals.saturating_add(u32::from(is_refused));
        is_same &= agrees;
    }
    let same = agreement(is_same);
    Ok(format!(in alloc; "{cuts} cuts, {refusals} refused; {same}")?)
}

// Whether the evaluator refuses a file, and whether the command's answer agrees with the evaluator.
fn compare_cut<R: Threads + Wait + Sync>(rt: &R, alloc: Global, cut: &str) -> Result<(bool, bool)> {
    let (is_refused, finding) = match reading::read(alloc, cut) {
        Ok(problem) => (false, evaluated(rt, alloc, &problem, cut)?),
        Err(fault) => (true, refused(rt, alloc, fault, cut, None)?),
    };
    Ok((is_refused, finding.as_str().ends_with(agreement(true))))
}

/// The evaluator's finding for a file, with this many trucks or no limit, and whether the command's answer agrees.
pub(crate) fn compare<R: Files + AllocGlobal + Threads + Wait + Sync>(
    rt: &R,
    name: &str,
    trucks: Option<u16>,
) -> Result<String> {
    let alloc = rt.alloc();
    let text = fs::read_to_string(rt, name)?;
    match reading::read(alloc, text.as_str()) {
        Ok(mut problem) => {
            problem.trucks = trucks;
            evaluated(rt, alloc, &problem, text.as_str())
        }
        Err(fault) => refused(rt, alloc, fault, text.as_str(), trucks),
    }
}

// The line for a file that states a problem.
fn evaluated<R: Threads + Wait + Sync>(
    rt: &R,
    alloc: Global,
    problem: &Problem,
    text: &str,
) -> Result<String> {
    let glance = at_a_glance(rt, alloc, problem, text)?;
    let cheapest = least::least(alloc, problem)?;
    let is_same = glance.is_bound(&cheapest) && is_found(rt, alloc, problem, text, &cheapest)?;
    let finding = glance.finding.as_str();
    told(
        alloc,
        finding,
        &cheapest,
        agreement(glance.is_same && is_same),
    )
}

// What is known of a problem at a glance, and whether the command prints exactly that.
#[derive(Debug, Drop)]
struct Glance {
    finding: String,
    // The command's lower bound.
    lower: u64,
    // The cost of the plan that the command starts with.
    cost: Option<u64>,
    is_same: bool,
}

fn at_a_glance<R: Threads + Wait + Sync>(
    rt: &R,
    alloc: Global,
    problem: &Problem,
    text: &str,
) -> Result<Glance> {
    let glance = ask(rt, alloc, text, problem.trucks, Time::Glance)?;
    let verdict = last_line(str::from_utf8(&glance.printed)?);
    let Start { said, cost, report } = start_plan(alloc, problem, verdict)?;
    let is_same = glance.is(status(verdict), report.as_str());
    Ok(Glance {
        finding: format!(in alloc; "{said}, {verdict} at a glance")?,
        lower: report::lower(verdict, cost),
        cost,
        is_same,
    })
}

impl Glance {
    // Whether the command's bound is valid, as far as the cheapest plan is known.
    fn is_bound(&self, cheapest: &Cheapest) -> bool {
        let cost = match cheapest {
            Cheapest::Unknown => self.cost.unwrap_or(report::NO_COST),
            Cheapest::Plan { cost, .. } => *cost,
            Cheapest::NoPlan => report::NO_COST,
        };
        self.lower <= cost
    }
}

// Whether the command, given time, finds the cheapest plan, as far as that is known.
fn is_found<R: Threads + Wait + Sync>(
    rt: &R,
    alloc: Global,
    problem: &Problem,
    text: &str,
    cheapest: &Cheapest,
) -> Result<bool> {
    match cheapest {
        Cheapest::Unknown => Ok(true),
        Cheapest::Plan { cost, routes } => {
            let wanted = report::text(alloc, routes, *cost, report::PROVEN)?;
            let is_plan = plan::is_lawful(problem, routes) && plan::cost(problem, routes) == *cost;
            Ok(is_plan && is_solved(rt, alloc, problem, text, wanted.as_str())?)
        }
        Cheapest::NoPlan => has_no_plan(rt, alloc, problem, text),
    }
}

// The finding, the cost of a cheapest plan, as far as it is known, and whether the command agrees.
fn told(alloc: Global, finding: &str, cheapest: &Cheapest, same: &str) -> Result<String> {
    match cheapest {
        Cheapest::Unknown => Ok(format!(in alloc; "{finding}; {same}")?),
        Cheapest::Plan { cost, .. } => Ok(format!(in alloc; "{finding}; least {cost}; {same}")?),
        Cheapest::NoPlan => Ok(format!(in alloc; "{finding}; there is none; {same}")?),
    }
}

// The plan of one truck for each customer, if there are enough trucks.
fn start_plan(alloc: Global, problem: &Problem, verdict: &str) -> Result<Start> {
    let routes = plan::singles(alloc, problem)?;
    let count = routes.len();
    if !problem.has_trucks_for(count) {
        return Ok(Start {
            said: "no plan to start with".to_string(alloc)?,
            cost: None,
            report: report::text_without_plan(alloc, verdict)?,
        });
    }
    let cost = plan::cost(problem, &routes);
    let lawful = word(plan::is_lawful(problem, &routes), "lawful", "not lawful");
    Ok(Start {
        said: format!(in alloc; "{count} routes, cost {cost}, {lawful}")?,
        cost: Some(cost),
        report: report::text(alloc, &routes, cost, verdict)?,
    })
}

// The status of a run that prints this verdict.
fn status(verdict: &str) -> Status {
    match verdict {
        report::PROVEN => Status::Proven,
        report::NO_PLAN => Status::NoPlan,
        _ => Status::Open,
    }
}

// Whether the command, given time, prints exactly this report of a plan, as proven.
fn is_solved<R: Threads + Wait + Sync>(
    rt: &R,
    alloc: Global,
    problem: &Problem,
    text: &str,
    wanted: &str,
) -> Result<bool> {
    let answer = ask(rt, alloc, text, problem.trucks, Time::Enough)?;
    Ok(answer.is(Status::Proven, wanted))
}

// Whether the command, given time, says that there is no plan.
fn has_no_plan<R: Threads + Wait + Sync>(
    rt: &R,
    alloc: Global,
    problem: &Problem,
    text: &str,
) -> Result<bool> {
    let answer = ask(rt, alloc, text, problem.trucks, Time::Enough)?;
    let wanted = report::text_without_plan(alloc, report::NO_PLAN)?;
    Ok(answer.is(Status::NoPlan, wanted.as_str()))
}

// The line for a refused file.
fn refused<R: Threads + Wait + Sync>(
    rt: &R,
    alloc: Global,
    fault: Fault,
    text: &str,
    trucks: Option<u16>,
) -> Result<String> {
    let wanted = fault.to_string(alloc)?;
    let answer = ask(rt, alloc, text, trucks, Time::Glance)?;
    let is_same = match &answer.outcome {
        Ok(_) => false,
        Err(refusal) => fault_line(alloc, refusal)?.as_str() == wanted.as_str(),
    };
    let is_refused = exit_status(&answer.outcome) == REFUSED && answer.printed.is_empty();
    let same = agreement(is_same && is_refused);
    Ok(format!(in alloc; "{wanted}; {same}")?)
}

// The command's answer to a file, with this many trucks or no limit.
fn ask<R: Threads + Wait + Sync>(
    rt: &R,
    alloc: Global,
    text: &str,
    trucks: Option<u16>,
    time: Time,
) -> Result<Answer> {
    if let Some(trucks) = trucks {
        ensure!(1 <= trucks && trucks <= MOST_TRUCKS, "{trucks} trucks");
    }
    let enough = Options {
        trucks,
        ..Options::default()
    };
    let options = match time {
        Time::Glance => Options {
            pieces: 1,
            budget: 1,
            ..enough
        },
        Time::Enough => enough,
    };
    let mut printed = Vec::new(alloc);
    let outcome = run(rt, alloc, options, &mut text.as_bytes(), &mut printed);
    Ok(Answer { outcome, printed })
}

impl Answer {
    // Whether this is a report with this status and this text.
    fn is(&self, status: Status, text: &str) -> bool {
        self.outcome == Ok(status) && self.printed.as_slice() == text.as_bytes()
    }
}

fn last_line(text: &str) -> &str {
    text.lines().last().unwrap_or("")
}

fn agreement(is_same: bool) -> &'static str {
    word(is_same, "the command agrees", "the command differs")
}

fn word(holds: bool, yes: &'static str, no: &'static str) -> &'static str {
    if holds { yes } else { no }
}
