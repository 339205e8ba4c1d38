//! The command line's options, their ranges and their help, for `clap`.
use crate::limits::{MAX_BUDGET, MAX_SECONDS};
use clap::{Arg, ArgAction, Command, Error, value_parser};
use std::alloc::{AllocError, Global};
use vrp_model::MAX_NODES;
use vrp_search_tree::MAX_PIECES;
use vrp_solver::MAX_WORKERS;

/// The program's version, which `--version` prints behind the name.
pub const VERSION: &str = "1.0.0";

const ABOUT: &str =
    "Plans the routes of delivery trucks. Reads a capacitated vehicle routing\nproblem (a file of TSPLIB 95, type CVRP) on standard input, and prints the\ncheapest plan that it finds and a verdict on it:\n\n    cvrp --workers 4 < FILE";

const USAGE: &str = "cvrp [OPTIONS] < FILE\n\nThe file comes on standard input.";

const WORKERS: &str = "Threads that search side by side.\nFrom 1 to 64; default 1.";

const PIECES: &str =
    "How many pieces the search is cut into, at least. More of them\nshare the work better among the workers.\nFrom 1 to 65536; default 64.";

const BUDGET: &str =
    "How many partial plans are looked at under each piece before it\nis left open. More of them prove more, and take longer.\nFrom 1 to 1000000000000; default 10000000.";

const SECONDS: &str =
    "After how many seconds the search ends and prints what it has.\nWithout --budget that is its only limit.\nFrom 1 to 1000000; default is none.";

const PROGRESS: &str =
    "Tell on standard error how the search goes: when something is\nnew, and about every second.";

const DEPOT: &str =
    "The node that the trucks start from: one of the depots that the\nfile lists.\nFrom 1 to 1200; default is the first one listed.";

const TRUCKS: &str =
    "How many trucks there are: a plan has no more routes.\nFrom 1 to 1200; default is as many as are wanted.";

const START: &str =
    "A file with a plan to begin with, as CVRPLIB writes it: a line\nRoute #1: 5 2 for each route. Its customers are numbered from 1,\nby rising node and without the depot: not as a report has them.";

const CHECK: &str =
    "Tell whether the plan of --start is lawful and what it costs, and\nsearch for no other.";

const FORMAT: &str =
    "In which form the plan is printed: as a report; as CVRPLIB has it\n(sol), which is what --start reads; as JSON; or as a picture over\nthe coordinates of the file (svg).\nOne of report, sol, json, svg; default report.";

const STRICT: &str =
    "With --check: end with status 6 where the file of --start states\nanother cost than its plan's.";

const EXPLAIN: &str =
    "Add hints on standard error: what is known of a fault or of an\nanswer, and what to do about it.";

// The names of the forms.
const FORMATS: [&str; 4] = ["report", "sol", "json", "svg"];

const VERDICTS_AND_STATUSES: &str =
    "The last line of the report is the verdict:\n  Proven  no plan costs less than the printed one\n  Open L  a piece was left open: no plan costs less than L, but one may\n          cost less than the printed one\n  NoPlan  so few trucks can't serve all customers\n  Lawful  with --check: the plan is lawful, and a cheaper one may exist\n\nExit statuses:\n  0  Proven, NoPlan, Lawful, or this help\n  1  Open\n  2  the command line is refused\n  3  the file is refused, or the plan of --start\n  4  no memory\n  5  a read or a write failed\n  6  with --strict: another cost is stated than that of the plan\n\nWith --explain standard error says more of a refusal, and what to do.\n\nHow long a run takes: it looks for a plan to begin with and for prices, lists\nthe routes that may stand in a best plan and chooses among them; where that\ngives no proof it cuts the search into pieces and looks at no more than\n--budget partial plans in each. Without --workers one thread does all of it. A\nlarger budget lets each of these steps do more; a smaller one is saved on the\npieces; one below 1000 leaves out all but them, and proves some 15 customers. With --seconds the run ends in\ntime, whatever the file's size: its steps share the time, and what is left goes\ninto better plans.\n\nWhat can't be solved: other types of problem (time windows, pickups, fleets of\ndifferent trucks), distances with decimals, and more than 1200 nodes.\n\nExample, with four threads, for ten minutes at most:\n  cvrp --workers 4 --seconds 600 < examples/E-n51-k5.vrp";

// An option.
#[derive(Clone, Copy)]
enum CommandOption {
    Workers,
    Pieces,
    Budget,
    Seconds,
    Progress,
    Depot,
    Trucks,
    Start,
    Check,
    Strict,
    Format,
    Explain,
}

// The options, as the help lists them.
const OPTIONS: [CommandOption; 12] = [
    CommandOption::Workers,
    CommandOption::Pieces,
    CommandOption::Budget,
    CommandOption::Seconds,
    CommandOption::Progress,
    CommandOption::Depot,
    CommandOption::Trucks,
    CommandOption::Start,
    CommandOption::Check,
    CommandOption::Strict,
    CommandOption::Format,
    CommandOption::Explain,
];

/// The program's command line. The contract leaves its options and texts open.
pub fn command_line<'a>(alloc: Global) -> Result<Command<'a>, Error> {
    let mut command = described(alloc);
    for option in OPTIONS {
        command = command.arg(arg_of(alloc, option)?)?;
    }
    Ok(command)
}

// The command line's description, without options.
fn described<'a>(alloc: Global) -> Command<'a> {
    Command::new(alloc, "cvrp")
        .version(VERSION)
        .about(ABOUT)
        .override_usage(USAGE)
        .after_help(VERDICTS_AND_STATUSES)
        .next_line_help(true)
        .no_binary_name(true)
}

// An option's name, values and help.
fn arg_of<'a>(alloc: Global, option: CommandOption) -> Result<Arg<'a>, AllocError> {
    match option {
        CommandOption::Workers => workers(alloc),
        CommandOption::Pieces => Ok(pieces(alloc)),
        CommandOption::Budget => Ok(budget(alloc)),
        CommandOption::Seconds => seconds(alloc),
        CommandOption::Progress => Ok(progress(alloc)),
        CommandOption::Depot => Ok(depot(alloc)),
        CommandOption::Trucks => trucks(alloc),
        CommandOption::Start => Ok(start(alloc)),
        CommandOption::Check => check(alloc),
        CommandOption::Strict => strict(alloc),
        CommandOption::Format => Ok(format(alloc)),
        CommandOption::Explain => Ok(explain(alloc)),
    }
}

fn workers<'a>(alloc: Global) -> Result<Arg<'a>, AllocError> {
    Arg::new(alloc, "workers")
        .long("workers")
        .value_name("THREADS")
        .help(WORKERS)
        .value_parser(value_parser!(u32).range(1..=i64::from(MAX_WORKERS)))
        .alias("threads")
}

fn pieces<'a>(alloc: Global) -> Arg<'a> {
    Arg::new(alloc, "pieces")
        .long("pieces")
        .value_name("PIECES")
        .help(PIECES)
        .value_parser(value_parser!(u32).range(1..=i64::from(MAX_PIECES)))
}

fn budget<'a>(alloc: Global) -> Arg<'a> {
    Arg::new(alloc, "budget")
        .long("budget")
        .value_name("PLANS")
        .help(BUDGET)
        .value_parser(value_parser!(u64).range(1..=MAX_BUDGET as i64))
}

fn seconds<'a>(alloc: Global) -> Result<Arg<'a>, AllocError> {
    Arg::new(alloc, "seconds")
        .long("seconds")
        .value_name("SECONDS")
        .help(SECONDS)
        .value_parser(value_parser!(u32).range(1..=i64::from(MAX_SECONDS)))
        .alias("time-limit")
}

fn progress<'a>(alloc: Global) -> Arg<'a> {
    Arg::new(alloc, "progress")
        .long("progress")
        .help(PROGRESS)
        .action(ArgAction::SetTrue)
}

fn depot<'a>(alloc: Global) -> Arg<'a> {
    node(alloc, "depot").value_name("NODE").help(DEPOT)
}

fn trucks<'a>(alloc: Global) -> Result<Arg<'a>, AllocError> {
    node(alloc, "trucks")
        .value_name("TRUCKS")
        .help(TRUCKS)
        .alias("vehicles")
}

fn start<'a>(alloc: Global) -> Arg<'a> {
    Arg::new(alloc, "start")
        .long("start")
        .value_name("FILE")
        .help(START)
}

// Checking a plan requires a plan.
fn check<'a>(alloc: Global) -> Result<Arg<'a>, AllocError> {
    Arg::new(alloc, "check")
        .long("check")
        .help(CHECK)
        .action(ArgAction::SetTrue)
        .requires_arg("start")
}

// The stated cost is compared only for a checked plan.
fn strict<'a>(alloc: Global) -> Result<Arg<'a>, AllocError> {
    Arg::new(alloc, "strict")
        .long("strict")
        .help(STRICT)
        .action(ArgAction::SetTrue)
        .requires_arg("check")
}

fn explain<'a>(alloc: Global) -> Arg<'a> {
    Arg::new(alloc, "explain")
        .long("explain")
        .help(EXPLAIN)
        .action(ArgAction::SetTrue)
}

fn format<'a>(alloc: Global) -> Arg<'a> {
    Arg::new(alloc, "format")
        .long("format")
        .value_name("FORM")
        .help(FORMAT)
        .value_parser(FORMATS.as_slice())
        .hide_possible_values(true)
}

// An option whose value is a node, or a number of at most that many.
fn node<'a>(alloc: Global, name: &'a str) -> Arg<'a> {
    Arg::new(alloc, name)
        .long(name)
        .value_parser(value_parser!(u16).range(1..=i64::from(MAX_NODES)))
}
