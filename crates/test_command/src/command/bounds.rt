//! A bound better than that of the pieces: JSON has both, and a report has the better one if a time is set.
ghost use Rattle.std.specs.Prelude.{true};

use crate::assertion::assert_same;
use std::alloc::Global;
use std::io::Eprint;
use std::process::Abort;
use std::rt::Files;
use std::sync::Wait;
use std::sync::atomic::{AtomicU64, Ordering};
use std::thread::Threads;
use std::time::Clock;
use vrp_command::{Event, Gate, Resources, Stage, run_arguments};

// Stops the search when it is to choose among routes: column generation has its bound by then, and each piece ends after one partial plan.
#[derive(Drop)]
struct StopsAtChoice {
    // 1 from then on.
    stopped: AtomicU64,
}

impl Gate for StopsAtChoice {
    ghost may_stop = { λ _. true };

    fn begins(&self, _worker: u32, _piece: u32) {}

    fn on_event(&self, news: Event) {
        if let Event::Begins(Stage::Choice) = news {
            self.stopped.store(1, Ordering::SeqCst);
        }
    }

    fn should_continue(&self) -> bool {
        self.stopped.load(Ordering::SeqCst) == 0
    }
}

// Twelve customers on a line, a step apart, with capacity two. In pairs from the far end they cost 24 + 20 + .. + 4 = 84, and
// no plan is cheaper.
const PAIRS: &str =
    "TYPE : CVRP\nDIMENSION : 13\nEDGE_WEIGHT_TYPE : EUC_2D\nCAPACITY : 2\nNODE_COORD_SECTION\n1 0 0\n2 1 0\n3 2 0\n4 3 0\n5 4 0\n6 5 0\n7 6 0\n8 7 0\n9 8 0\n10 9 0\n11 10 0\n12 11 0\n13 12 0\nDEMAND_SECTION\n1 0\n2 1\n3 1\n4 1\n5 1\n6 1\n7 1\n8 1\n9 1\n10 1\n11 1\n12 1\n13 1\nDEPOT_SECTION\n1\n-1\nEOF\n";

const LEAST_COST: u64 = 84;

// With such a small budget the pieces know little.
const JSON: &[&str] = &["--budget", "1000", "--format", "json"];

const REPORT: &[&str] = &["--budget", "1000"];

const TIMED_JSON: &[&str] = &["--budget", "1000", "--seconds", "60", "--format", "json"];

const TIMED_REPORT: &[&str] = &["--budget", "1000", "--seconds", "60"];

const LOWER_BOUND: &str = "\"lower_bound\":";

const BEST_LOWER_BOUND: &str = "\"best_lower_bound\":";

// Without a limit of seconds the report has the bound of the pieces, and the gap uses the best bound.
#[test]
fn both_bounds(rt: HostRuntime) {
    let text = printed(&rt, rt.alloc(), JSON);
    let text = text.as_str();
    let cost = number_in(&rt, text, "\"cost\":");
    let lower = number_in(&rt, text, LOWER_BOUND);
    let best = number_in(&rt, text, BEST_LOWER_BOUND);
    assert!(&rt; 0 < lower && lower < best, "{text}");
    assert!(&rt; best <= LEAST_COST && LEAST_COST <= cost, "{text}");
    let above = cost.saturating_sub(best).saturating_mul(10_000);
    let gap = number_in(&rt, text, "\"gap\":");
    assert_same(&rt, gap, above.div_ceil(best.max(1)), "the gap");
    let report = printed(&rt, rt.alloc(), REPORT);
    let open = number_in(&rt, report.as_str(), "Open ");
    assert_same(&rt, open, lower, "the report");
}

// With a limit of seconds both bounds are the best one.
#[test]
fn best_bound_alone(rt: HostRuntime) {
    let text = printed(&rt, rt.alloc(), JSON);
    let best = number_in(&rt, text.as_str(), BEST_LOWER_BOUND);
    let timed = printed(&rt, rt.alloc(), TIMED_JSON);
    let lower = number_in(&rt, timed.as_str(), LOWER_BOUND);
    assert_same(&rt, lower, best, "the lower bound");
    let also = number_in(&rt, timed.as_str(), BEST_LOWER_BOUND);
    assert_same(&rt, also, best, "the best lower bound");
    let report = printed(&rt, rt.alloc(), TIMED_REPORT);
    let open = number_in(&rt, report.as_str(), "Open ");
    assert_same(&rt, open, best, "the report");
}

// The output for the pairs, with these words, when the search stops at the choice.
fn printed<R: Abort + Files + Threads + Wait + Clock + Eprint + Sync>(
    rt: &R,
    alloc: Global,
    words: &[&str],
) -> String {
    let gate = StopsAtChoice {
        stopped: AtomicU64::new(0),
    };
    let mut input = PAIRS.as_bytes();
    let mut output = Vec::new(alloc);
    let mut errors = Vec::new(alloc);
    let resources = Resources::new(rt, alloc, &gate);
    let ended = run_arguments(&resources, words, &mut input, &mut output, &mut errors);
    assert_same(rt, ended, 1, "the status");
    String::from_utf8(output).expect(rt, "text")
}

// The whole number behind the first such name in a text.
fn number_in(rt: &impl Abort, text: &str, name: &str) -> u64 {
    let (_, behind) = text.split_once(name).expect(rt, "the name");
    let digits = behind.bytes().take_while(|byte| byte.is_ascii_digit());
    digits.fold(0u64, |number, digit| {
        number
            .saturating_mul(10)
            .saturating_add(u64::from(digit.wrapping_sub(b'0')))
    })
}
