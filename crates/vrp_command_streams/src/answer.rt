//! Hints on an answer.
ghost use Rattle.std.specs.Prelude.{◌≡◌, ◌≤◌, None, IfSome, length};
ghost use Rattle.vrp_command_streams.specs.Hints.{few_trucks};
ghost use Rattle.vrp_text.specs.declared.lexer.limits.TheConstants.{MAX_BYTES};

use crate::line::lines_in;
use std::fmt;
use vrp_model::Instance;
use vrp_text::{Key, MAX_BYTES, MAX_NODE, Tokens, number};

/// More about an answer, and what to do about it. Its text is one line, without a line end; the contract leaves it open.
#[derive(Clone, Copy, Debug, PartialEq, Eq)]
pub enum AnswerHint {
    /// There is no plan: the total demand, and the total capacity of the trucks.
    FewTrucks {
        demand: u64,
        trucks: u16,
        capacity: u64,
    },
    /// The file lists depots other than the one used.
    OtherDepots {
        used: u16,
    },
}

impl fmt::Display for AnswerHint {
    ghost output = { λ _. None };

    fn fmt<W: fmt::Write>(&self, f: &mut fmt::Formatter<W>) -> fmt::Result {
        match self {
            AnswerHint::FewTrucks {
                demand,
                trucks,
                capacity,
            } => write_few_trucks(f, *demand, *trucks, *capacity),
            AnswerHint::OtherDepots { used } => write!(
                f,
                "the file lists several depots, and node {used} is used: --depot NODE chooses another"
            ),
        }
    }
}

// The total demand and the total capacity. If the capacity is enough, customers with large demands don't fit together.
fn write_few_trucks<W: fmt::Write>(
    f: &mut fmt::Formatter<W>,
    demand: u64,
    trucks: u16,
    capacity: u64,
) -> fmt::Result {
    let carried = u64::from(trucks).saturating_mul(capacity);
    write!(
        f,
        "all customers demand {demand}, and --trucks {trucks} allows {carried}, {capacity} for each"
    )?;
    if demand <= carried {
        f.write_str("; but no sharing out of whole customers fits")?;
    }
    Ok(())
}

/// The hint on an instance without a plan; none if the trucks are not limited.
pub fn no_plan_hint(instance: &Instance) -> Option<AnswerHint>
    ensures { result ≡ few_trucks instance.now instance.now.trucks }
{
    match instance.trucks() {
        Some(trucks) => Some(AnswerHint::FewTrucks {
            demand: instance.whole_demand(),
            trucks,
            capacity: instance.capacity(),
        }),
        None => None,
    }
}

/// The hint on a file that lists several depots, of which this one is used.
pub fn depot_hint(bytes: &[u8], used: u16) -> Option<AnswerHint>
    ensures { IfSome result (λ hint. hint ≡ AnswerHint.OtherDepots used) }
{
    if bytes.len() <= MAX_BYTES && lists_other_depot(bytes, used) {
        Some(AnswerHint::OtherDepots { used })
    } else {
        None
    }
}

// Whether a file lists a depot other than this one.
fn lists_other_depot(bytes: &[u8], used: u16) -> bool
    requires { length bytes.now ≤ MAX_BYTES }
{
    let Some(mut lines) = lines_in(bytes, Key::Depot) else {
        return false;
    };
    while let Some(line) = lines.next_data() {
        match depots_on(line.text, used) {
            DepotLine::Same => {}
            DepotLine::Other => return true,
            DepotLine::End => return false,
        }
    }
    false
}

// The depots on a line.
enum DepotLine {
    // Only this depot, and the list continues.
    Same,
    // Another depot.
    Other,
    // The end of the list, without another depot before it.
    End,
}

// The depots on a line, compared with this one. Numbers below 1 are not depots: the list ends with -1.
fn depots_on(text: &[u8], used: u16) -> DepotLine {
    let mut tokens = Tokens::of(text);
    while let Some(token) = tokens.next() {
        match number(token, 1, MAX_NODE) {
            Err(_) => return DepotLine::End,
            Ok(node) if node != i64::from(used) => return DepotLine::Other,
            Ok(_) => {}
        }
    }
    DepotLine::Same
}
