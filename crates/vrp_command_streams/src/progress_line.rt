//! One line of progress.
ghost use Rattle.std.specs.Prelude.{None};

use std::fmt;
use vrp_answer::{Stage, Status};
use vrp_bound::LowerBound;

/// How far a run is.
#[derive(Clone, Copy, Debug, PartialEq, Eq)]
pub enum RunState {
    /// The run is at a stage.
    At(Stage),
    /// The run ended with this verdict.
    Ended(Status),
}

impl fmt::Display for RunState {
    // No clause covers the text.
    ghost output = { λ _. None };

    fn fmt<W: fmt::Write>(&self, f: &mut fmt::Formatter<W>) -> fmt::Result {
        match self {
            RunState::At(stage) => write!(f, "{stage}"),
            RunState::Ended(status) => f.write_str(status.as_str()),
        }
    }
}

/// The state of a run. Its text is one line, without a line end. It mentions pieces only if their number is known, labels
/// only while routes are listed, and nodes only during the choice.
#[derive(Clone, Copy, Debug, PartialEq, Eq)]
pub struct Line {
    pub state: RunState,
    /// The seconds since the start, if the clock works.
    pub seconds: Option<u64>,
    /// The cost of the best plan, if one is known.
    pub cost: Option<u64>,
    /// No plan costs less than this, if it is known.
    pub bound: Option<LowerBound>,
    /// The number of labels made so far.
    pub labels: u64,
    /// The number of useful routes; 0 if none are listed.
    pub routes: u64,
    /// The number of nodes of the choice that are done.
    pub nodes_done: u64,
    /// The number of nodes of the choice that are open.
    pub nodes_open: u64,
    /// The number of finished pieces.
    pub done: u64,
    /// The number of pieces left open: these would need more budget.
    pub left_open: u64,
    /// The number of pieces; 0 if the tree has not been cut.
    pub pieces: u64,
    /// The number of partial plans looked at.
    pub looked: u64,
}

impl fmt::Display for Line {
    ghost output = { λ _. None };

    fn fmt<W: fmt::Write>(&self, f: &mut fmt::Formatter<W>) -> fmt::Result {
        if let Some(seconds) = self.seconds {
            write!(f, "{seconds} s, ")?;
        }
        write!(f, "{}", self.state)?;
        self.write_costs(f)?;
        self.write_labels(f)?;
        self.write_routes(f)?;
        self.write_nodes(f)?;
        self.write_pieces(f)
    }
}

/// The one message of a long run: its state, and which option ends it.
#[derive(Clone, Copy, Debug, PartialEq, Eq)]
pub struct LongRun(pub Line);

impl fmt::Display for LongRun {
    ghost output = { λ _. None };

    fn fmt<W: fmt::Write>(&self, f: &mut fmt::Formatter<W>) -> fmt::Result {
        write!(
            f,
            "cvrp: {}; --seconds N ends a run with the best that it has, --progress tells how it goes",
            self.0
        )
    }
}

impl Line {
    // The cost of the best plan, the lower bound, and the gap.
    fn write_costs<W: fmt::Write>(&self, f: &mut fmt::Formatter<W>) -> fmt::Result {
        if let Some(cost) = self.cost {
            write!(f, ", cost {cost}")?;
        }
        if let Some(bound) = self.bound {
            write!(f, ", lower bound {bound}")?;
        }
        if let (Some(cost), Some(bound)) = (self.cost, self.bound) {
            let gap = hundredths(cost, bound.rounded_up());
            write!(f, ", gap {}.{:02}%", gap / 100, gap % 100)?;
        }
        Ok(())
    }

    // The number of labels, while routes are listed, once there are any.
    fn write_labels<W: fmt::Write>(&self, f: &mut fmt::Formatter<W>) -> fmt::Result {
        if self.state != RunState::At(Stage::Columns) || self.labels == 0 {
            return Ok(());
        }
        write!(f, ", {} labels", self.labels)
    }

    // The number of useful routes, if they are listed.
    fn write_routes<W: fmt::Write>(&self, f: &mut fmt::Formatter<W>) -> fmt::Result {
        if self.routes == 0 {
            return Ok(());
        }
        write!(f, ", {} useful routes", self.routes)
    }

    // The numbers of nodes done and open, during the choice, once there are any.
    fn write_nodes<W: fmt::Write>(&self, f: &mut fmt::Formatter<W>) -> fmt::Result {
        if self.state != RunState::At(Stage::Choice)
            || self.nodes_done == 0 && self.nodes_open == 0
        {
            return Ok(());
        }
        write!(
            f,
            ", {} nodes done, {} open",
            self.nodes_done, self.nodes_open
        )
    }

    // The numbers of pieces done and left open, if there are any, and of partial plans looked at.
    fn write_pieces<W: fmt::Write>(&self, f: &mut fmt::Formatter<W>) -> fmt::Result {
        if self.pieces == 0 {
            return Ok(());
        }
        write!(
            f,
            ", {} of {} pieces done, {} left open, {} partial plans",
            self.done, self.pieces, self.left_open, self.looked
        )
    }
}

// Cost minus bound, in hundredths of a percent of the bound, rounded up: so it is 0 only if the two are equal.
fn hundredths(cost: u64, bound: u64) -> u64 {
    let above = u128::from(cost.saturating_sub(bound)) * 10_000;
    let hundredths = above.div_ceil(u128::from(bound.max(1)));
    u64::try_from(hundredths).unwrap_or(u64::MAX)
}
