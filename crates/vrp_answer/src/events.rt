//! The stages of a run, and what its gate hears of them.
ghost use Rattle.std.specs.Prelude.{None};

use std::fmt;
use vrp_bound::LowerBound;

/// The stages of a run, in their order. A run may leave stages out.
#[derive(Clone, Copy, Debug, PartialEq, Eq)]
pub enum Stage {
    /// A look at the whole tree, before anything else.
    FirstLook,
    /// The search for a start plan.
    StartPlan,
    /// Column generation: dual prices of routes, and the list of the useful routes that they leave.
    Columns,
    /// The choice among the useful routes.
    Choice,
    /// The search for prices by ascent, for a lower bound.
    Prices,
    /// The search for better plans, as long as there is time.
    BetterPlans,
    /// The search of the pieces.
    Pieces,
}

impl Stage {
    /// All stages: each stands at its own number.
    pub const ALL: [Stage; 7] = [
        Stage::FirstLook,
        Stage::StartPlan,
        Stage::Columns,
        Stage::Choice,
        Stage::Prices,
        Stage::BetterPlans,
        Stage::Pieces,
    ];
}

impl fmt::Display for Stage {
    // No clause covers the text.
    ghost output = { λ _. None };

    fn fmt<W: fmt::Write>(&self, f: &mut fmt::Formatter<W>) -> fmt::Result {
        f.write_str(match self {
            Stage::FirstLook => "first look",
            Stage::StartPlan => "first plan",
            Stage::Columns => "columns",
            Stage::Choice => "choice",
            Stage::Prices => "prices",
            Stage::BetterPlans => "better plans",
            Stage::Pieces => "search",
        })
    }
}

/// An event of a search.
#[derive(Clone, Copy, Debug, PartialEq, Eq)]
pub enum Event {
    /// A stage begins. The first look is not told: a run begins with it.
    Begins(Stage),
    /// No plan costs less than this.
    Bound(LowerBound),
    /// This many labels were made so far.
    Labels(u64),
    /// This many useful routes were listed.
    UsefulRoutes(u64),
    /// This many nodes of the choice are done, and this many are open.
    Nodes { done: u64, open: u64 },
    /// There are this many pieces to search.
    PieceCount(u32),
    /// This many more partial plans were looked at.
    Looked(u64),
    /// A plan of this cost is known.
    Plan(u64),
    /// A run for better plans found routes of this cost: their plan follows when the run ends.
    Cheaper(u64),
    /// One more piece is finished.
    Done,
    /// One more piece is left open: its budget is spent, or the gate stopped it.
    LeftOpen,
}
