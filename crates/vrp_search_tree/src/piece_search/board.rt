//! The trait of the incumbent's keeper, as a search uses it.
ghost use Rattle.std.specs.Prelude.{◌≡◌, ℕ, ◌≤◌, Bool, false, IsTrue, OnOk};
ghost use Rattle.vrp_model.specs.Problem.{Problem};
ghost use Rattle.vrp_model.specs.Route.{IsPlanOf};

use std::alloc::Global;
use vrp_model::{NoMemory, Plan};

/// How many partial plans a search looks at between two questions to its board whether to continue.
pub const LOOKS_BEFORE_ASKING: u64 = 65_536;

/// Receives plans of one problem, and answers the greatest cost at which a plan is still of use. A board's type says which
/// problems it serves; its floor, a number above which no plan is searched; what every call preserves; and whether it may
/// stop a search.
pub trait Board {
    ghost serves: { Self → Problem → Type 0 };

    ghost floor: { Self → ℕ };

    // Relates an earlier state of a board to a later one.
    ghost keeps: { Self → Self → Type 0 };

    ghost may_stop: { Self → Bool } = { λ _. false };

    /// A cost that is at least the floor.
    fn least(&mut self) -> u64
        ensures serves { (p : Problem) → serves self.old p → serves self.new p }
        ensures keeps { (earlier : Self) → keeps earlier self.old → keeps earlier self.new }
        ensures falls { floor self.new ≤ floor self.old }
        ensures answered { floor self.new ≤ result };

    /// Records a feasible plan. If memory is refused, the floor has not risen.
    fn offer(&mut self, alloc: Global, plan: &Plan) -> Result<(), NoMemory>
        requires { (p : Problem) × serves self.old p × IsPlanOf p plan.now }
        ensures serves { (p : Problem) →
            serves self.old p → IsPlanOf p plan.now → serves self.new p }
        ensures keeps { (earlier : Self) → keeps earlier self.old → keeps earlier self.new }
        ensures falls { floor self.new ≤ floor self.old }
        ensures taken { OnOk result (floor self.new ≤ plan.now.cost) };

    /// Whether a search that has looked at another `LOOKS_BEFORE_ASKING` partial plans continues. If not, it is left
    /// unfinished.
    fn should_continue(&self) -> bool
        ensures { result ≡ false → IsTrue (may_stop self.now) }
    {
        true
    }
}
