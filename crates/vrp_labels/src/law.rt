//! Laws about the definitions: the routes of feasible plans are cheap, so their arcs stay alive; and routes read from their other ends.
ghost use Rattle.std.specs.Prelude.{◌≡◌, ◌≤◌, ℕ, ℤ, List, length, reverse};
ghost use Rattle.std.specs.List.{All};
ghost use Rattle.vrp_model.specs.Problem.{IsProblem, Problem, customers};
ghost use Rattle.vrp_model.specs.Route.{IsLawful, plan_cost};
ghost use Rattle.vrp_duals.specs.Duals.{AreDualsOf, DualsOf, Obeys};
ghost use Rattle.vrp_duals.specs.Folding.{AreFull, IsFolded, folded_cost};
ghost use Rattle.vrp_labels.specs.Fixing.{KeepsCheap, with_followers};
ghost use Rattle.vrp_labels.specs.Graph.{GraphOf};
ghost use Rattle.vrp_labels.specs.Plans.{IsAlike, IsGapFor};
ghost use Rattle.vrp_labels.specs.Reversal.{IsReversed};
ghost use Rattle.vrp_labels.specs.Route.{IsAliveRoute, IsCheap};
ghost use Rattle.vrp_labels.specs.Widening.{with_memories};

/// If the gap is wide enough, a feasible plan that obeys the entry rows, costs at most the limit, and goes along alive arcs within the
/// capacity in units, has cheap routes alone; with full counts too, where all rows are remembered everywhere.
pub fn plans_have_cheap_routes()
    ensures turns { (p : Problem) (d : DualsOf) (g : GraphOf) (routes : List (List ℕ)) (limit : ℕ) (gap : ℤ)
        → IsProblem p → AreDualsOf p d → IsFolded p d g.folded → IsGapFor d g (length (customers p)) limit gap
        → IsLawful p routes → All (Obeys routes) d.entries → plan_cost p routes ≤ limit → All (IsAliveRoute g) routes
        → All (IsCheap g gap) routes }
    ensures full { (p : Problem) (d : DualsOf) (g : GraphOf) (memories : List ℕ) (routes : List (List ℕ)) (limit : ℕ) (gap : ℤ)
        → IsProblem p → AreDualsOf p d → IsFolded p d g.folded → AreFull d memories → IsGapFor d g (length (customers p)) limit gap
        → IsLawful p routes → All (Obeys routes) d.entries → plan_cost p routes ≤ limit → All (IsAliveRoute g) routes
        → All (IsCheap (with_memories g memories) gap) routes }
{}

/// Passes by different dual prices chain: cheap routes go along alive arcs in the next graph, if that has the arcs that cheap routes use.
pub fn cheap_routes_stay_alive()
    ensures { (g next : GraphOf) (gap : ℤ) (followers : List ℕ) (routes : List (List ℕ))
        → KeepsCheap g gap followers → IsAlike (with_followers g followers) next
        → All (IsCheap g gap) routes → All (IsAliveRoute next) routes }
{}

/// Read from its other end, a route costs in the reversed graph what it costs in the graph, and goes along alive arcs there too: rows turn as
/// often from either end.
pub fn cheap_routes_reverse()
    ensures cost { (g reversed : GraphOf) (route : List ℕ) → IsReversed g reversed → 1 ≤ g.folded.places → IsAliveRoute g route
        → folded_cost reversed.folded (reverse route) ≡ folded_cost g.folded route }
    ensures alive { (g reversed : GraphOf) (route : List ℕ) → IsReversed g reversed → 1 ≤ g.folded.places → IsAliveRoute g route
        → IsAliveRoute reversed (reverse route) }
    ensures cheap { (g reversed : GraphOf) (gap : ℤ) (route : List ℕ) → IsReversed g reversed → 1 ≤ g.folded.places → IsCheap g gap route
        → IsCheap reversed gap (reverse route) }
{}
