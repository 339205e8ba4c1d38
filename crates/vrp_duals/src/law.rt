//! Laws about the definitions: dual prices bound the cost of a plan, and folded prices are the reduced costs of routes.
ghost use Rattle.std.specs.Prelude.{◌≡◌, ◌≤◌, ◌<◌, ◌≤ℤ◌, ◌+ℤ◌, ◌+◌, ◌*◌, ◌-◌, pos, ℕ, ℤ, Option, List, length, reverse};
ghost use Rattle.std.specs.Option.{ForSome};
ghost use Rattle.std.specs.List.{All, Contains};
ghost use Rattle.vrp_model.specs.Problem.{IsProblem, Problem, customers, place_count};
ghost use Rattle.vrp_model.specs.Route.{IsLawful, plan_cost};
ghost use Rattle.vrp_duals.specs.Duals.{AreDualsOf, DualsOf, IsNeeded, IsNeededFor, Obeys, int_sum_by, low_of, reduced, reduced_full, turns_of};
ghost use Rattle.vrp_duals.specs.Folding.{AreFull, FoldedOf, IsFolded, folded_cost, remembering};
ghost use Rattle.vrp_duals.specs.declared.rows.EntryRow.{EntryRow};
ghost use Rattle.vrp_duals.specs.declared.rows.SubsetRow.{SubsetRow};

/// A feasible plan that obeys the entry rows costs at least the lower bound and the reduced costs of its routes, whether these count turns
/// or pairs: it serves each customer once, so each price counts once, it enters each set as often as its row says, and each pair takes two
/// of a row's customers.
pub fn prices_bound_plans()
    ensures turns { (p : Problem) (d : DualsOf) (routes : List (List ℕ))
        → AreDualsOf p d → IsLawful p routes → All (Obeys routes) d.entries
        → (low_of d +ℤ int_sum_by (reduced p d) routes) ≤ℤ pos (d.scale * plan_cost p routes) }
    ensures full { (p : Problem) (d : DualsOf) (routes : List (List ℕ))
        → AreDualsOf p d → IsLawful p routes → All (Obeys routes) d.entries
        → (low_of d +ℤ int_sum_by (reduced_full p d) routes) ≤ℤ pos (d.scale * plan_cost p routes) }
{}

/// Every feasible plan obeys an entry row that is needed: a truck enters a set to serve any of its demand, and the set of all customers
/// once.
pub fn needed_rows_are_obeyed()
    ensures { (p : Problem) (row : EntryRow) (routes : List (List ℕ))
        → IsNeeded p row → IsLawful p routes → Obeys routes row }
{}

/// A feasible plan with at least and at most so many routes obeys an entry row that is needed for these: each of its routes enters the set
/// of all customers once.
pub fn rows_of_a_range_are_obeyed()
    ensures { (p : Problem) (least : ℕ) (most : Option ℕ) (row : EntryRow) (routes : List (List ℕ))
        → IsNeededFor p least most row → IsLawful p routes → least ≤ length routes → ForSome most (λ count. length routes ≤ count)
        → Obeys routes row }
{}

/// If no reduced cost of a plan's routes is below -`depth`, and the plan costs at most `limit`, the lower bound and the reduced cost of one
/// route are at most the limit in price units, and the depth once for each other route that there may be.
pub fn costly_routes_left_out()
    ensures turns { (p : Problem) (d : DualsOf) (routes : List (List ℕ)) (route : List ℕ) (limit depth : ℕ)
        → AreDualsOf p d → IsLawful p routes → All (Obeys routes) d.entries
        → plan_cost p routes ≤ limit
        → All (λ other. pos 0 ≤ℤ (reduced p d other +ℤ pos depth)) routes
        → Contains routes route
        → (low_of d +ℤ reduced p d route) ≤ℤ pos (d.scale * limit + (length (customers p) - 1) * depth) }
    ensures full { (p : Problem) (d : DualsOf) (routes : List (List ℕ)) (route : List ℕ) (limit depth : ℕ)
        → AreDualsOf p d → IsLawful p routes → All (Obeys routes) d.entries
        → plan_cost p routes ≤ limit
        → All (λ other. pos 0 ≤ℤ (reduced_full p d other +ℤ pos depth)) routes
        → Contains routes route
        → (low_of d +ℤ reduced_full p d route) ≤ℤ pos (d.scale * limit + (length (customers p) - 1) * depth) }
{}

/// If no reduced cost of a plan's routes is below -`depth`, the plan costs at least the lower bound, less the depth once for each route
/// that there may be.
pub fn plans_cost_at_least()
    ensures turns { (p : Problem) (d : DualsOf) (routes : List (List ℕ)) (depth : ℕ)
        → AreDualsOf p d → IsLawful p routes → All (Obeys routes) d.entries
        → All (λ other. pos 0 ≤ℤ (reduced p d other +ℤ pos depth)) routes
        → low_of d ≤ℤ pos (d.scale * plan_cost p routes + length (customers p) * depth) }
    ensures full { (p : Problem) (d : DualsOf) (routes : List (List ℕ)) (depth : ℕ)
        → AreDualsOf p d → IsLawful p routes → All (Obeys routes) d.entries
        → All (λ other. pos 0 ≤ℤ (reduced_full p d other +ℤ pos depth)) routes
        → low_of d ≤ℤ pos (d.scale * plan_cost p routes + length (customers p) * depth) }
{}

/// With full counts no route costs less.
pub fn full_counts_cost_no_less()
    ensures { (p : Problem) (d : DualsOf) (route : List ℕ)
        → AreDualsOf p d → reduced p d route ≤ℤ reduced_full p d route }
{}

/// A route costs in the folded prices what its reduced cost is.
pub fn folding_keeps_costs()
    ensures { (p : Problem) (d : DualsOf) (f : FoldedOf) (route : List ℕ)
        → IsProblem p → AreDualsOf p d → IsFolded p d f → All (λ stop. stop < place_count p) route
        → folded_cost f route ≡ reduced p d route }
{}

/// Where each row is remembered everywhere, it costs what its reduced cost with full counts is.
pub fn full_memories_count_pairs()
    ensures { (p : Problem) (d : DualsOf) (f : FoldedOf) (memories route : List ℕ)
        → IsProblem p → AreDualsOf p d → IsFolded p d f → AreFull d memories → All (λ stop. stop < place_count p) route
        → folded_cost (remembering f memories) route ≡ reduced_full p d route }
{}

/// A row turns as often if a route is read from its other end.
pub fn rows_read_either_way()
    ensures { (row : SubsetRow) (route : List ℕ) → turns_of row (reverse route) ≡ turns_of row route }
{}
