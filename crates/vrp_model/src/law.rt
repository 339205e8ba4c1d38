//! Laws about the definitions.
ghost use Rattle.std.specs.Prelude.{◌≡◌, ◌≢◌, ◌⊎◌, ◌↔◌, ℕ, ℤ, ◌+◌, ◌≤◌, ◌<◌, List, [], ◌∷◌, ◌++◌};
ghost use Rattle.std.specs.List.{All, Contains, sum_by};
ghost use Rattle.std.specs.List.Sorted.{IsPermutation, IsStrictlyIncreasing};
ghost use Rattle.vrp_model.specs.Distance.{IsDistance};
ghost use Rattle.vrp_model.specs.Cheapest.{NoneCheaper};
ghost use Rattle.vrp_model.specs.Order.{IsBefore, IsEarlier, IsCanonical};
ghost use Rattle.vrp_model.specs.Problem.{IsProblem, Problem};
ghost use Rattle.vrp_model.specs.Route.{AreTurned, IsLawful, PricedPlan, plan_cost};
ghost use Rattle.vrp_model.specs.Word.{AllRunForward, BeginsWith, HasNoCompletion, IsPrefix, IsLawfulWord, MakesChild, TreeHas, TreeHasAtLeast, first_stops, word_cost, word_of};
ghost use Rattle.vrp_model.specs.declared.limits.TheConstants.{NO_COST};
ghost use Rattle.vrp_model.specs.declared.metric.Metric.{Metric};

/// Two points have exactly one distance by a metric.
pub fn one_distance()
    ensures { (metric : Metric) (a b : ℤ × ℤ) (j k : ℕ)
        → IsDistance metric a b j → IsDistance metric a b k → j ≡ k }
{}

/// A feasible word is the word of a feasible plan of the same cost, whose routes rise by first customer and, in a symmetric
/// problem, run forward.
pub fn words_are_plans()
    ensures { (p : Problem) (word : List ℕ) → IsLawfulWord p word
        → (routes : List (List ℕ)) × (word ≡ word_of routes) × IsLawful p routes
        × IsStrictlyIncreasing (first_stops routes) × AllRunForward p routes
        × (plan_cost p routes ≡ word_cost p word) }
{}

/// If the routes of a feasible plan rise by first customer and, in a symmetric problem, run forward, its word is a feasible
/// word of the same cost.
pub fn plans_are_words()
    ensures { (p : Problem) (routes : List (List ℕ))
        → IsLawful p routes → IsStrictlyIncreasing (first_stops routes) → AllRunForward p routes
        → IsLawfulWord p (word_of routes) × (word_cost p (word_of routes) ≡ plan_cost p routes) }
{}

/// Sorting the routes of a feasible plan by their first customers gives a feasible plan of the same cost.
pub fn plans_can_rise()
    ensures { (p : Problem) (routes : List (List ℕ)) → IsLawful p routes
        → (others : List (List ℕ)) × IsPermutation routes others × IsLawful p others
        × IsStrictlyIncreasing (first_stops others) × (plan_cost p others ≡ plan_cost p routes) }
{}

/// In a symmetric problem the routes of a feasible plan can be reversed so that they run forward; that gives a feasible plan
/// of the same cost.
pub fn plans_can_turn()
    ensures { (p : Problem) (routes : List (List ℕ)) → IsLawful p routes
        → (others : List (List ℕ)) × AreTurned routes others × IsLawful p others
        × AllRunForward p others × (plan_cost p others ≡ plan_cost p routes) }
{}

/// Every feasible plan has a feasible word of the same cost that is no later than its own word.
pub fn plans_have_words()
    ensures { (p : Problem) (routes : List (List ℕ)) → IsLawful p routes
        → (word : List ℕ) × IsLawfulWord p word × (word_cost p word ≡ plan_cost p routes)
        × (IsEarlier (word_of routes) word → ⊥) }
{}

/// Every feasible plan costs less than `NO_COST`.
pub fn plans_cost_less()
    ensures { (p : Problem) (routes : List (List ℕ))
        → IsProblem p → IsLawful p routes → plan_cost p routes < NO_COST }
{}

/// A symbol makes a child of a partial plan in exactly three cases.
pub fn child_cases()
    ensures { (p : Problem) (prefix : List ℕ) (k : ℕ)
        → IsProblem p → IsPrefix p prefix → (IsPrefix p (prefix ++ k ∷ []) ↔ MakesChild p prefix k) }
{}

/// A feasible word that continues a partial plan is under exactly one of its children.
pub fn one_child()
    ensures { (p : Problem) (prefix word : List ℕ)
        → IsPrefix p prefix → IsLawfulWord p word → BeginsWith word prefix → word ≢ prefix
        → (k : ℕ) × IsPrefix p (prefix ++ k ∷ []) × BeginsWith word (prefix ++ k ∷ [])
        × ((j : ℕ) → BeginsWith word (prefix ++ j ∷ []) → j ≡ k) }
{}

/// The tree of a partial plan is the partial plan itself and the trees of its children, so its size can be counted by hand.
/// `symbols` are those of the children, and each child's tree has its size.
pub fn trees_of_children()
    ensures { (p : Problem) (prefix symbols : List ℕ) (size : ℕ → ℕ)
        → IsPrefix p prefix → IsStrictlyIncreasing symbols
        → ((k : ℕ) → Contains symbols k ↔ IsPrefix p (prefix ++ k ∷ []))
        → All (λ k. TreeHas p (prefix ++ k ∷ []) (size k)) symbols
        → TreeHas p prefix (1 + sum_by size symbols) }
{}

/// A tree has at least this many partial plans exactly if the number is at most its size.
pub fn tree_sizes()
    ensures { (p : Problem) (prefix : List ℕ) (size n : ℕ)
        → TreeHas p prefix size → (TreeHasAtLeast p prefix n ↔ (n ≤ size)) }
{}

/// The tree of a partial plan is no smaller than that of a longer one.
pub fn longer_trees()
    ensures { (p : Problem) (prefix longer : List ℕ) (n : ℕ)
        → BeginsWith longer prefix → TreeHasAtLeast p longer n → TreeHasAtLeast p prefix n }
{}

/// No feasible word begins with a partial plan without completion.
pub fn prefixes_without_completion()
    ensures { (p : Problem) (prefix word : List ℕ)
        → IsProblem p → HasNoCompletion p prefix → IsLawfulWord p word → BeginsWith word prefix → ⊥ }
{}

/// Of two plans one is before the other, or they have the same cost and the same word.
pub fn order_is_total()
    ensures { (plan other : PricedPlan) → IsBefore plan other
        ⊎ ((plan.cost ≡ other.cost) × (word_of plan.routes ≡ word_of other.routes))
        ⊎ IsBefore other plan }
{}

/// No plan is before itself, and the order is transitive.
pub fn order_is_strict()
    ensures irreflexive { (plan : PricedPlan) → IsBefore plan plan → ⊥ }
    ensures transitive { (plan other third : PricedPlan)
        → IsBefore plan other → IsBefore other third → IsBefore plan third }
{}

/// Feasible plans with the same word have the same routes.
pub fn equal_words_equal_plans()
    ensures { (p : Problem) (routes others : List (List ℕ))
        → IsLawful p routes → IsLawful p others → word_of routes ≡ word_of others
        → routes ≡ others }
{}

/// A problem has at most one canonical plan.
pub fn one_canonical()
    ensures { (p : Problem) (plan other : PricedPlan)
        → IsCanonical p plan → IsCanonical p other → plan ≡ other }
{}

/// No feasible plan costs less than the canonical one.
pub fn canonical_is_cheapest()
    ensures { (p : Problem) (plan : PricedPlan) → IsCanonical p plan → NoneCheaper p plan.cost }
{}

/// A problem that has a feasible plan has a canonical one.
pub fn some_canonical()
    ensures { (p : Problem) (routes : List (List ℕ))
        → IsProblem p → IsLawful p routes → (plan : PricedPlan) × IsCanonical p plan }
{}
