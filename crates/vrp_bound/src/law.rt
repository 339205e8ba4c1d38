//! Laws about the definitions: the bounds are bounds.
ghost use Rattle.std.specs.Prelude.{◌≡◌, ℕ, ◌+◌, ◌≤◌, Option, MatchOption, List, ◌++◌};
ghost use Rattle.std.specs.List.{All, Contains};
ghost use Rattle.vrp_model.specs.Problem.{IsProblem, Problem, customers};
ghost use Rattle.vrp_model.specs.Word.{IsPrefix, IsLawfulWord, unserved_in, word_cost};
ghost use Rattle.vrp_bound.specs.AtPrefix.{CanCarryAt, Completes, CompletesByNgWalks, IsBoundAt, IsCapacityBoundAt, IsLowerBoundAt, completed_cost};
ghost use Rattle.vrp_bound.specs.Capacity.{IsInboundSumOf};
ghost use Rattle.vrp_bound.specs.NgWalks.{IsNgRelaxed, IsNgWalk, nothing_near};
ghost use Rattle.vrp_bound.specs.Walk.{IsRelaxed, IsWalk};

/// The part of a feasible word behind a partial plan is a relaxed completion of that plan, of the same cost, over any
/// customers that include all its unserved ones.
pub fn relaxed_completions()
    ensures { (p : Problem) (prefix more among : List ℕ)
        → IsProblem p → IsLawfulWord p (prefix ++ more) → All (Contains among) (unserved_in p prefix)
        → (home : List ℕ) × (tours : List (List ℕ)) × Completes p among prefix home tours
        × (completed_cost p prefix home tours ≡ word_cost p (prefix ++ more)) }
{}

/// The part of a feasible word behind a partial plan is a completion by ng-walks too, for any lists of near customers.
pub fn ng_completions()
    ensures { (p : Problem) (near : ℕ → List ℕ) (prefix more among : List ℕ)
        → IsProblem p → IsLawfulWord p (prefix ++ more) → All (Contains among) (unserved_in p prefix)
        → (home : List ℕ) × (tours : List (List ℕ))
        × CompletesByNgWalks p near among prefix home tours
        × (completed_cost p prefix home tours ≡ word_cost p (prefix ++ more)) }
{}

/// An ng-walk is a walk, so a completion by ng-walks is a completion by walks, and its bound is no lower. If no customer is
/// near any place, the two are the same.
pub fn ng_is_tighter()
    ensures walks { (p : Problem) (near : ℕ → List ℕ) (among : List ℕ) (at : ℕ) (stops : List ℕ)
        → IsNgWalk p near among at stops → IsWalk p among at stops }
    ensures relaxed { (p : Problem) (near : ℕ → List ℕ) (among : List ℕ) (at load rest : ℕ)
        → (home : List ℕ) (tours : List (List ℕ))
        → IsNgRelaxed p near among at load rest home tours
        → IsRelaxed p among at load rest home tours }
    ensures same { (p : Problem) (among : List ℕ) (at : ℕ) (stops : List ℕ)
        → IsWalk p among at stops → IsNgWalk p nothing_near among at stops }
{}

/// No feasible word that begins with a partial plan adds less to it than the lower bound; if the bound is `None`, there is no
/// such word.
pub fn bounds_hold()
    ensures { (p : Problem) (prefix more among : List ℕ) (inbound_sum : ℕ) (answer : Option ℕ)
        → IsProblem p → IsLawfulWord p (prefix ++ more) → All (Contains among) (unserved_in p prefix)
        → IsInboundSumOf p prefix inbound_sum → IsLowerBoundAt p among prefix inbound_sum answer
        → MatchOption answer ⊥ (λ least. word_cost p prefix + least ≤ word_cost p (prefix ++ more)) }
{}

/// No feasible word that begins with a partial plan adds less to it than the capacity bound.
pub fn capacity_bounds()
    ensures { (p : Problem) (prefix more : List ℕ) (inbound_sum bound : ℕ)
        → IsProblem p → IsLawfulWord p (prefix ++ more)
        → IsInboundSumOf p prefix inbound_sum → IsCapacityBoundAt p prefix inbound_sum bound
        → word_cost p prefix + bound ≤ word_cost p (prefix ++ more) }
{}

/// If a feasible word begins with a partial plan, the trucks that are left there can carry the rest.
pub fn trucks_left_carry()
    ensures { (p : Problem) (prefix more : List ℕ) → IsProblem p → IsLawfulWord p (prefix ++ more)
        → CanCarryAt p prefix }
{}

/// Tables over the unserved customers of a partial plan bound no lower there than tables over all customers.
pub fn fewer_customers()
    ensures { (p : Problem) (prefix : List ℕ) (least : ℕ) (own : Option ℕ)
        → IsProblem p → IsPrefix p prefix
        → IsBoundAt p (customers p) prefix (Some least) → IsBoundAt p (unserved_in p prefix) prefix own
        → (more : ℕ) × (own ≡ Some more) × (least ≤ more) }
{}
