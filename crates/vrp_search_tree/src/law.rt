//! Laws of the definitions, which hold whatever the code does.
ghost use Rattle.std.specs.Prelude.{◌≡◌, ℕ, ◌<◌, ◌≤◌, Option, Some, List, [], length, slice_index_or};
ghost use Rattle.vrp_model.specs.Problem.{IsProblem, Problem, customers};
ghost use Rattle.vrp_model.specs.Word.{BeginsWith, IsPrefix, IsLawfulWord, unserved_in};
ghost use Rattle.vrp_search_tree.specs.Cutting.{IsCutting};
ghost use Rattle.vrp_search_tree.specs.Low.{IsLow};

use vrp_bound::fewer_customers;

/// A feasible word is under one piece of a cutting, and under no other.
pub fn one_piece()
    ensures { (p : Problem) (prefixes : List (List ℕ)) (word : List ℕ)
        → IsCutting p prefixes → IsLawfulWord p word
        → (k : ℕ) × (k < length prefixes) × BeginsWith word (slice_index_or prefixes k [])
        × ((j : ℕ) → j < length prefixes → BeginsWith word (slice_index_or prefixes j []) → j ≡ k) }
{}

/// The low of a partial plan, with tables over these customers, is one number, or there is none.
pub fn one_low()
    ensures { (p : Problem) (among prefix : List ℕ) (low other : Option ℕ)
        → IsProblem p → IsLow p among prefix low → IsLow p among prefix other → low ≡ other }
{}

/// The low of a partial plan is no lower with tables over its unserved customers alone than with tables over all customers.
pub fn own_low_no_lower()
    ensures { (p : Problem) (prefix : List ℕ) (low : ℕ) (own : Option ℕ)
        → IsProblem p → IsPrefix p prefix
        → IsLow p (customers p) prefix (Some low) → IsLow p (unserved_in p prefix) prefix own
        → (least : ℕ) × (own ≡ Some least) × (low ≤ least) }
{
    fewer_customers();
}
