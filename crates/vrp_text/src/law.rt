//! Laws about CVRP files.
ghost use Rattle.std.specs.Prelude.{ℕ, Option, List};
ghost use Rattle.vrp_text.specs.OneMeaning.{AtMostOneProblem, AtMostOneRefusal, NotBoth, ProblemOrRefusal};

use vrp_model::one_distance;

/// With a node chosen as its depot, or none, a file means at most one problem or one refusal, and not both.
pub fn one_meaning()
    ensures problem { (bytes : List ℕ) (chosen : Option ℕ) → AtMostOneProblem bytes chosen }
    ensures refusal { (bytes : List ℕ) (chosen : Option ℕ) → AtMostOneRefusal bytes chosen }
    ensures either { (bytes : List ℕ) (chosen : Option ℕ) → NotBoth bytes chosen }
{
    // Two points have one distance.
    one_distance();
}

/// With a node chosen as its depot, or none, every file means a problem or a refusal, whatever its bytes are.
pub fn some_meaning()
    ensures { (bytes : List ℕ) (chosen : Option ℕ) → ProblemOrRefusal bytes chosen }
{}
