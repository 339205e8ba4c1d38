//! Laws about the definitions: a relaxation bounds the cost of a plan, and prices and cut prices make one.
ghost use Rattle.std.specs.Prelude.{◌≡◌, ℕ, Bool, false, ◌+◌, ◌*◌, ◌≤◌, ◌<◌, ◌↔◌, List};
ghost use Rattle.std.specs.List.{filter, sum_by};
ghost use Rattle.vrp_model.specs.Problem.{IsProblem, IsSymmetric, Problem, customers, place_count};
ghost use Rattle.vrp_model.specs.Route.{load_of};
ghost use Rattle.vrp_model.specs.Word.{IsPrefix, IsLawfulWord, stands_in, word_cost};
ghost use Rattle.vrp_bound.specs.Capacity.{IsTrucks};
ghost use Rattle.vrp_bound.specs.NgWalks.{AreLeastNgTours};
ghost use Rattle.vrp_model.specs.Near.{NearOf};
ghost use Rattle.vrp_bound_prices.specs.CapacityCut.{CapacityCut, IsCut, crossings, cut_prices_along};
ghost use Rattle.vrp_bound_prices.specs.Priced.{HasPrices, IsPriced, charges_of, rewards_of};
ghost use Rattle.vrp_bound_prices.specs.Relaxation.{Bounds, IsRelaxation, RelaxationOf};
ghost use Rattle.vrp_bound_prices.specs.Units.{IsRounded};

/// A feasible word of the problem costs no less than the least ng-tours allow that carry all demands in the relaxation, for any
/// near customers.
pub fn tours_bound()
    ensures { (r : RelaxationOf) (near : NearOf) (word : List ℕ) (least : ℕ)
        → Bounds r → IsProblem r.relaxed → IsLawfulWord r.problem word
        → AreLeastNgTours r.relaxed near least
        → least + r.rewards ≤ r.scale * word_cost r.problem word + r.charges }
{}

/// A feasible word crosses the border of a cut at least twice for each truck that its customers' demand needs.
pub fn cuts_are_crossed()
    ensures { (p : Problem) (word : List ℕ) (cut : CapacityCut)
        → IsProblem p → IsLawfulWord p word → IsCut p cut
        → 2 * cut.trucks ≤ crossings cut.inside 0 word }
{}

/// A test that picks customers, like marks, makes a cut; a place is inside exactly if the test picks it.
pub fn cuts_by_test()
    ensures cuts { (p : Problem) (test : ℕ → Bool) (trucks cut_price : ℕ)
        → IsTrucks p.capacity (load_of p (filter test (customers p))) trucks
        → IsCut p (record { inside = filter test (customers p); trucks = trucks; cut_price = cut_price }) }
    ensures inside { (p : Problem) (test : ℕ → Bool) (place : ℕ)
        → test 0 ≡ false → place < place_count p
        → stands_in (filter test (customers p)) place ≡ test place }
{}

/// The cost of a feasible word with prices: `scale` times its cost, plus twice the price of each customer, minus twice its
/// rebate and the prices of the cuts that it crosses.
pub fn costs_with_prices()
    ensures { (p q : Problem) (scale : ℕ) (price rebate : ℕ → ℕ) (cuts : List CapacityCut) (word : List ℕ)
        → IsProblem p → HasPrices p q scale price rebate cuts → IsLawfulWord p word
        → word_cost q word + cut_prices_along cuts 0 word + 2 * sum_by rebate (customers p)
        ≡ scale * word_cost p word + 2 * sum_by price (customers p) }
{}

/// With demands and capacity counted in units, a feasible word stays feasible, and a partial plan stays a partial plan.
pub fn rounded_words()
    ensures words { (p q : Problem) (unit : ℕ) (word : List ℕ) → IsRounded p q unit
        → (IsSymmetric q → IsSymmetric p) → IsLawfulWord p word → IsLawfulWord q word }
    ensures prefixes { (p q : Problem) (unit : ℕ) (prefix : List ℕ) → IsRounded p q unit
        → (IsSymmetric q → IsSymmetric p) → IsPrefix p prefix → IsPrefix q prefix }
{}

/// With prices the problem is symmetric exactly if it is without.
pub fn same_symmetry()
    ensures { (p q : Problem) (scale : ℕ) (price rebate : ℕ → ℕ) (cuts : List CapacityCut)
        → place_count q ≡ place_count p → HasPrices p q scale price rebate cuts
        → (IsSymmetric p ↔ IsSymmetric q) }
{}

/// A problem with prices, and with demands in units, is a relaxation.
pub fn prices_relax()
    ensures { (p q : Problem) (unit scale : ℕ) (price rebate : ℕ → ℕ) (cuts : List CapacityCut)
        → IsProblem p → IsPriced p q unit scale price rebate cuts
        → IsRelaxation p q scale (charges_of p price) (rewards_of p rebate cuts) }
{}
