//! Laws of the definitions, which hold whatever the code does.
ghost use Rattle.std.specs.Prelude.{◌≡◌, ◌≢◌, ◌+◌, ◌≤◌, ◌<◌, ℕ, List, [], ◌∷◌, ◌++◌, length};
ghost use Rattle.std.specs.List.{All, Contains};
ghost use Rattle.vrp_partition.specs.Choice.{IsCheapest};
ghost use Rattle.vrp_canonical.specs.Reaching.{AreUnserved, Continues, IsPoolOf, IsRoute, Reaches};
ghost use Rattle.vrp_model.specs.Fleet.{IsFleet};
ghost use Rattle.vrp_model.specs.Order.{IsEarlier, IsCanonical};
ghost use Rattle.vrp_model.specs.Problem.{IsProblem, Problem, customers};
ghost use Rattle.vrp_model.specs.Route.{IsLawful, PricedPlan, plan_cost};
ghost use Rattle.vrp_partition.specs.declared.route.Route.{Route};
ghost use Rattle.vrp_model.specs.CustomerSet.{set_of};

/// A choice of the pool for the unserved customers, together with the routes chosen before, makes a feasible plan of at most this cost,
/// if the fleet has the trucks for both.
pub fn choices_are_plans()
    ensures { (p : Problem) (limit : ℕ) (stops : List (List ℕ)) (pool : List Route) (trucks : ℕ) (chosen : List (List ℕ))
        (unserved left allowance most : ℕ)
        → IsPoolOf p limit stops pool → IsFleet p trucks → All (IsRoute p) chosen → AreUnserved p chosen unserved
        → length chosen + left ≤ trucks → plan_cost p chosen + allowance ≤ most
        → Reaches pool unserved left allowance → Continues p most chosen }
{}

/// A feasible plan whose other routes are in the pool is a choice of it.
pub fn plans_are_choices()
    ensures { (p : Problem) (limit : ℕ) (stops : List (List ℕ)) (pool : List Route) (trucks : ℕ) (chosen others : List (List ℕ))
        (unserved left allowance most : ℕ)
        → IsPoolOf p limit stops pool → IsFleet p trucks → All (IsRoute p) chosen → AreUnserved p chosen unserved
        → trucks ≤ length chosen + left → most ≤ plan_cost p chosen + allowance
        → IsLawful p (chosen ++ others) → All (Contains stops) others → plan_cost p (chosen ++ others) ≤ most
        → Reaches pool unserved left allowance }
{}

/// The canonical plan begins with some routes, and its others are among a route and later ones. If a plan that costs no more continues
/// with this route, so does the canonical one.
pub fn next_route()
    ensures { (p : Problem) (plan : PricedPlan) (chosen rest later : List (List ℕ)) (route : List ℕ)
        → IsCanonical p plan → plan.routes ≡ chosen ++ rest
        → All (Contains (route ∷ later)) rest → All (IsEarlier route) later → All (IsRoute p) (route ∷ later)
        → Continues p plan.cost (chosen ++ route ∷ [])
        → (others : List (List ℕ)) × (rest ≡ route ∷ others) × All (Contains later) others }
{}

/// The next route of the canonical plan is the earliest route of the pool with which a plan that costs no more continues. Whether the
/// others begin above its first customer need not be asked.
pub fn earliest_is_next()
    ensures { (p : Problem) (plan : PricedPlan) (stops chosen rest : List (List ℕ)) (route : List ℕ)
        → IsCanonical p plan → plan.routes ≡ chosen ++ rest → All (Contains stops) rest → All (IsRoute p) stops → route ≢ []
        → Continues p plan.cost (chosen ++ route ∷ [])
        → ((other : List ℕ) → Contains stops other → IsEarlier other route → Continues p plan.cost (chosen ++ other ∷ []) → ⊥)
        → (others : List (List ℕ)) × (rest ≡ route ∷ others) }
{}

/// The least cost of a choice is the cost of the canonical plan, if that is within the limit.
pub fn least_is_canonical()
    ensures { (p : Problem) (limit : ℕ) (stops : List (List ℕ)) (pool : List Route) (trucks least : ℕ)
        → IsProblem p → IsPoolOf p limit stops pool → IsFleet p trucks → least ≤ limit
        → Reaches pool (set_of (customers p)) trucks least
        → ((cost : ℕ) → Reaches pool (set_of (customers p)) trucks cost → least ≤ cost)
        → (plan : PricedPlan) × IsCanonical p plan × (plan.cost ≡ least) }
{}

/// The cost of the cheapest choice below an incumbent is the cost of the canonical plan, if that is within the limit.
pub fn cheapest_is_canonical()
    ensures { (p : Problem) (limit : ℕ) (stops : List (List ℕ)) (pool routes : List Route) (trucks incumbent found : ℕ)
        → IsProblem p → IsPoolOf p limit stops pool → IsFleet p trucks → found ≤ limit
        → IsCheapest pool (set_of (customers p)) trucks 0 incumbent found routes → found < incumbent
        → (plan : PricedPlan) × IsCanonical p plan × (plan.cost ≡ found) }
{}

/// If no choice is below the incumbent, no feasible plan within the limit is.
pub fn none_is_cheap()
    ensures { (p : Problem) (limit : ℕ) (stops : List (List ℕ)) (pool routes : List Route)
        (trucks incumbent : ℕ) (others : List (List ℕ))
        → IsProblem p → IsPoolOf p limit stops pool → IsFleet p trucks
        → IsCheapest pool (set_of (customers p)) trucks 0 incumbent incumbent routes
        → IsLawful p others → plan_cost p others ≤ limit → incumbent ≤ plan_cost p others }
{}

/// The cheapest choice below an incumbent answers what is asked of a pool.
pub fn cheapest_answers()
    ensures yes { (pool routes : List Route) (unserved trucks incumbent found most : ℕ)
        → IsCheapest pool unserved trucks 0 incumbent found routes → incumbent ≤ most + 1 → found < incumbent
        → Reaches pool unserved trucks most }
    ensures no { (pool routes : List Route) (unserved trucks incumbent found most : ℕ)
        → IsCheapest pool unserved trucks 0 incumbent found routes → most + 1 ≤ incumbent → incumbent ≤ found
        → Reaches pool unserved trucks most → ⊥ }
{}
