//! Laws about the definitions: a route is an ng-walk for any near customers.
ghost use Rattle.std.specs.Prelude.{◌≡◌, ◌≢◌, ◌∷◌, ℕ, List};
ghost use Rattle.std.specs.List.{All, AllPairs};
ghost use Rattle.vrp_model.specs.NgSets.{ng_set_before, ng_set_of, ng_set_or_masks};
ghost use Rattle.vrp_model.specs.NgWalks.{NoneRemembered};

/// If the stops are distinct, and none of them is the walk's starting place, the walk returns to no remembered customer.
pub fn comes_back_to_none()
    ensures { (near : ℕ → List ℕ) (at : ℕ) (stops : List ℕ)
        → AllPairs (λ a b. a ≢ b) stops → All (λ stop. stop ≢ at) stops
        → NoneRemembered near at stops }
{}

/// From the ng-set of a walk at its first stop follows the ng-set at the place before that stop, or `masks` if the walk
/// remembers the place itself.
pub fn ng_set_continues()
    ensures { (near : ℕ → List ℕ) (masks at stop : ℕ) (stops : List ℕ)
        → ng_set_before (near at) (near stop) masks at stop (ng_set_of near stop stops)
        ≡ ng_set_or_masks near masks at (stop ∷ stops) }
{}
