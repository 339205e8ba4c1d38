//! Laws about the definitions.
ghost use Rattle.std.specs.Prelude.{ℕ, List};
ghost use Rattle.vrp_model.specs.Route.{PricedPlan};
ghost use Rattle.vrp_sharing.specs.Costs.{LeastIsThere, LeastNeverRises, NoneIsLess};
ghost use Rattle.vrp_sharing.specs.History.{KeepsJustOne};
ghost use Rattle.vrp_sharing.specs.declared.view.Offer.{Offer};

/// Exactly one of the plans in a list is kept, or none if the list is empty.
pub fn one_kept()
    ensures { (plans : List PricedPlan) → KeepsJustOne plans }
{}

/// The least of the opening cost and the costs of a history is one of them, and none of them is less.
pub fn least_is_least()
    ensures one { (opening : ℕ) (history : List Offer) → LeastIsThere opening history }
    ensures none_less { (opening : ℕ) (history : List Offer) → NoneIsLess opening history }
{}

/// The least cost does not rise as the history grows.
pub fn least_falls()
    ensures { (opening : ℕ) → LeastNeverRises opening }
{}
