//! Laws of the definitions, which hold whatever the code does: what prices say of choices, and how choices branch.
ghost use Rattle.std.specs.Prelude.{◌≡◌, ◌⊎◌, ◌<ℤ◌, ◌≤◌, ◌≤ℤ◌, ◌*◌, ◌+ℤ◌, pos, ℕ, List};
ghost use Rattle.std.specs.List.{filter};
ghost use Rattle.vrp_partition.specs.Choice.{IsChoice, NoneWithin, cost_of, is_apart, is_together, routes_to, set_of};
ghost use Rattle.vrp_partition.specs.Prices.{NoneNegative, AllFit, AreValid, IsNeeded, IsVisited, Prices, gap_of, is_within_gap, lower_bound_of, reduced_cost_of, total};
ghost use Rattle.vrp_partition.specs.declared.prices.Cut.{Cut};
ghost use Rattle.vrp_partition.specs.declared.route.Route.{Route};

/// The law of prices: a choice costs at least the lower bound plus the reduced costs of its routes. The reasons: a choice serves each
/// customer once, so each dual counts once; at most one of its routes has two or more of three given customers (subset-row cuts); at
/// least as many routes as needed come to a set of customers (strong capacity cuts); and there are no more routes than trucks.
pub fn prices_bound_choices()
    ensures { (prices : Prices) (scale customers trucks fewest : ℕ) (pool routes : List Route)
        → AreValid prices pool customers fewest
        → IsChoice set_of pool customers trucks routes
        → fewest ≤ routes_to customers routes
        → (lower_bound_of prices customers trucks +ℤ total (reduced_cost_of prices scale) routes)
        ≤ℤ pos (scale * cost_of routes) }
{}

/// If one truck fewer couldn't carry the demand of a set, each choice has at least as many routes that come to the set as the cut says.
pub fn demand_brings_routes()
    ensures { (demands : List ℕ) (capacity customers fewest : ℕ) (pool : List Route) (cut : Cut)
        → AllFit demands capacity pool
        → IsNeeded demands capacity customers cut
        → IsVisited pool customers fewest cut }
{}

/// If no reduced cost is negative, a choice within a limit has no route whose reduced cost is above the gap: all its routes are kept.
pub fn costly_routes_left_out()
    ensures { (prices : Prices) (scale customers trucks fewest limit : ℕ) (pool routes : List Route)
        → AreValid prices pool customers fewest → NoneNegative prices scale pool
        → IsChoice set_of pool customers trucks routes → fewest ≤ routes_to customers routes → cost_of routes ≤ limit
        → IsChoice set_of
        (filter (is_within_gap prices scale (gap_of prices scale customers trucks limit)) pool)
        customers trucks routes }
{}

/// If no reduced cost is negative and the lower bound is above a limit, no choice is within the limit.
pub fn no_choice_in_a_negative_gap()
    ensures { (prices : Prices) (scale customers trucks fewest limit : ℕ) (pool : List Route)
        → AreValid prices pool customers fewest → NoneNegative prices scale pool
        → gap_of prices scale customers trucks limit <ℤ pos 0
        → NoneWithin pool customers trucks fewest limit }
{}

/// A choice has a group of customers together in one route, or it has no route with all of them. In the first case no other route has any
/// of them. (For a pair this is the branching of Ryan and Foster, 1981.)
pub fn choices_branch()
    ensures { (group customers trucks : ℕ) (pool routes : List Route)
        → IsChoice set_of pool customers trucks routes
        → IsChoice set_of (filter (is_together group) pool) customers trucks routes
        ⊎ IsChoice set_of (filter (is_apart group) pool) customers trucks routes }
{}
