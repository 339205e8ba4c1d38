//! Which plans are sought: those up to a cost, with so many routes.
ghost use Rattle.std.specs.Prelude.{◌≡◌, ◌≤◌, ℕ};
ghost use Rattle.std.specs.Option.{ForSome};
ghost use Rattle.vrp_routes.specs.Range.{HaveAll, IsPart, plans_within};

/// The plans that cost no more than a limit, and have at least and at most so many routes. A tree that branches on the number of routes
/// gives each of its leaves a range.
#[derive(Clone, Copy, Debug, PartialEq, Eq)]
pub struct PlanRange {
    /// What a plan costs at most.
    pub limit: u64,
    /// The least number of its routes.
    pub least_routes: u16,
    /// The greatest number of its routes, if there is one.
    pub most_routes: Option<u16>,
}

/// Two leaves of a tree: parts of a range, which together have all of its plans.
#[derive(Clone, Copy, Debug, PartialEq, Eq)]
pub struct Leaves {
    /// Those with few routes.
    pub few: PlanRange,
    /// Those with many routes.
    pub many: PlanRange,
}

impl PlanRange {
    /// All plans that cost no more than a limit.
    pub fn within(limit: u64) -> PlanRange
        ensures { result ≡ plans_within limit }
    {
        PlanRange {
            limit,
            least_routes: 0,
            most_routes: None,
        }
    }

    /// The plans of the range with at most so many routes, and those with more.
    pub fn split(self, fewer: u16) -> Leaves
        ensures few { IsPart result.few self }
        ensures many { IsPart result.many self }
        ensures all { HaveAll self result.few result.many }
        ensures few_limit { result.few.limit ≡ self.limit }
        ensures many_limit { result.many.limit ≡ self.limit }
    {
        Leaves {
            few: PlanRange {
                most_routes: Some(self.at_most(fewer)),
                ..self
            },
            many: PlanRange {
                least_routes: fewer.saturating_add(1).max(self.least_routes),
                ..self
            },
        }
    }

    // The lower one of this number and the greatest number of routes.
    fn at_most(self, fewer: u16) -> u16
        ensures fewer { result ≤ fewer }
        ensures part { ForSome self.most_routes (λ most. result ≤ most) }
        ensures both { (count : ℕ) → count ≤ fewer → ForSome self.most_routes (λ most. count ≤ most) → count ≤ result }
    {
        match self.most_routes {
            Some(most) => most.min(fewer),
            None => fewer,
        }
    }
}
