//! Pruning: whether a plan under a partial plan, or under its child, may be of use.
ghost use Rattle.std.specs.Prelude.{◌≡◌, ◌↔◌, [], ◌∷◌, ◌++◌, IsTrue, MatchOption, is_some};
ghost use Rattle.vrp_model.specs.Problem.{IsProblem};
ghost use Rattle.vrp_model.specs.Word.{HasNoCompletion, IsPrefix};
ghost use Rattle.vrp_search_tree.specs.Low.{AreCovered, IsLow};
ghost use Rattle.vrp_search_tree.specs.Pruned.{IsPromising, MayBeOfUse, NoneOfUse, with_symbol};
ghost use Rattle.vrp_search_tree.specs.Tally.{IsTally};

use crate::partial::Partial;
use crate::tally::Tally;
use vrp_bound::{Tables, bounds_hold};
use vrp_model::prefixes_without_completion;

impl<'a> Partial<'a> {
    /// Whether the word is a partial plan without completion: the instance is symmetric, every unserved customer is below the first
    /// one of the last route, and one is left, or the open route ends below its first. No plan is under it.
    pub fn has_no_completion(&self) -> bool
        ensures no_completion { IsTrue result ↔ HasNoCompletion self.now.problem self.now.word }
        // What is known of every instance.
        ensures problem { IsProblem self.now.problem }
    {
        self.instance.symmetric() && self.tally.has_no_completion(self.at())
    }

    /// What a plan under the word costs at incumbent: what is paid along the word, and the bound on what is still to pay. `None`
    /// where the bound says that there is no plan.
    pub fn low(&self, tables: &Tables<'_>) -> Option<u64>
        requires tables { tables.now.problem ≡ self.now.problem }
        requires covered { AreCovered self.now.problem tables.now.among self.now.word }
        ensures low { IsLow self.now.problem tables.now.among self.now.word result }
        // What is known of every instance.
        ensures problem { IsProblem self.now.problem }
    {
        self.tally.low(self.instance, tables, self.at())
    }

    /// What is counted along a child's word, where a plan under it may cost no more than `incumbent` and less than `own_best`.
    /// `None` where none does: the child is without completion, or its bound is above that.
    #[inline(always)]
    pub fn promising(
        &self,
        tables: &Tables<'_>,
        symbol: u16,
        incumbent: u64,
        own_best: u64,
    ) -> Option<Tally>
        requires tables { tables.now.problem ≡ self.now.problem }
        requires covered { AreCovered self.now.problem tables.now.among self.now.word }
        requires child { IsPrefix self.now.problem (self.now.word ++ symbol ∷ []) }
        ensures of_use { let child = with_symbol self.now symbol
            in MatchOption result (NoneOfUse child.problem child.word incumbent own_best)
            (IsPromising child.problem child.word own_best) }
        ensures exact { let child = with_symbol self.now symbol
            in IsTrue (is_some result)
            ↔ MayBeOfUse child.problem tables.now.among child.word incumbent own_best }
    {
        // Below no partial plan is anything cheaper than its cost and bound, and below one without completion there is nothing.
        bounds_hold();
        prefixes_without_completion();
        let tally = self.tally_after(symbol);
        if self.child_has_no_completion(symbol, tally) {
            return None;
        }
        let Some(low) = self.child_low(tables, symbol, tally) else {
            return None;
        };
        if low <= incumbent && low < own_best {
            Some(tally)
        } else {
            None
        }
    }

    // Whether a child's word is a partial plan without completion, where this is counted along it.
    #[inline(always)]
    fn child_has_no_completion(&self, symbol: u16, tally: Tally) -> bool
        requires { IsTally self.now.problem (self.now.word ++ symbol ∷ []) tally }
        ensures no_completion { IsTrue result ↔ HasNoCompletion self.now.problem (self.now.word ++ symbol ∷ []) }
        // What is known of every instance.
        ensures problem { IsProblem self.now.problem }
    {
        self.instance.symmetric() && tally.has_no_completion(symbol)
    }

    // What a plan under a child costs at incumbent, where this is counted along its word.
    #[inline(always)]
    fn child_low(&self, tables: &Tables<'_>, symbol: u16, tally: Tally) -> Option<u64>
        requires tables { tables.now.problem ≡ self.now.problem }
        requires covered { AreCovered self.now.problem tables.now.among self.now.word }
        requires child { IsPrefix self.now.problem (self.now.word ++ symbol ∷ []) }
        requires tally { IsTally self.now.problem (self.now.word ++ symbol ∷ []) tally }
        ensures { IsLow self.now.problem tables.now.among (self.now.word ++ symbol ∷ []) result }
    {
        tally.low(self.instance, tables, symbol)
    }
}
