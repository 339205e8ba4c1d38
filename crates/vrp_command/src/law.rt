//! Laws about runs.
ghost use Rattle.std.specs.Prelude.{◌≡◌, ℕ, Bool, List, Option};
ghost use Rattle.vrp_answer.specs.Finding.{FindingOf};
ghost use Rattle.vrp_answer.specs.declared.status.Status.TheVariants.{Proven};
ghost use Rattle.vrp_command.specs.Program.{AnswersRequest};
ghost use Rattle.vrp_command.specs.Run.{AnswersBytes};
ghost use Rattle.vrp_command.specs.Same.{TellsSame};
ghost use Rattle.vrp_command_request.specs.declared.options.Options.{Options};
ghost use Rattle.vrp_command_request.specs.declared.options.Request.{Request};

use vrp_model::one_canonical;
use vrp_text::one_meaning;

/// Runs over the same bytes, with the same depot and number of trucks, that answer `Proven` print the same report, whatever
/// their pieces, budgets and workers, and whether they may be stopped or not.
pub fn one_report()
    ensures { (options others : Options) (may_stop others_may : Bool) (bytes report other : List ℕ)
        → options.depot ≡ others.depot → options.trucks ≡ others.trucks
        → AnswersBytes options may_stop bytes report Proven → AnswersBytes others others_may bytes other Proven → report ≡ other }
{
    // The bytes mean one problem, which has one canonical plan.
    one_meaning();
    one_canonical();
}

/// Requests over the same bytes, with the same depot and number of trucks, that are answered `Proven` find the same plan; as
/// a report, or as a CVRPLIB solution, they print the same bytes. Their other options may differ, and either may have a start
/// plan.
pub fn one_answer()
    ensures { (request other : Request) (may_stop other_may : Bool) (bytes : List ℕ)
        (start other_start : Option (List ℕ)) (finding found : FindingOf) (text printed : List ℕ)
        → request.options.depot ≡ other.options.depot → request.options.trucks ≡ other.options.trucks
        → AnswersRequest request may_stop bytes start finding text → finding.status ≡ Proven
        → AnswersRequest other other_may bytes other_start found printed → found.status ≡ Proven
        → TellsSame request other finding found text printed }
{
    one_meaning();
    one_canonical();
}
