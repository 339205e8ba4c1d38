//! A law about plain files.
ghost use Rattle.std.specs.Prelude.{ℕ, None, List};
ghost use Rattle.vrp_model.specs.Problem.{Problem};
ghost use Rattle.check_plain.specs.PlainMeaning.{MeansPlainly};
ghost use Rattle.vrp_text.specs.Meaning.{MeansProblem};

/// A plain file, which has no freedom of spelling except in its numbers and remarks, means the problem that it states.
pub fn plain_files()
    ensures { (bytes : List ℕ) (problem : Problem)
        → MeansPlainly bytes problem → MeansProblem bytes None problem }
{}
