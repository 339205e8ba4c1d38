//! The verdict on a plan.
ghost use Rattle.std.specs.Prelude.{Some};
ghost use Rattle.vrp_answer.specs.Finding.{status_text};

use std::fmt;

/// The verdict on a plan.
#[derive(Clone, Copy, Debug, PartialEq, Eq)]
pub enum Status {
    /// No feasible plan costs less.
    Proven,
    /// A feasible plan may cost less.
    Open,
    /// There is no feasible plan: there are too few trucks.
    NoPlan,
    /// The plan is feasible, and was only checked.
    Lawful,
}

impl Status {
    ghost use Rattle.std.specs.Prelude.{◌≡◌};

    /// The word of the verdict.
    pub fn as_str(self) -> &'static str
        ensures { result.now ≡ status_text self }
    {
        match self {
            Status::Proven => "Proven",
            Status::Open => "Open",
            Status::NoPlan => "NoPlan",
            Status::Lawful => "Lawful",
        }
    }
}

impl fmt::Display for Status {
    ghost output = { λ status. Some (status_text status) };

    fn fmt<W: fmt::Write>(&self, f: &mut fmt::Formatter<W>) -> fmt::Result {
        f.write_str(self.as_str())
    }
}
