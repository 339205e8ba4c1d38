//! The options of a run.
ghost use Rattle.vrp_command_request.specs.Options.{IsDefault, IsReport};

/// The options of a run.
#[derive(Clone, Copy, Debug, PartialEq, Eq)]
pub struct Options {
    /// The number of threads, from 1 to `vrp_solver::MAX_WORKERS`.
    pub workers: u32,
    /// The least number of parts into which the search is cut, from 1 to `MAX_PIECES`.
    pub pieces: u32,
    /// The budget of partial plans for each part, from 1 to `MAX_BUDGET`.
    pub budget: u64,
    /// The depot's node; if `None`, the first that the file lists.
    pub depot: Option<u16>,
    /// The number of trucks, from 1 to `MAX_NODES`; if `None`, there is no limit.
    pub trucks: Option<u16>,
}

impl Default for Options {
    ghost is_default = { IsDefault };

    /// One worker, 64 pieces, 10,000,000 partial plans a piece, the first listed depot, and no limit on trucks.
    fn default() -> Options {
        Options {
            workers: 1,
            pieces: 64,
            budget: 10_000_000,
            depot: None,
            trucks: None,
        }
    }
}

/// The output form of the plan.
#[derive(Clone, Copy, Debug, PartialEq, Eq)]
pub enum Format {
    /// As the report.
    Report,
    /// As a solution in CVRPLIB's format.
    Solution,
    /// As JSON.
    Json,
    /// As a picture in SVG.
    Picture,
}

/// The request of a command line.
#[derive(Clone, Copy, Debug, PartialEq, Eq)]
pub struct Request<'a> {
    /// The options of the run.
    pub options: Options,
    /// Whether the budget is given, and not left to the program.
    pub states_budget: bool,
    /// The limit of seconds for the search, from 1 to `MAX_SECONDS`, if there is one.
    pub seconds: Option<u32>,
    /// Whether progress is reported on standard error.
    pub progress: bool,
    /// The file of a start plan, if there is one.
    pub start: Option<&'a str>,
    /// Whether that plan is only to be checked.
    pub check: bool,
    /// Whether a wrong stated cost changes the exit status.
    pub strict: bool,
    /// Whether hints are written on standard error.
    pub explain: bool,
    /// The output form of the plan.
    pub format: Format,
}

impl Request<'_> {
    /// The request for a report with these options, and nothing else.
    pub fn report(options: Options) -> Request<'static>
        ensures { IsReport options result }
    {
        Request {
            options,
            states_budget: false,
            seconds: None,
            progress: false,
            start: None,
            check: false,
            strict: false,
            explain: false,
            format: Format::Report,
        }
    }
}
