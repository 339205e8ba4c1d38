//! The entries of a history.
use vrp_model::Plan;

/// One accepted offer: its caller, its plan, and whether the plan was kept.
#[derive(Debug, Drop)]
pub struct Entry {
    /// The caller's number.
    pub caller: u32,
    /// The plan that was offered.
    pub plan: Plan,
    /// Whether the plan was before all plans then in the history.
    pub kept: bool,
}
