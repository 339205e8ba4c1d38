//! The scope of a program: the choices that it is about.
use vrp_model::CustomerSet;
use vrp_partition::Task;

/// The choices that serve these customers with at least so many routes, and at most so many.
#[derive(Clone, Copy, Debug, PartialEq, Eq)]
pub(crate) struct Scope {
    pub(crate) customers: CustomerSet,
    pub(crate) least_routes: u16,
    pub(crate) most_routes: u8,
}

impl Scope {
    /// The choices that a task seeks.
    pub(crate) fn of_task(task: &Task<'_>) -> Scope {
        Scope {
            customers: task.customers,
            least_routes: task.least_routes,
            most_routes: task.fleet.trucks,
        }
    }
}
