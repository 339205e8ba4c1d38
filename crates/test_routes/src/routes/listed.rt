//! Routes listed by a completion test that knows nothing.
ghost use Rattle.std.specs.Prelude.{◌≤◌, ◌<◌};
ghost use Rattle.vrp_model.specs.declared.customers.customer_set.TheConstants.{PLACES};
ghost use Rattle.vrp_model.specs.Problem.{place_count};
ghost use Rattle.vrp_model.specs.declared.limits.TheConstants.{NO_COST};
ghost use Rattle.vrp_routes.specs.Range.{plans_within};

use crate::passes::pool_of;
use std::alloc::Global;
use std::process::Abort;
use std::sync::atomic::{AtomicU64, Ordering};
use std::thread::Threads;
use vrp_model::{Crew, CustomerSet, Instance, News, Watch};
use vrp_routes::{CompletionTest, Listed, RoutePool, can_list, list_routes};

// The test that every beginning passes: only what is too heavy, or has a customer twice, isn't listed. So the list is for plans of any
// cost.
#[derive(Drop)]
struct NoTest<'a> {
    instance: &'a Instance,
}

impl<'a> CompletionTest for NoTest<'a> {
    type Resources = ();

    ghost problem = { λ t. t.instance.now };

    ghost range = { λ _. plans_within NO_COST };

    ghost Counts = { λ _ _ _. Unit {0} };

    fn instance(&self) -> &Instance {
        self.instance
    }

    fn start(&self) {}

    fn extended(
        &self,
        _resources: &(),
        _set: CustomerSet,
        _load: u32,
        _last: u16,
        _stop: u16,
    ) -> Option<()> {
        Some(())
    }

    fn may_close(&self, _resources: &(), _set: CustomerSet, _load: u32, _last: u16) -> bool {
        true
    }
}

// A watch that stops a list once it hears of this many labels.
#[derive(Drop)]
struct UpTo {
    enough: u64,
    heard: AtomicU64,
}

impl Watch for UpTo {
    fn should_continue(&self) -> bool {
        self.heard.load(Ordering::SeqCst) < self.enough
    }

    fn on_news(&self, news: News) {
        if let News::Labels(labels) = news {
            self.heard.store(labels, Ordering::SeqCst);
        }
    }
}

/// The result of listing all routes by so many workers, with at most `most_labels` labels. The list is stopped once `enough` labels are
/// reported.
pub(crate) fn listed<R: Abort + Threads + Sync>(
    rt: &R,
    alloc: Global,
    instance: &Instance,
    workers: u16,
    most_labels: u32,
    enough: u64,
) -> Listed {
    assert!(rt; can_list(instance) && 0 < workers);
    let crew = Crew {
        rt,
        alloc,
        workers,
        watch: &UpTo {
            enough,
            heard: AtomicU64::new(0),
        },
    };
    list_routes(&crew, &NoTest { instance }, most_labels).expect(rt, "memory")
}

/// The pool of all routes, listed by so many workers.
pub(crate) fn all_routes<R: Abort + Threads + Sync>(
    rt: &R,
    alloc: Global,
    instance: &Instance,
    workers: u16,
) -> RoutePool {
    pool_of(rt, listed(rt, alloc, instance, workers, u32::MAX, u64::MAX))
}
