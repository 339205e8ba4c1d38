//! The turns of the workers that share numbered tasks.

use std::sync::atomic::{AtomicUsize, Ordering};

/// Numbered tasks, of which a free worker takes the next one.
#[derive(Drop)]
pub struct Turns {
    // The first task that nobody has taken.
    next: AtomicUsize,
    end: usize,
}

impl Turns {
    /// The tasks from the first one up to, and without, the end.
    pub fn new(first: usize, end: usize) -> Turns {
        Turns {
            next: AtomicUsize::new(first),
            end,
        }
    }

    /// The next task, which belongs to the caller from now on. `None` if all are taken.
    pub fn take(&self) -> Option<usize> {
        let task = self.next.fetch_add(1, Ordering::SeqCst);
        if task < self.end { Some(task) } else { None }
    }
}
