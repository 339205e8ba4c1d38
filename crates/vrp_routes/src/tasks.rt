//! Numbered tasks that several workers take one at a time.
ghost use Rattle.std.specs.Prelude.{◌≡◌, ◌+◌, ◌^◌, ◌<◌, ℕ, Ok, IfOk, map, slice_index_or, vec_len};

use std::alloc::Global;
use std::thread::{Threads, map_indices};
use vrp_model::NoMemory;

/// The values of the tasks, which are numbered from 0, in order.
pub fn values_of<R: Threads + Sync, X: Send + Drop, F: Fn(usize) -> Result<X, NoMemory> + Sync>(
    rt: &R,
    alloc: Global,
    workers: u16,
    tasks: usize,
    task: &F,
) -> Result<Vec<X>, NoMemory>
    requires workers { 0 < workers }
    requires tasks { (i : ℕ) → i < tasks → F.pre task.now i }
    ensures count { IfOk result (λ values. vec_len values ≡ tasks) }
    ensures each { IfOk result (λ values. (i : ℕ) (d : X) → i < tasks
        → F.post task.now i (Ok (slice_index_or values.items i d))) }
{
    let mut values = Vec::new(alloc);
    let mut first = 0;
    while first < tasks {
        let count = usize::from(workers).min(tasks - first);
        let mut more = values_from(rt, alloc, first, count, task)?;
        values.append(&mut more)?;
        first += count;
    }
    Ok(values)
}

// The values of this many tasks from the first one on, all done at the same time.
fn values_from<R: Threads + Sync, X: Send + Drop, F: Fn(usize) -> Result<X, NoMemory> + Sync>(
    rt: &R,
    alloc: Global,
    first: usize,
    count: usize,
    task: &F,
) -> Result<Vec<X>, NoMemory>
    requires few { first + count < 2 ^ 64 }
    requires tasks { (i : ℕ) → i < count → F.pre task.now (first + i) }
    ensures count { IfOk result (λ values. vec_len values ≡ count) }
    ensures each { IfOk result (λ values. (i : ℕ) (d : X) → i < count
        → F.post task.now (first + i) (Ok (slice_index_or values.items i d))) }
{
    let results = map_indices(
        rt,
        alloc,
        count,
        &|index: usize| -> Result<X, NoMemory>
            requires within { first + index < 2 ^ 64 }
            requires task { F.pre task.now (first + index) }
            ensures { F.post task.entry.now (first + index) result }
        { task(first + index) },
    )?;
    all_of(alloc, results)
}

/// The values of all tasks, if none is missing.
pub fn all_of<X: Drop>(alloc: Global, results: Vec<Result<X, NoMemory>>) -> Result<Vec<X>, NoMemory>
    ensures { IfOk result (λ all. results.items ≡ map Ok all.items) }
{
    let mut all = Vec::new(alloc);
    for result in results {
        all.push(result?)?;
    }
    Ok(all)
}
