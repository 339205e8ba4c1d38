//! Calls that the tests make, each proved once. They end the test where memory is short.
use crate::linear_program::cover::{Cover, Dice, settings};
use std::alloc::Global;
use std::process::Abort;
use vrp_linear_program::{LinearProgram, Sense, UsedColumn};

/// Asserts a fact.
pub(crate) fn holds(rt: &impl Abort, fact: bool, what: &str) {
    assert!(rt; fact, "{what}");
}

/// Asserts that a number is at most so far from another.
pub(crate) fn is_near(rt: &impl Abort, found: i64, wanted: i64, most: i64) {
    let apart = found.wrapping_sub(wanted).saturating_abs();
    assert!(rt; apart <= most, "{found} is not {wanted}");
}

/// A random problem.
pub(crate) fn random_cover(
    rt: &impl Abort,
    alloc: Global,
    seed: u64,
    rows: u16,
    columns: usize,
) -> Cover {
    let mut dice = Dice::of(seed);
    Cover::random(alloc, &mut dice, rows, columns, 6).expect(rt, "memory")
}

/// The program of a problem, with its first columns, at a perturbation.
pub(crate) fn program_of(
    rt: &impl Abort,
    alloc: Global,
    cover: &Cover,
    columns: usize,
    perturbation: u32,
) -> LinearProgram {
    let made = cover.program(alloc, settings(perturbation), columns);
    made.expect(rt, "memory")
}

/// Lowers the cost of a program.
pub(crate) fn lower(rt: &impl Abort, program: &mut LinearProgram) {
    program.lower_cost(10_000).expect(rt, "memory");
}

/// Adds a row, and solves the program again. Answers whether the dual simplex found a solution.
pub(crate) fn solve_with_row(
    rt: &impl Abort,
    program: &mut LinearProgram,
    sense: Sense,
    side: i64,
    counts: &[u32],
) -> bool {
    let row = program.add_row(sense, side, counts).expect(rt, "memory");
    assert!(rt; row.is_some(), "no room");
    solve_again(rt, program)
}

/// Solves a program again, after a row was added or a column was removed. Answers whether the dual simplex found a solution.
pub(crate) fn solve_again(rt: &impl Abort, program: &mut LinearProgram) -> bool {
    let is_feasible = program.regain_feasibility(10_000).expect(rt, "memory");
    lower(rt, program);
    is_feasible
}

/// The columns that a program uses.
pub(crate) fn used(rt: &impl Abort, program: &LinearProgram) -> Vec<UsedColumn> {
    program.used_columns().expect(rt, "memory")
}

/// The objective in thousandths, for prices with 30 bits behind the point.
pub(crate) fn objective(program: &LinearProgram) -> i64 {
    (program.objective() >> 20).wrapping_mul(1_000) >> 10
}
