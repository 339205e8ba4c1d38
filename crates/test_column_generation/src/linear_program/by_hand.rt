//! Programs whose optimum is known by hand.
use crate::linear_program::calls::{
    holds, is_near, lower, objective, program_of, solve_with_row, used,
};
use crate::linear_program::cover::Cover;
use crate::linear_program::optimal::assert_optimal;
use std::alloc::Global;
use std::process::Abort;
use vrp_linear_program::{LinearProgram, Sense};

const ONE: i64 = 1 << 36;

// Two rows: one column for both, and one for each.
#[test]
fn two_rows(rt: HostRuntime) {
    // The costs of the three columns, and the optimum.
    for &(both, first, second, optimum) in &[
        (5i64, 3i64, 3i64, 5_000i64),
        (7, 3, 3, 6_000),
        (5, 1, 9, 5_000),
    ] {
        let columns: &[(&[u16], i64)] = &[(&[0, 1], both), (&[0], first), (&[1], second)];
        assert_two_rows(&rt, rt.alloc(), columns, optimum);
    }
}

fn assert_two_rows(rt: &impl Abort, alloc: Global, columns: &[(&[u16], i64)], optimum: i64) {
    let cover = Cover::of(alloc, 2, columns).expect(rt, "memory");
    let mut program = program_of(rt, alloc, &cover, 3, 0);
    lower(rt, &mut program);
    assert_optimal(rt, &program, &cover, 2);
    is_near(rt, objective(&program), optimum, 2);
}

// Three rows, and a column for each two.
fn triangle(rt: &impl Abort, alloc: Global) -> Cover {
    let columns: &[(&[u16], i64)] = &[(&[0, 1], 2), (&[1, 2], 2), (&[0, 2], 2)];
    Cover::of(alloc, 3, columns).expect(rt, "memory")
}

fn solved_triangle(rt: &impl Abort, alloc: Global) -> LinearProgram {
    let cover = triangle(rt, alloc);
    let mut program = program_of(rt, alloc, &cover, 3, 0);
    lower(rt, &mut program);
    assert_optimal(rt, &program, &cover, 2);
    program
}

// Half of each column, 3 in all.
#[test]
fn halves(rt: HostRuntime) {
    let program = solved_triangle(&rt, rt.alloc());
    let used = used(&rt, &program);
    holds(&rt, used.len() == 3, "three columns are used");
    for column in &used {
        is_near(&rt, column.value, ONE / 2, 1 << 16);
    }
}

// At least two columns: that makes 4, and the row has a price.
#[test]
fn cut_above(rt: HostRuntime) {
    let mut program = solved_triangle(&rt, rt.alloc());
    let is_feasible = solve_with_row(&rt, &mut program, Sense::AtLeast, 2, &[1, 1, 1]);
    holds(&rt, is_feasible, "there is a solution");
    is_near(&rt, objective(&program), 4_000, 3);
    let price = program.prices().get(3).copied().unwrap_or(0);
    holds(&rt, price > 0, "the cut has a price");
}

// At most one and a half: nothing changes. At most one: no solution, so that artificial columns are used.
#[test]
fn no_solution(rt: HostRuntime) {
    let mut program = solved_triangle(&rt, rt.alloc());
    let _ = solve_with_row(&rt, &mut program, Sense::AtMost, 3, &[2, 2, 2]);
    is_near(&rt, program.artificial_value(), 0, ONE >> 10);
    is_near(&rt, objective(&program), 3_000, 3);
    let _ = solve_with_row(&rt, &mut program, Sense::AtMost, 1, &[1, 1, 1]);
    holds(
        &rt,
        program.artificial_value() > ONE / 4,
        "artificial columns are used",
    );
}
