//! Programs that get columns, rows and branches as they go.
use crate::linear_program::calls::{
    holds, is_near, lower, objective, program_of, random_cover, solve_again, solve_with_row, used,
};
use crate::linear_program::cover::{Cover, Dice};
use crate::linear_program::optimal::{assert_optimal, cost_of_used};
use std::alloc::Global;
use std::process::Abort;
use vrp_linear_program::{LinearProgram, Sense};

// Columns that are added round by round end at the optimum of all at once.
#[test]
fn columns_round_by_round(rt: HostRuntime) {
    let cover = random_cover(&rt, rt.alloc(), 4, 40, 300);
    let mut program = program_of(&rt, rt.alloc(), &cover, 50, 1_000);
    for round in 1..6usize {
        lower(&rt, &mut program);
        add_fifty(&rt, &mut program, &cover, round.wrapping_mul(50));
    }
    lower(&rt, &mut program);
    assert_optimal(&rt, &program, &cover, 1_000);
}

fn add_fifty(rt: &impl Abort, program: &mut LinearProgram, cover: &Cover, first: usize) {
    let added = cover.add_columns(program, first, first.wrapping_add(50));
    added.expect(rt, "memory");
}

// Rows that are added hold at the end, and the cost does not fall. Those that are not tight go again, and the solution stays.
#[test]
fn rows_after_solving(rt: HostRuntime) {
    let cover = random_cover(&rt, rt.alloc(), 5, 30, 200);
    let mut program = program_of(&rt, rt.alloc(), &cover, 200, 1_000);
    lower(&rt, &mut program);
    let mut dice = Dice::of(50);
    for round in 0..10u64 {
        let before = cost_of_used(&rt, &program, &cover);
        cut(&rt, rt.alloc(), &mut program, &mut dice, round % 2 == 0);
        let after = cost_of_used(&rt, &program, &cover);
        holds(&rt, after >= before.wrapping_sub(200), "the cost falls");
    }
    assert_same_without_slack_rows(&rt, &mut program);
}

// Adds a random row that cuts the solution off, and asserts that it holds then.
fn cut(
    rt: &impl Abort,
    alloc: Global,
    program: &mut LinearProgram,
    dice: &mut Dice,
    is_above: bool,
) {
    let counts = dice.counts(alloc, 200).expect(rt, "memory");
    let whole = sum_of(rt, program, counts.as_slice()) >> 36;
    let (sense, side) = if is_above {
        (Sense::AtLeast, whole.wrapping_add(1))
    } else {
        (Sense::AtMost, whole)
    };
    let is_feasible = solve_with_row(rt, program, sense, side, counts.as_slice());
    holds(rt, is_feasible, "there is a solution");
    let more = sum_of(rt, program, counts.as_slice()).wrapping_sub(side.wrapping_mul(1 << 36));
    let over = if is_above { more } else { more.wrapping_neg() };
    holds(rt, over > -(1 << 28), "the row holds");
}

// How often the columns that are used count in a row, as a value.
fn sum_of(rt: &impl Abort, program: &LinearProgram, counts: &[u32]) -> i64 {
    let mut sum = 0i64;
    for column in &used(rt, program) {
        let count = counts.get(column.name as usize).copied().unwrap_or(0);
        sum = sum.wrapping_add(column.value.wrapping_mul(i64::from(count)));
    }
    sum
}

fn assert_same_without_slack_rows(rt: &impl Abort, program: &mut LinearProgram) {
    let before = program.row_count();
    let cost = objective(program);
    let gone = program.remove_slack_rows(&[true; 64]).expect(rt, "memory");
    holds(rt, !gone.is_empty(), "some rows are not tight");
    holds(rt, program.row_count() < before, "they went");
    lower(rt, program);
    is_near(rt, objective(program), cost, 250);
}

// A branch removes columns that are used: they leave, and don't come back. A copy is as before.
#[test]
fn removed_columns(rt: HostRuntime) {
    let cover = random_cover(&rt, rt.alloc(), 6, 30, 300);
    let mut program = program_of(&rt, rt.alloc(), &cover, 300, 1_000);
    lower(&rt, &mut program);
    let copy = program.copy().expect(&rt, "memory");
    let before = objective(&program);
    branch(&rt, rt.alloc(), &mut program);
    let _ = cost_of_used(&rt, &program, &cover);
    holds(
        &rt,
        objective(&program) >= before.wrapping_sub(2),
        "the cost falls",
    );
    is_near(&rt, objective(&copy), before, 0);
    assert_optimal(&rt, &copy, &cover, 1_000);
}

// Removes the used columns with odd names, solves, and asserts that they are not used.
fn branch(rt: &impl Abort, alloc: Global, program: &mut LinearProgram) {
    let used_before = used(rt, program);
    let mut stays = Vec::new(alloc);
    for &name in program.names() {
        let is_used = used_before.iter().any(|column| column.name == name);
        stays.push(!is_used || name % 2 == 0).expect(rt, "memory");
    }
    let removed = program.retain_columns(stays.as_slice());
    removed.expect(rt, "memory");
    holds(rt, solve_again(rt, program), "there is a solution");
    for column in &used(rt, program) {
        let stays = stays.get(column.name as usize).copied().unwrap_or(false);
        holds(rt, stays, "a removed column is used");
    }
}

// Costly columns go, and the solution stays.
#[test]
fn costly_columns(rt: HostRuntime) {
    let cover = random_cover(&rt, rt.alloc(), 7, 30, 400);
    let mut program = program_of(&rt, rt.alloc(), &cover, 400, 1_000);
    lower(&rt, &mut program);
    let before = objective(&program);
    program.remove_costly_columns(100).expect(&rt, "memory");
    let left = program.column_count();
    holds(&rt, left >= 100 && left <= 130, "about 100 are left");
    lower(&rt, &mut program);
    is_near(&rt, objective(&program), before, 2);
    assert_optimal(&rt, &program, &cover, 1_000);
}

// A basis of the columns that another run used leads to the same optimum, in fewer steps.
#[test]
fn named_basis(rt: HostRuntime) {
    let cover = random_cover(&rt, rt.alloc(), 8, 30, 300);
    let mut first = program_of(&rt, rt.alloc(), &cover, 300, 1_000);
    lower(&rt, &mut first);
    let mut second = program_of(&rt, rt.alloc(), &cover, 300, 1_000);
    begin_as(&rt, rt.alloc(), &mut second, &first);
    lower(&rt, &mut second);
    assert_optimal(&rt, &second, &cover, 1_000);
    holds(&rt, second.steps() < first.steps(), "it takes fewer steps");
}

fn begin_as(rt: &impl Abort, alloc: Global, program: &mut LinearProgram, other: &LinearProgram) {
    let mut names = Vec::new(alloc);
    for column in &used(rt, other) {
        names.push(column.name).expect(rt, "memory");
    }
    program.begin_with(names.as_slice()).expect(rt, "memory");
}
