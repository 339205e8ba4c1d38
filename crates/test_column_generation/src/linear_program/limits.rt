//! Programs at their limits.
ghost use Rattle.std.specs.Prelude.{◌≤◌};

use crate::linear_program::calls::{
    holds, is_near, lower, objective, program_of, random_cover, used,
};
use crate::linear_program::cover::settings;
use std::alloc::Global;
use std::process::Abort;
use vrp_linear_program::{LinearProgram, MOST_ROWS, Sense, Settings};

// A program without columns.
fn bare(rt: &impl Abort, alloc: Global, rows: u16, settings: Settings) -> LinearProgram
    requires { rows ≤ 1000 }
{
    LinearProgram::new(alloc, rows, settings).expect(rt, "memory")
}

fn add(rt: &impl Abort, program: &mut LinearProgram, name: u32, cost: i64, rows: &[u16]) {
    program.add_column(name, cost, rows).expect(rt, "memory");
}

// No rows, and no columns.
#[test]
fn empty(rt: HostRuntime) {
    let mut program = bare(&rt, rt.alloc(), 0, settings(0));
    lower(&rt, &mut program);
    holds(&rt, program.objective() == 0, "nothing costs nothing");
    holds(&rt, program.prices().is_empty(), "no prices");
}

// No columns: all rows need artificial ones.
#[test]
fn no_columns(rt: HostRuntime) {
    let mut program = bare(&rt, rt.alloc(), 3, settings(0));
    lower(&rt, &mut program);
    holds(&rt, program.column_count() == 0, "no columns");
    is_near(&rt, program.artificial_value(), 3 << 36, 0);
}

// The most rows, each with a column of its own, and no room for one more.
#[test]
fn most_rows(rt: HostRuntime) {
    let mut program = bare(&rt, rt.alloc(), MOST_ROWS, settings(1_000));
    for row in 0..MOST_ROWS {
        add(&rt, &mut program, u32::from(row), 2, &[row]);
    }
    lower(&rt, &mut program);
    is_near(&rt, objective(&program), 1_999_000, 1_500);
    let row = program.add_row(Sense::AtLeast, 1, &[]);
    holds(&rt, row.expect(&rt, "memory").is_none(), "no room");
}

// Costs near 2^40: prices have fewer bits behind the point.
#[test]
fn large_costs(rt: HostRuntime) {
    let settings = Settings {
        penalty: 1 << 44,
        greatest_cost: 1 << 40,
        perturbation: 0,
    };
    let mut program = bare(&rt, rt.alloc(), 2, settings);
    add(&rt, &mut program, 0, 1 << 40, &[0, 1]);
    add(&rt, &mut program, 1, 1 << 40, &[0]);
    add(&rt, &mut program, 2, 1 << 40, &[1]);
    lower(&rt, &mut program);
    holds(&rt, program.price_bits() == 9, "9 bits");
    is_near(&rt, program.objective() >> 9, 1 << 40, 1 << 12);
}

// No step is made where none may be.
#[test]
fn no_steps(rt: HostRuntime) {
    let cover = random_cover(&rt, rt.alloc(), 9, 10, 50);
    let mut program = program_of(&rt, rt.alloc(), &cover, 50, 1_000);
    program.lower_cost(0).expect(&rt, "memory");
    holds(&rt, program.steps() == 0, "no steps");
    holds(
        &rt,
        program.artificial_value() > 9 << 36,
        "nothing is covered",
    );
}

// Rows that the program does not have are left out of a column.
#[test]
fn unknown_rows(rt: HostRuntime) {
    let mut program = bare(&rt, rt.alloc(), 1, settings(0));
    add(&rt, &mut program, 7, 3, &[5, 0, 9]);
    lower(&rt, &mut program);
    let used = used(&rt, &program);
    holds(&rt, used.len() == 1, "one column is used");
    for column in &used {
        holds(&rt, column.name == 7 && column.value == 1 << 36, "once");
    }
}
