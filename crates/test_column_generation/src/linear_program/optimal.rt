//! Optimal solutions, proved by prices: no reduced cost is negative, and the prices add up to the cost of the columns that are used.
use crate::linear_program::calls::{holds, is_near, lower, program_of, random_cover, used};
use crate::linear_program::cover::{Cover, CoverColumn, Dice};
use std::alloc::Global;
use std::process::Abort;
use vrp_linear_program::{LinearProgram, UsedColumn};

/// Asserts that a program's solution of a problem is optimal up to rounding and perturbation: the bound by its prices and the cost of
/// the columns that are used are at most so many thousandths apart.
pub(crate) fn assert_optimal(rt: &impl Abort, program: &LinearProgram, cover: &Cover, slack: i64) {
    let prices = program.prices();
    let bits = program.price_bits().min(30);
    let mut bound = 0i64;
    for &price in prices {
        holds(rt, price >= -(1 << 18), "a price is negative");
        bound = bound.wrapping_add(price);
    }
    for column in &cover.columns {
        let rest = reduced_cost(column, prices, bits);
        holds(rt, rest >= -(1 << 18), "a reduced cost is negative");
    }
    let cost = cost_of_used(rt, program, cover);
    is_near(rt, cost, thousandths(bound, bits), slack);
}

// The reduced cost of a column, in units of prices.
fn reduced_cost(column: &CoverColumn, prices: &[i64], bits: u32) -> i64 {
    let mut rest = column.cost.wrapping_mul(1 << bits.min(30));
    for &row in &column.rows {
        rest = rest.wrapping_sub(prices.get(usize::from(row)).copied().unwrap_or(0));
    }
    rest
}

/// The cost of the columns that are used, in thousandths. Asserts that they cover each row, up to rounding.
pub(crate) fn cost_of_used(rt: &impl Abort, program: &LinearProgram, cover: &Cover) -> i64 {
    let used = used(rt, program);
    for row in 0..cover.rows {
        let sum = covered(used.as_slice(), cover, row);
        holds(rt, sum >= ENOUGH, "a row is not covered");
    }
    let mut cost = 0i64;
    for column in &used {
        if let Some(found) = cover.columns.get(column.name as usize) {
            cost = cost.wrapping_add(found.cost.wrapping_mul(column.value >> 16));
        }
    }
    cost.wrapping_mul(1_000) >> 20
}

// How often a row is covered, as a value.
fn covered(used: &[UsedColumn], cover: &Cover, row: u16) -> i64 {
    let mut sum = 0i64;
    for column in used {
        if let Some(found) = cover.columns.get(column.name as usize) {
            for &other in &found.rows {
                if other == row {
                    sum = sum.wrapping_add(column.value);
                }
            }
        }
    }
    sum
}

// One as a value, less a five-hundredth.
const ENOUGH: i64 = 68_585_259_008;

// A number with so many bits behind the point, in thousandths.
fn thousandths(number: i64, bits: u32) -> i64 {
    (number >> bits.min(30).saturating_sub(10)).wrapping_mul(1_000) >> 10
}

// Covers of many sizes, with right-hand sides that are changed against ties.
#[test]
fn random_covers(rt: HostRuntime) {
    for round in 0..20u16 {
        let rows = round.wrapping_mul(3).wrapping_add(2);
        assert_solved(&rt, rt.alloc(), 1, rows, 1_000);
    }
}

// The same with the right-hand sides as they are.
#[test]
fn covers_with_ties(rt: HostRuntime) {
    for round in 0..20u16 {
        let rows = round.wrapping_mul(2).wrapping_add(2);
        assert_solved(&rt, rt.alloc(), 2, rows, 0);
    }
}

// Solves a random cover, and asserts that its solution is optimal, if it has one without artificial columns.
fn assert_solved(rt: &impl Abort, alloc: Global, seed: u64, rows: u16, perturbation: u32) {
    let columns = usize::from(rows).wrapping_mul(6);
    let cover = random_cover(rt, alloc, seed, rows, columns);
    let mut program = program_of(rt, alloc, &cover, columns, perturbation);
    lower(rt, &mut program);
    if program.artificial_value() == 0 {
        let slack = if perturbation > 0 { 1_000 } else { 20 };
        assert_optimal(rt, &program, &cover, slack);
    }
}

// Assignment problems, whose vertices are degenerate.
#[test]
fn assignments(rt: HostRuntime) {
    for &size in &[2u16, 5, 10, 20, 30] {
        assert_assigned(&rt, rt.alloc(), size, 0);
        assert_assigned(&rt, rt.alloc(), size, 1_000);
    }
}

fn assert_assigned(rt: &impl Abort, alloc: Global, size: u16, perturbation: u32) {
    let mut dice = Dice::of(3);
    let made = Cover::assignment(alloc, &mut dice, size, 50);
    let cover = made.expect(rt, "memory");
    let mut program = program_of(rt, alloc, &cover, usize::MAX, perturbation);
    lower(rt, &mut program);
    assert_optimal(rt, &program, &cover, 500);
}
