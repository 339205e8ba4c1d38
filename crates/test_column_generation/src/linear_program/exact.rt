//! Assignment problems with each row exactly once, against a plain slow program that tries all assignments.
use crate::linear_program::calls::{is_near, lower, objective, program_of, solve_again};
use crate::linear_program::cover::{Cover, Dice};
use crate::linear_program::optimal::cost_of_used;
use std::alloc::{AllocError, Global};
use std::process::Abort;
use vrp_linear_program::{LinearProgram, Sense};

// The problems have 2 to 8 rows on each side, and costs with many ties.
#[test]
fn exact_assignments(rt: HostRuntime) {
    for size in 2..9u16 {
        assert_exact(&rt, rt.alloc(), size, 1_000);
        assert_exact(&rt, rt.alloc(), size, 0);
    }
}

fn assert_exact(rt: &impl Abort, alloc: Global, size: u16, perturbation: u32) {
    let mut dice = Dice::of(u64::from(size));
    let made = Cover::assignment(alloc, &mut dice, size, 6);
    let cover = made.expect(rt, "memory");
    let mut program = program_of(rt, alloc, &cover, usize::MAX, perturbation);
    lower(rt, &mut program);
    for row in 0..cover.rows {
        bound_row(rt, alloc, &mut program, &cover, row);
    }
    let _ = solve_again(rt, &mut program);
    let wanted = least_assignment(alloc, &cover, usize::from(size)).expect(rt, "memory");
    let slack = if perturbation > 0 { 100 } else { 20 };
    is_near(rt, objective(&program), wanted.wrapping_mul(1_000), slack);
    is_near(
        rt,
        cost_of_used(rt, &program, &cover),
        wanted.wrapping_mul(1_000),
        slack,
    );
}

// Adds the row that a row is covered once at most.
fn bound_row(rt: &impl Abort, alloc: Global, program: &mut LinearProgram, cover: &Cover, row: u16) {
    let mut counts = Vec::new(alloc);
    for column in &cover.columns {
        let has_row = column.rows.iter().any(|&other| other == row);
        counts.push(u32::from(has_row)).expect(rt, "memory");
    }
    let added = program.add_row(Sense::AtMost, 1, counts.as_slice());
    assert!(rt; added.expect(rt, "memory").is_some());
}

// The least cost of an assignment: for each set of rows on the right, the least cost of covering it with the first rows on the left.
fn least_assignment(alloc: Global, cover: &Cover, size: usize) -> Result<i64, AllocError> {
    let size = size.min(10);
    let count = 1usize << size;
    let mut least = vec![in alloc; i64::MAX; count]?;
    if let Some(nothing) = least.get_mut(0) {
        *nothing = 0;
    }
    for set in 0..count {
        let cost = least.get(set).copied().unwrap_or(i64::MAX);
        let left = usize::try_from(set.count_ones()).unwrap_or(0);
        for right in 0..size {
            if cost < i64::MAX && set & (1 << right) == 0 {
                let column = left.wrapping_mul(size).wrapping_add(right);
                let more = cover.columns.get(column).map_or(0, |column| column.cost);
                lower_at(
                    least.as_mut_slice(),
                    set | (1 << right),
                    cost.wrapping_add(more),
                );
            }
        }
    }
    Ok(least.last().copied().unwrap_or(0))
}

fn lower_at(least: &mut [i64], set: usize, cost: i64) {
    if let Some(known) = least.get_mut(set) {
        *known = cost.min(*known);
    }
}
