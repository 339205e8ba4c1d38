//! Covering problems: columns with rows and costs, made by hand or at random.
use std::alloc::{AllocError, Global};
use vrp_linear_program::{LinearProgram, Settings};

/// A column: its rows, each as often as it counts, and its cost.
#[derive(Debug, Drop)]
pub(crate) struct CoverColumn {
    pub(crate) rows: Vec<u16>,
    pub(crate) cost: i64,
}

/// A covering problem, each row at least once.
#[derive(Debug, Drop)]
pub(crate) struct Cover {
    pub(crate) rows: u16,
    pub(crate) columns: Vec<CoverColumn>,
}

/// Random numbers, the same for the same seed.
#[derive(Drop)]
pub(crate) struct Dice {
    state: u64,
}

impl Dice {
    /// The numbers of a seed.
    pub(crate) fn of(seed: u64) -> Dice {
        Dice { state: seed }
    }

    /// A number below a limit.
    pub(crate) fn below(&mut self, limit: u64) -> u64 {
        self.state = self
            .state
            .wrapping_mul(6_364_136_223_846_793_005)
            .wrapping_add(1_442_695_040_888_963_407);
        (self.state >> 33) % limit.max(1)
    }

    /// A list of zeros and ones.
    pub(crate) fn counts(&mut self, alloc: Global, many: usize) -> Result<Vec<u32>, AllocError> {
        let mut counts = Vec::new(alloc);
        for _ in 0..many {
            counts.push(u32::from(self.below(3) == 0))?;
        }
        Ok(counts)
    }

    /// A row below a limit.
    pub(crate) fn row(&mut self, rows: u16) -> u16 {
        u16::try_from(self.below(u64::from(rows))).unwrap_or(0)
    }
}

impl Cover {
    /// The problem with these columns.
    pub(crate) fn of(
        alloc: Global,
        rows: u16,
        columns: &[(&[u16], i64)],
    ) -> Result<Cover, AllocError> {
        let mut all = Vec::new(alloc);
        for &(rows, cost) in columns {
            let rows = Vec::from_slice(alloc, rows)?;
            all.push(CoverColumn { rows, cost })?;
        }
        Ok(Cover { rows, columns: all })
    }

    /// A random problem whose columns have up to so many rows, with repetitions. A column costs about as much as its rows are worth.
    pub(crate) fn random(
        alloc: Global,
        dice: &mut Dice,
        rows: u16,
        columns: usize,
        most: u64,
    ) -> Result<Cover, AllocError> {
        let mut all = Vec::new(alloc);
        for _ in 0..columns {
            let mut list = Vec::new(alloc);
            let mut cost = dice.below(20).wrapping_add(10);
            for _ in 0..dice.below(most).wrapping_add(1) {
                list.push(dice.row(rows))?;
                cost = cost.wrapping_add(dice.below(15));
            }
            let cost = i64::try_from(cost).unwrap_or(0);
            all.push(CoverColumn { rows: list, cost })?;
        }
        Ok(Cover { rows, columns: all })
    }

    /// An assignment problem of this size with costs below a limit: each row and each column of a square once. Its vertices are highly
    /// degenerate.
    pub(crate) fn assignment(
        alloc: Global,
        dice: &mut Dice,
        size: u16,
        limit: u64,
    ) -> Result<Cover, AllocError> {
        let mut all = Vec::new(alloc);
        for left in 0..size {
            for right in 0..size {
                let mut rows = Vec::new(alloc);
                rows.push(left)?;
                rows.push(right.wrapping_add(size))?;
                let cost = i64::try_from(dice.below(limit)).unwrap_or(0);
                all.push(CoverColumn { rows, cost })?;
            }
        }
        let rows = size.wrapping_mul(2);
        Ok(Cover { rows, columns: all })
    }

    /// The program of a problem, with its columns from one on to before another. Their names are their numbers.
    pub(crate) fn program(
        &self,
        alloc: Global,
        settings: Settings,
        columns: usize,
    ) -> Result<LinearProgram, AllocError> {
        let rows = self.rows.min(1_000);
        let mut program = LinearProgram::new(alloc, rows, settings)?;
        self.add_columns(&mut program, 0, columns)?;
        Ok(program)
    }

    /// Adds columns from one on to before another to a program.
    pub(crate) fn add_columns(
        &self,
        program: &mut LinearProgram,
        first: usize,
        end: usize,
    ) -> Result<(), AllocError> {
        for (name, column) in self.columns.iter().enumerate() {
            if first <= name && name < end {
                let name = u32::try_from(name).unwrap_or(0);
                program.add_column(name, column.cost, column.rows.as_slice())?;
            }
        }
        Ok(())
    }
}

/// What the tests make programs with, at this perturbation.
pub(crate) fn settings(perturbation: u32) -> Settings {
    Settings {
        penalty: 10_000,
        greatest_cost: 1_000,
        perturbation,
    }
}
