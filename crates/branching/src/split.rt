//! Splits of a block, and which ones part a point.

use crate::problem::{Column, Problem};
use simplex::Tableau;
use std::alloc::{AllocError, Global};

/// What counts as nothing, or as all.
const WHOLE: f64 = 1e-5;

/// Values above are taken for more than 0.
const POSITIVE: f64 = 1e-6;

/// Parts that differ by less are mostly those of the same split.
const SAME: f64 = 1e-9;

/// Which columns of a block a split is about.
#[derive(Clone, Copy, Debug)]
pub enum Measure {
    /// All of them.
    Any,
    /// Those that take so much of a shared row or more.
    Load { row: usize, load: f64 },
    /// One of them.
    Only(usize),
}

/// A split of a block: whether one of the columns is 1 that it is about.
#[derive(Clone, Copy, Debug)]
pub struct Split {
    pub block: usize,
    pub measure: Measure,
}

impl Split {
    /// Whether it is about a column of its block.
    pub fn counts(&self, place: usize, column: &Column) -> bool {
        match self.measure {
            Measure::Any => true,
            Measure::Load { row, load } => column.load(row) >= load,
            Measure::Only(only) => place == only,
        }
    }

    /// Goes to a side of the split.
    pub fn apply(&self, problem: &Problem, tableau: &mut Tableau, is_high: bool) {
        let Some(block) = problem.blocks.get(self.block) else {
            return;
        };
        let columns = problem.columns.iter().enumerate();
        for (place, column) in columns.skip(block.start).take(block.len) {
            if self.counts(place, column) != is_high {
                tableau.set_high(place, 0.0);
            }
        }
        if is_high {
            tableau.set_high(problem.block_slack(self.block), 0.0);
        }
    }

    /// How much of the columns that it is about a point takes.
    fn part(&self, problem: &Problem, values: &[f64]) -> f64 {
        let mut part = 0.0;
        let Some(block) = problem.blocks.get(self.block) else {
            return part;
        };
        let columns = problem.columns.iter().zip(values).enumerate();
        for (place, (column, value)) in columns.skip(block.start).take(block.len) {
            if *value > POSITIVE && self.counts(place, column) {
                part += *value;
            }
        }
        part
    }
}

/// A split, and the part of the point on its high side.
#[derive(Clone, Copy, Debug)]
pub struct Candidate {
    pub split: Split,
    pub part: f64,
}

/// Splits that part a point, each part of a block once.
#[derive(Drop)]
struct Candidates<'p> {
    problem: &'p Problem,
    values: &'p [f64],
    found: Vec<Candidate>,
}

impl<'p> Candidates<'p> {
    fn add(&mut self, split: Split) -> Result<(), AllocError> {
        let part = split.part(self.problem, self.values);
        if part < WHOLE || part > 1.0 - WHOLE {
            return Ok(());
        }
        let is_known = self.found.iter().any(|known| {
            known.split.block == split.block && (known.part - part).abs() < SAME
        });
        if is_known {
            return Ok(());
        }
        self.found.push(Candidate { split, part })?;
        Ok(())
    }

    /// Adds the splits by what a column takes of shared rows.
    fn add_loads(&mut self, block: usize, column: &Column) -> Result<(), AllocError> {
        let loads = column.loads.iter().enumerate();
        for (row, load) in loads.take(self.problem.split_rows) {
            if *load > 0.0 {
                self.add(Split {
                    block,
                    measure: Measure::Load { row, load: *load },
                })?;
            }
        }
        Ok(())
    }

    /// Adds the splits of a block.
    fn add_block(&mut self, place: usize) -> Result<(), AllocError> {
        let Some(block) = self.problem.blocks.get(place) else {
            return Ok(());
        };
        self.add(Split {
            block: place,
            measure: Measure::Any,
        })?;
        let columns = self.problem.columns.iter().zip(self.values);
        for (column, value) in columns.skip(block.start).take(block.len) {
            if *value > POSITIVE {
                self.add_loads(place, column)?;
            }
        }
        Ok(())
    }

    /// Adds the splits at single columns of a block: they part a point that loads don't part.
    fn add_columns(&mut self, place: usize) -> Result<(), AllocError> {
        let Some(block) = self.problem.blocks.get(place) else {
            return Ok(());
        };
        let values = self.values.iter().enumerate();
        for (column, value) in values.skip(block.start).take(block.len) {
            if *value > POSITIVE {
                self.add(Split {
                    block: place,
                    measure: Measure::Only(column),
                })?;
            }
        }
        Ok(())
    }
}

/// The splits that part a point.
pub fn find_candidates(
    alloc: Global,
    problem: &Problem,
    values: &[f64],
) -> Result<Vec<Candidate>, AllocError> {
    let mut candidates = Candidates {
        problem,
        values,
        found: Vec::new(alloc),
    };
    for place in 0..problem.blocks.len() {
        candidates.add_block(place)?;
    }
    if candidates.found.is_empty() {
        for place in 0..problem.blocks.len() {
            candidates.add_columns(place)?;
        }
    }
    Ok(candidates.found)
}
