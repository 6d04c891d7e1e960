//! Points in whole numbers.

use crate::layout::Layout;
use std::alloc::{AllocError, Global};

/// The best point that is known: its columns at 1 by their places in the layout, and its objective.
#[derive(Drop)]
pub struct Best {
    pub ones: Vec<usize>,
    pub objective: i128,
}

fn objective_of(layout: &Layout, ones: &[usize]) -> i128 {
    let mut objective = layout.constant;
    for place in ones {
        if let Some(column) = layout.columns.get(*place) {
            objective = objective.saturating_add(i128::from(column.cost));
        }
    }
    objective
}

/// Whether no block has two of the columns, which rise.
fn is_one_each(layout: &Layout, ones: &[usize]) -> bool {
    let mut last = None;
    for place in ones {
        let Some(column) = layout.columns.get(*place) else {
            return false;
        };
        if last == Some(column.block) {
            return false;
        }
        last = Some(column.block);
    }
    true
}

fn meets_row(layout: &Layout, ones: &[usize], row: usize, side: i64) -> bool {
    let mut sum: i128 = 0;
    for place in ones {
        if let Some(column) = layout.columns.get(*place) {
            if let Some(load) = column.loads.get(row) {
                sum = sum.saturating_add(i128::from(*load));
            }
        }
    }
    sum <= i128::from(side)
}

/// Whether a point, whose columns at 1 rise, meets all rows.
pub fn is_feasible(layout: &Layout, ones: &[usize]) -> bool {
    let sides = layout.right_sides.iter().enumerate();
    is_one_each(layout, ones) && all_met(layout, ones, sides.len())
}

fn all_met(layout: &Layout, ones: &[usize], count: usize) -> bool {
    for (row, side) in layout.right_sides.iter().enumerate().take(count) {
        if !meets_row(layout, ones, row, *side) {
            return false;
        }
    }
    true
}

impl Best {
    /// A point of these columns of the program, as far as they are open.
    pub fn of_columns(
        alloc: Global,
        layout: &Layout,
        columns: &[usize],
    ) -> Result<Best, AllocError> {
        let mut ones = Vec::new(alloc);
        for column in columns {
            if let Some(place) = layout.place_of(*column) {
                ones.push(place)?;
            }
        }
        ones.sort_unstable();
        Ok(Best::of_ones(layout, ones))
    }

    pub fn of_ones(layout: &Layout, ones: Vec<usize>) -> Best {
        let objective = objective_of(layout, ones.as_slice());
        Best { ones, objective }
    }

    pub fn copied(&self) -> Result<Best, AllocError> {
        Ok(Best {
            ones: self.ones.clone()?,
            objective: self.objective,
        })
    }

    /// The places of its columns in the program.
    pub fn columns(&self, alloc: Global, layout: &Layout) -> Result<Vec<usize>, AllocError> {
        let mut columns = Vec::new(alloc);
        for place in &self.ones {
            if let Some(column) = layout.columns.get(*place) {
                columns.push(column.place)?;
            }
        }
        Ok(columns)
    }
}
