//! A 0-1 program as the search sees it.

use simplex::{Column as Bounds, Row, Standing, Tableau};
use std::alloc::{AllocError, Global};

/// A bound that is none.
const NO_BOUND: f64 = 1e30;

/// A column: its cost, and what it takes of each shared row.
#[derive(Drop)]
pub struct Column {
    pub cost: f64,
    pub loads: Vec<f64>,
}

impl Column {
    pub fn load(&self, row: usize) -> f64 {
        match self.loads.get(row) {
            Some(load) => *load,
            None => 0.0,
        }
    }
}

/// The columns of a bidder, one after the other, of which at most one is 1.
#[derive(Clone, Copy, Debug)]
pub struct Block {
    pub start: usize,
    pub len: usize,
}

/// Columns block by block, and the rows that blocks share, each at most its right side.
#[derive(Drop)]
pub struct Problem {
    pub columns: Vec<Column>,
    pub blocks: Vec<Block>,
    pub right_sides: Vec<f64>,
    /// How many of the shared rows, the first ones, splits may be made by.
    pub split_rows: usize,
}

/// A row of zeros, but for a column that is basic in it.
fn unit_row(
    alloc: Global,
    width: usize,
    column: usize,
    value: f64,
    high: f64,
) -> Result<Row, AllocError> {
    let mut cells = Vec::with_capacity(alloc, width)?;
    for place in 0..width {
        cells.push(if place == column { 1.0 } else { 0.0 })?;
    }
    Ok(Row::new(cells, value, column, high))
}

/// Adds slacks that go from 0 to a bound, and are basic.
fn add_slacks(bounds: &mut Vec<Bounds>, count: usize, high: f64) -> Result<(), AllocError> {
    for _ in 0..count {
        bounds.push(Bounds {
            high,
            standing: Standing::Basic,
        })?;
    }
    Ok(())
}

impl Problem {
    /// The place of a block's slack.
    pub fn block_slack(&self, block: usize) -> usize {
        self.columns.len().saturating_add(block)
    }

    /// The place of a shared row's slack.
    pub fn row_slack(&self, row: usize) -> usize {
        self.block_slack(self.blocks.len()).saturating_add(row)
    }

    /// How many columns a tableau has, with slacks.
    pub fn width(&self) -> usize {
        self.row_slack(self.right_sides.len())
    }

    fn bounds(&self, alloc: Global) -> Result<Vec<Bounds>, AllocError> {
        let mut bounds = Vec::with_capacity(alloc, self.width())?;
        for _ in &self.columns {
            bounds.push(Bounds {
                high: 1.0,
                standing: Standing::Low,
            })?;
        }
        add_slacks(&mut bounds, self.blocks.len(), 1.0)?;
        add_slacks(&mut bounds, self.right_sides.len(), NO_BOUND)?;
        Ok(bounds)
    }

    fn block_row(&self, alloc: Global, place: usize, block: Block) -> Result<Row, AllocError> {
        let mut row = unit_row(alloc, self.width(), self.block_slack(place), 1.0, 1.0)?;
        for cell in row.cells.iter_mut().skip(block.start).take(block.len) {
            *cell = 1.0;
        }
        Ok(row)
    }

    fn shared_row(&self, alloc: Global, place: usize, right_side: f64) -> Result<Row, AllocError> {
        let slack = self.row_slack(place);
        let mut row = unit_row(alloc, self.width(), slack, right_side, NO_BOUND)?;
        for (cell, column) in row.cells.iter_mut().zip(&self.columns) {
            *cell = column.load(place);
        }
        Ok(row)
    }

    fn rows(&self, alloc: Global) -> Result<Vec<Row>, AllocError> {
        let mut rows = Vec::new(alloc);
        for (place, block) in self.blocks.iter().enumerate() {
            rows.push(self.block_row(alloc, place, *block)?)?;
        }
        for (place, right_side) in self.right_sides.iter().enumerate() {
            rows.push(self.shared_row(alloc, place, *right_side)?)?;
        }
        Ok(rows)
    }

    fn objective(&self, alloc: Global) -> Result<Row, AllocError> {
        let width = self.width();
        let mut objective = unit_row(alloc, width, width, 0.0, 0.0)?;
        for (cell, column) in objective.cells.iter_mut().zip(&self.columns) {
            *cell = column.cost;
        }
        Ok(objective)
    }

    /// The tableau in which the slacks are basic, and each column stands at the bound that costs less.
    pub fn root(&self, alloc: Global) -> Result<Tableau, AllocError> {
        let bounds = self.bounds(alloc)?;
        let rows = self.rows(alloc)?;
        let objective = self.objective(alloc)?;
        let mut tableau = Tableau::new(alloc, bounds, rows, objective)?;
        for (place, column) in self.columns.iter().enumerate() {
            if column.cost < 0.0 {
                tableau.flip(place);
            }
        }
        Ok(tableau)
    }
}
