//! A row of a tableau.

use std::alloc::{AllocError, Global};

/// Numbers below this are taken for 0.
const TINY: f64 = 1e-11;

/// A row: what it has of each column, and the column that is basic in it, from 0 to `high`.
#[derive(Drop)]
pub struct Row {
    pub cells: Vec<f64>,
    pub value: f64,
    pub column: usize,
    pub high: f64,
    /// Whether cells may differ from those of the row that was copied last.
    is_changed: bool,
}

impl Row {
    /// A row in which a column is basic.
    pub fn new(cells: Vec<f64>, value: f64, column: usize, high: f64) -> Row {
        Row {
            cells,
            value,
            column,
            high,
            is_changed: false,
        }
    }

    /// What the row has of a column.
    pub fn cell(&self, column: usize) -> f64 {
        match self.cells.get(column) {
            Some(cell) => *cell,
            None => 0.0,
        }
    }

    /// What follows for the row's value where a column's value changes.
    pub fn shift(&mut self, column: usize, change: f64) {
        self.value -= self.cell(column) * change;
    }

    /// Takes so much of the pivot row away that nothing of the column is left. Returns how many cells were touched.
    pub fn clear(&mut self, pivot: &[f64], column: usize) -> usize {
        let factor = self.cell(column);
        if factor == 0.0 {
            return 0;
        }
        self.is_changed = true;
        if factor > TINY || factor < -TINY {
            for (cell, of_pivot) in self.cells.iter_mut().zip(pivot) {
                *cell -= factor * *of_pivot;
            }
        }
        self.set_cell(column, 0.0);
        self.cells.len()
    }

    /// Divides the row by what it has of a column, into `pivot` too.
    pub fn divide(&mut self, column: usize, pivot: &mut [f64]) {
        self.is_changed = true;
        let inverse = 1.0 / self.cell(column);
        for (cell, of_pivot) in self.cells.iter_mut().zip(pivot.iter_mut()) {
            *cell *= inverse;
            *of_pivot = *cell;
        }
    }

    fn set_cell(&mut self, column: usize, value: f64) {
        if let Some(cell) = self.cells.get_mut(column) {
            *cell = value;
        }
    }

    /// Makes the row as another one of the same length is.
    pub fn copy_from(&mut self, other: &Row) {
        self.is_changed = true;
        self.restore(other);
    }

    /// Makes the row as the one is that was copied last, which is this one. Returns how many cells were copied.
    pub fn restore(&mut self, other: &Row) -> usize {
        self.value = other.value;
        self.column = other.column;
        self.high = other.high;
        if !self.is_changed {
            return 0;
        }
        for (cell, of_other) in self.cells.iter_mut().zip(&other.cells) {
            *cell = *of_other;
        }
        self.is_changed = false;
        self.cells.len()
    }

    pub fn copied(&self, alloc: Global) -> Result<Row, AllocError> {
        let mut cells = Vec::with_capacity(alloc, self.cells.len())?;
        cells.extend_from_slice(self.cells.as_slice())?;
        Ok(Row::new(cells, self.value, self.column, self.high))
    }
}
