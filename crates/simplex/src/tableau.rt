//! A tableau, and its dual simplex with bound flipping.

use crate::row::Row;
use std::alloc::{AllocError, Global};

/// What a value may miss its bounds by.
const SLACK: f64 = 1e-7;
/// The least number that is divided by.
const LEAST_PIVOT: f64 = 1e-9;
/// Ratios that differ by less are the same.
const SAME: f64 = 1e-12;
/// A bound that is none.
const NO_BOUND: f64 = 1e29;

/// Where a column stands.
#[derive(Clone, Copy, PartialEq, Eq, Debug)]
pub enum Standing {
    Low,
    High,
    Basic,
}

/// A column, whose value is from 0 to `high`.
#[derive(Clone, Copy, Debug)]
pub struct Column {
    pub high: f64,
    pub standing: Standing,
}

/// A row that no point meets, and how far the prices have to move along it at least.
#[derive(Clone, Copy, Debug)]
pub struct Ray {
    pub row: usize,
    pub is_low: bool,
    pub ratio: f64,
    pub slope: f64,
}

/// Where the dual simplex ended.
#[derive(Clone, Copy, Debug)]
pub enum End {
    Optimal,
    Infeasible(Ray),
    /// The objective is above the goal.
    Above,
    /// The steps are used up.
    Stopped,
}

/// A row whose value is outside of its bounds.
#[derive(Clone, Copy, Debug)]
struct Leaving {
    row: usize,
    excess: f64,
    is_low: bool,
}

/// A column that may enter, once the prices have moved by the ratio.
#[derive(Clone, Copy, Debug)]
struct Break {
    ratio: f64,
    slope: f64,
    column: usize,
}

#[derive(Drop)]
pub struct Tableau {
    pub columns: Vec<Column>,
    pub rows: Vec<Row>,
    /// The reduced costs, and minus the objective.
    pub objective: Row,
    pivot: Vec<f64>,
    breaks: Vec<Break>,
    /// How many cells pivots and copies have touched.
    pub steps: u64,
}

impl Tableau {
    /// A tableau in which each row has a column of its own.
    pub fn new(
        alloc: Global,
        columns: Vec<Column>,
        rows: Vec<Row>,
        objective: Row,
    ) -> Result<Tableau, AllocError> {
        let mut pivot = Vec::with_capacity(alloc, columns.len())?;
        for _ in &columns {
            pivot.push(0.0)?;
        }
        Ok(Tableau {
            columns,
            rows,
            objective,
            pivot,
            breaks: Vec::new(alloc),
            steps: 0,
        })
    }

    pub fn objective(&self) -> f64 {
        -self.objective.value
    }

    /// The row whose value is farthest outside of its bounds.
    fn find_leaving(&self) -> Option<Leaving> {
        let mut leaving = None;
        let mut worst = SLACK;
        for (place, row) in self.rows.iter().enumerate() {
            if -row.value > worst {
                worst = -row.value;
                leaving = Some(Leaving {
                    row: place,
                    excess: worst,
                    is_low: true,
                });
            }
            if row.value - row.high > worst {
                worst = row.value - row.high;
                leaving = Some(Leaving {
                    row: place,
                    excess: worst,
                    is_low: false,
                });
            }
        }
        leaving
    }

    /// The columns that may enter where a row's column leaves.
    fn find_breaks(&mut self, leaving: Leaving) -> Result<(), AllocError> {
        self.breaks.clear();
        let Some(row) = self.rows.get(leaving.row) else {
            return Ok(());
        };
        let columns = self.columns.iter().zip(&self.objective.cells);
        for (place, (cell, (column, reduced))) in row.cells.iter().zip(columns).enumerate() {
            if column.high <= 0.0 {
                continue;
            }
            let slope = match column.standing {
                Standing::Basic => continue,
                Standing::Low => *cell,
                Standing::High => -*cell,
            };
            let slope = if leaving.is_low { -slope } else { slope };
            if slope > LEAST_PIVOT {
                self.breaks.push(Break {
                    ratio: reduced.abs() / slope,
                    slope,
                    column: place,
                })?;
            }
        }
        Ok(())
    }

    /// The next break, by its ratio and then the greatest slope.
    fn take_nearest(&mut self) -> Option<Break> {
        let mut nearest = *self.breaks.first()?;
        let mut place: usize = 0;
        for (i, other) in self.breaks.iter().enumerate() {
            let is_same = other.ratio <= nearest.ratio + SAME && other.slope > nearest.slope;
            if other.ratio < nearest.ratio - SAME || is_same {
                nearest = *other;
                place = i;
            }
        }
        if place < self.breaks.len() {
            self.breaks.swap_remove(place);
        }
        Some(nearest)
    }

    fn high(&self, column: usize) -> f64 {
        match self.columns.get(column) {
            Some(column) => column.high,
            None => 0.0,
        }
    }

    fn shift(&mut self, column: usize, change: f64) {
        for row in self.rows.iter_mut() {
            row.shift(column, change);
        }
        self.objective.shift(column, change);
    }

    /// Sets a column that isn't basic to its other bound.
    pub fn flip(&mut self, place: usize) {
        let Some(column) = self.columns.get_mut(place) else {
            return;
        };
        let change = match column.standing {
            Standing::Basic => return,
            Standing::Low => {
                column.standing = Standing::High;
                column.high
            }
            Standing::High => {
                column.standing = Standing::Low;
                -column.high
            }
        };
        self.shift(place, change);
    }

    /// The column that enters: those before it are set to their other bound.
    fn find_entering(&mut self, leaving: Leaving) -> Result<usize, Ray> {
        let mut slope = leaving.excess;
        let mut ratio = 0.0;
        for _ in 0..self.breaks.len() {
            let Some(next) = self.take_nearest() else {
                break;
            };
            ratio = next.ratio;
            let high = self.high(next.column);
            slope -= next.slope * high;
            let is_last = self.breaks.is_empty();
            if slope <= SAME || (is_last && (slope <= SLACK || high >= NO_BOUND)) {
                return Ok(next.column);
            }
            if is_last {
                break;
            }
            self.flip(next.column);
        }
        Err(Ray {
            row: leaving.row,
            is_low: leaving.is_low,
            ratio,
            slope,
        })
    }

    fn count(&mut self, touched: usize) {
        self.steps = self.steps.saturating_add(touched as u64);
    }

    /// How many cells the rows have.
    pub fn size(&self) -> usize {
        self.columns.len().saturating_mul(self.rows.len())
    }

    /// The steps since the last call.
    pub fn take_steps(&mut self) -> u64 {
        let steps = self.steps;
        self.steps = 0;
        steps
    }

    fn pivot(&mut self, leaving: Leaving, entering: usize) {
        let Some(column) = self.columns.get_mut(entering) else {
            return;
        };
        let Some(row) = self.rows.get_mut(leaving.row) else {
            return;
        };
        let start = match column.standing {
            Standing::High => column.high,
            _ => 0.0,
        };
        let end = if leaving.is_low { 0.0 } else { row.high };
        let change = (row.value - end) / row.cell(entering);
        let left = row.column;
        row.divide(entering, self.pivot.as_mut_slice());
        row.column = entering;
        row.high = column.high;
        column.standing = Standing::Basic;
        if let Some(column) = self.columns.get_mut(left) {
            column.standing = if leaving.is_low {
                Standing::Low
            } else {
                Standing::High
            };
        }
        let mut touched: usize = self.pivot.len();
        for (place, other) in self.rows.iter_mut().enumerate() {
            if place == leaving.row {
                other.value = start + change;
            } else {
                other.shift(entering, change);
                touched = touched.saturating_add(other.clear(self.pivot.as_slice(), entering));
            }
        }
        self.objective.shift(entering, change);
        touched = touched.saturating_add(self.objective.clear(self.pivot.as_slice(), entering));
        self.count(touched);
    }

    /// Makes the tableau optimal again, in so many steps, or until the objective is above the goal.
    pub fn reoptimise(&mut self, steps: usize, goal: f64) -> Result<End, AllocError> {
        for step in 0..steps {
            if step % 4 == 3 && self.objective() > goal {
                return Ok(End::Above);
            }
            let Some(leaving) = self.find_leaving() else {
                return Ok(End::Optimal);
            };
            self.find_breaks(leaving)?;
            match self.find_entering(leaving) {
                Ok(entering) => self.pivot(leaving, entering),
                Err(ray) => return Ok(End::Infeasible(ray)),
            }
        }
        Ok(End::Stopped)
    }

    /// Gives a column another greatest value.
    pub fn set_high(&mut self, place: usize, high: f64) {
        let Some(column) = self.columns.get_mut(place) else {
            return;
        };
        let change = high - column.high;
        column.high = high;
        match column.standing {
            Standing::Low => {}
            Standing::High => {
                if high <= 0.0 {
                    column.standing = Standing::Low;
                }
                self.shift(place, change);
            }
            Standing::Basic => {
                for row in self.rows.iter_mut() {
                    if row.column == place {
                        row.high = high;
                    }
                }
            }
        }
    }

    fn copy_columns(&mut self, other: &Tableau) {
        for (column, of_other) in self.columns.iter_mut().zip(&other.columns) {
            *column = *of_other;
        }
    }

    /// Makes the tableau as another one of the same size is.
    pub fn copy_from(&mut self, other: &Tableau) {
        self.copy_columns(other);
        for (row, of_other) in self.rows.iter_mut().zip(&other.rows) {
            row.copy_from(of_other);
        }
        self.objective.copy_from(&other.objective);
        self.count(other.size());
    }

    /// Makes the tableau as the one is that was copied last, which is this one and was left as it was: only rows that differ from it are copied.
    pub fn restore(&mut self, other: &Tableau) {
        self.copy_columns(other);
        let mut touched = self.objective.restore(&other.objective);
        for (row, of_other) in self.rows.iter_mut().zip(&other.rows) {
            touched = touched.saturating_add(row.restore(of_other));
        }
        self.count(touched);
    }

    pub fn copied(&self, alloc: Global) -> Result<Tableau, AllocError> {
        let mut columns = Vec::with_capacity(alloc, self.columns.len())?;
        columns.extend_from_slice(self.columns.as_slice())?;
        let mut rows = Vec::with_capacity(alloc, self.rows.len())?;
        for row in &self.rows {
            rows.push(row.copied(alloc)?)?;
        }
        Tableau::new(alloc, columns, rows, self.objective.copied(alloc)?)
    }

    /// The value of each column.
    pub fn values(&self, alloc: Global) -> Result<Vec<f64>, AllocError> {
        let mut values = Vec::with_capacity(alloc, self.columns.len())?;
        for column in &self.columns {
            values.push(match column.standing {
                Standing::High => column.high,
                _ => 0.0,
            })?;
        }
        for row in &self.rows {
            if let Some(value) = values.get_mut(row.column) {
                *value = row.value;
            }
        }
        Ok(values)
    }
}
