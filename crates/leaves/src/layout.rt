//! A program as the search sees it, with its exact numbers.

use branching::{Block, Column, Problem};
use program_rows::{Bounds, RowKind, Selection};
use std::alloc::{AllocError, Global};
use std::num::nearest_i64_to_f64;

/// The largest cost is so many units of the search.
const LARGEST_COST: f64 = 1000.0;

/// An open column: its place in the program, its cost, and what it takes of each shared row.
#[derive(Drop)]
pub struct WholeColumn {
    pub place: usize,
    pub block: usize,
    pub cost: i64,
    pub loads: Vec<i64>,
}

/// The open columns of a program block by block, the row of each block, and the rows that blocks share. A block is a row that is at most
/// 1, of a bidder. After the program's own shared rows come those that leave points out, which are no rows of the program.
#[derive(Drop)]
pub struct Layout {
    pub columns: Vec<WholeColumn>,
    pub blocks: Vec<Block>,
    pub block_rows: Vec<usize>,
    pub shared_rows: Vec<usize>,
    /// Of the shared rows: what the columns leave that are fixed to 1.
    pub right_sides: Vec<i64>,
    /// What the columns cost that are fixed to 1.
    pub constant: i128,
    /// What a unit of the search costs.
    pub unit: f64,
    /// The most that prices lose by rounding, at any scale and in its units, if each moves by a half.
    pub loss: i128,
}

/// What a row of a program is here.
#[derive(Clone, Copy, Debug)]
enum Role {
    Block(usize),
    Shared(usize),
}

/// A layout that is being made, and the roles of the program's rows.
#[derive(Drop)]
struct Draft {
    layout: Layout,
    roles: Vec<Role>,
}

fn zeros(alloc: Global, count: usize) -> Result<Vec<i64>, AllocError> {
    let mut zeros = Vec::with_capacity(alloc, count)?;
    for _ in 0..count {
        zeros.push(0)?;
    }
    Ok(zeros)
}

impl Draft {
    fn new(alloc: Global) -> Draft {
        Draft {
            layout: Layout {
                columns: Vec::new(alloc),
                blocks: Vec::new(alloc),
                block_rows: Vec::new(alloc),
                shared_rows: Vec::new(alloc),
                right_sides: Vec::new(alloc),
                constant: 0,
                unit: 1.0,
                loss: 0,
            },
            roles: Vec::new(alloc),
        }
    }

    /// Adds a row. Whether it has a form that is known here.
    fn add_row(&mut self, program: &Selection<'_>, row: usize) -> Result<bool, AllocError> {
        if row >= program.row_count() || program.row_kind(row) != RowKind::AtMost {
            return Ok(false);
        }
        let layout = &mut self.layout;
        if program.right_side(row) == 1 && program.row_name(row).first() == Some(&b'B') {
            self.roles.push(Role::Block(layout.block_rows.len()))?;
            layout.block_rows.push(row)?;
        } else {
            self.roles.push(Role::Shared(layout.shared_rows.len()))?;
            layout.shared_rows.push(row)?;
            layout.right_sides.push(program.right_side(row))?;
        }
        Ok(true)
    }

    /// Adds a column that may be 0 or 1. Whether it is in one block.
    fn add_open(
        &mut self,
        alloc: Global,
        program: &Selection<'_>,
        place: usize,
    ) -> Result<bool, AllocError> {
        if place >= program.column_count() {
            return Ok(false);
        }
        let mut loads = zeros(alloc, self.layout.shared_rows.len())?;
        let mut block = None;
        let entries = program.entries(place);
        for number in 0..entries.len() {
            let (row, load) = entries.entry(number);
            match self.roles.get(row) {
                Some(Role::Block(of_row)) if load == 1 && block.is_none() => block = Some(*of_row),
                Some(Role::Shared(of_row)) => {
                    if let Some(slot) = loads.get_mut(*of_row) {
                        *slot = load;
                    }
                }
                _ => return Ok(false),
            }
        }
        let Some(block) = block else {
            return Ok(false);
        };
        self.layout.columns.push(WholeColumn {
            place,
            block,
            cost: program.cost(place),
            loads,
        })?;
        Ok(true)
    }

    /// Takes a column that is fixed to 1 off the right sides.
    fn add_fixed(&mut self, program: &Selection<'_>, place: usize) -> bool {
        if place >= program.column_count() {
            return false;
        }
        let cost = i128::from(program.cost(place));
        self.layout.constant = self.layout.constant.saturating_add(cost);
        let entries = program.entries(place);
        for number in 0..entries.len() {
            let (row, load) = entries.entry(number);
            let Some(Role::Shared(of_row)) = self.roles.get(row) else {
                return false;
            };
            if let Some(side) = self.layout.right_sides.get_mut(*of_row) {
                *side = side.saturating_sub(load);
            }
        }
        true
    }

    /// Adds a column. Whether it has a form that is known here.
    fn add_column(
        &mut self,
        alloc: Global,
        program: &Selection<'_>,
        place: usize,
    ) -> Result<bool, AllocError> {
        if place >= program.column_count() {
            return Ok(false);
        }
        match program.bounds(place) {
            Bounds::Zero => Ok(true),
            Bounds::One => Ok(self.add_fixed(program, place)),
            Bounds::ZeroOrOne => self.add_open(alloc, program, place),
        }
    }

    /// Brings the columns of each block together.
    fn finish(mut self) -> Result<Layout, AllocError> {
        self.layout.columns.sort_by_key(|column| column.block)?;
        let mut start: usize = 0;
        for block in 0..self.layout.block_rows.len() {
            let columns = self.layout.columns.iter().skip(start);
            let len = columns.take_while(|column| column.block == block).count();
            self.layout.blocks.push(Block { start, len })?;
            start = start.saturating_add(len);
        }
        let mut largest: i64 = 1;
        for column in &self.layout.columns {
            largest = largest.max(column.cost.saturating_abs());
        }
        self.layout.unit = nearest_i64_to_f64(largest) / LARGEST_COST;
        self.layout.measure_loss();
        Ok(self.layout)
    }
}

/// The layout of a program; none if the program has another form than those of auctions.
pub fn lay_out(alloc: Global, program: &Selection<'_>) -> Result<Option<Layout>, AllocError> {
    let mut draft = Draft::new(alloc);
    for row in 0..program.row_count() {
        if !draft.add_row(program, row)? {
            return Ok(None);
        }
    }
    for place in 0..program.column_count() {
        if !draft.add_column(alloc, program, place)? {
            return Ok(None);
        }
    }
    Ok(Some(draft.finish()?))
}

/// A whole number that the search takes, or the nearest one that has 64 bits.
pub fn narrow(number: i128) -> i64 {
    match i64::try_from(number) {
        Ok(narrow) => narrow,
        Err(_) if number > 0 => i64::MAX,
        Err(_) => i64::MIN,
    }
}

impl Layout {
    /// Adds a row that all points meet but the one with these columns at 1.
    pub fn leave_out(&mut self, ones: &[usize]) -> Result<(), AllocError> {
        for (place, column) in self.columns.iter_mut().enumerate() {
            column
                .loads
                .push(if ones.contains(&place) { 1 } else { -1 })?;
        }
        self.right_sides
            .push((ones.len() as i64).saturating_sub(1))?;
        Ok(())
    }

    /// An objective as the search has it: in its units, without what is fixed.
    pub fn in_units(&self, objective: i128) -> f64 {
        nearest_i64_to_f64(narrow(objective.saturating_sub(self.constant))) / self.unit
    }

    /// How many cells a tableau of so many columns has.
    pub fn table_size(&self, columns: usize) -> usize {
        let rows = self.blocks.len().saturating_add(self.right_sides.len());
        columns.saturating_add(rows).saturating_mul(rows)
    }

    /// The place of a column of the program.
    pub fn place_of(&self, column: usize) -> Option<usize> {
        self.columns.iter().position(|known| known.place == column)
    }

    /// Measures what rounding loses: half of the right sides, and for each block half of the largest load of each row.
    fn measure_loss(&mut self) {
        let mut sides: i128 = 0;
        for side in &self.right_sides {
            sides = sides.saturating_add(i128::from(side.saturating_abs()));
        }
        let mut loads: i128 = 0;
        for row in 0..self.right_sides.len() {
            loads = loads.saturating_add(self.largest_load(row));
        }
        let of_blocks = loads.saturating_mul(self.blocks.len() as i128);
        self.loss = (sides.saturating_add(of_blocks) / 2).saturating_add(1);
    }

    /// The largest load of a row.
    fn largest_load(&self, row: usize) -> i128 {
        let mut largest: i64 = 0;
        for column in &self.columns {
            if let Some(load) = column.loads.get(row) {
                largest = largest.max(load.saturating_abs());
            }
        }
        i128::from(largest)
    }

    /// The problem of these columns, which rise.
    pub fn problem(&self, alloc: Global, core: &[usize]) -> Result<Problem, AllocError> {
        let mut columns = Vec::with_capacity(alloc, core.len())?;
        let mut blocks = Vec::new(alloc);
        for _ in &self.blocks {
            blocks.push(Block { start: 0, len: 0 })?;
        }
        for place in core {
            let Some(column) = self.columns.get(*place) else {
                continue;
            };
            if let Some(block) = blocks.get_mut(column.block) {
                if block.len == 0 {
                    block.start = columns.len();
                }
                block.len = block.len.saturating_add(1);
            }
            let mut loads = Vec::with_capacity(alloc, column.loads.len())?;
            for load in &column.loads {
                loads.push(nearest_i64_to_f64(*load))?;
            }
            let cost = nearest_i64_to_f64(column.cost) / self.unit;
            columns.push(Column { cost, loads })?;
        }
        let mut right_sides = Vec::new(alloc);
        for side in &self.right_sides {
            right_sides.push(nearest_i64_to_f64(*side))?;
        }
        Ok(Problem {
            columns,
            blocks,
            right_sides,
            split_rows: self.shared_rows.len(),
        })
    }
}
