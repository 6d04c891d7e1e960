//! The splits above a node, and what they leave.

use crate::layout::Layout;
use optimality::OpenSplit;
use std::alloc::{AllocError, Global};

/// A split that is open: its columns, rising, by their places in the layout, and the side that is looked at.
#[derive(Drop)]
pub struct Side {
    /// The block that is split; none where columns are fixed.
    pub block: Option<usize>,
    pub columns: Vec<usize>,
    pub is_high: bool,
}

impl Side {
    /// The low side of a split of a block.
    pub fn low(block: usize, columns: Vec<usize>) -> Side {
        Side {
            block: Some(block),
            columns,
            is_high: false,
        }
    }

    /// The split as the checker has it.
    pub fn open_split(&self, alloc: Global, layout: &Layout) -> Result<OpenSplit, AllocError> {
        let mut form = Vec::with_capacity(alloc, self.columns.len())?;
        for place in &self.columns {
            if let Some(column) = layout.columns.get(*place) {
                form.push((column.place, 1))?;
            }
        }
        Ok(OpenSplit {
            form,
            most: 0,
            is_high: self.is_high,
        })
    }
}

/// The split, at the side of all other points, from one with these columns at 1.
pub fn split_from(alloc: Global, layout: &Layout, ones: &[usize]) -> Result<OpenSplit, AllocError> {
    let mut form = Vec::with_capacity(alloc, layout.columns.len())?;
    for (place, column) in layout.columns.iter().enumerate() {
        form.push((column.place, if ones.contains(&place) { -1 } else { 1 }))?;
    }
    Ok(OpenSplit {
        form,
        most: (ones.len() as i128).saturating_neg(),
        is_high: true,
    })
}

/// What splits leave: the columns that are allowed, and for each block that has to win the number of its last high side.
#[derive(Drop)]
pub struct Left {
    pub allowed: Vec<bool>,
    pub places: Vec<usize>,
    pub forced: Vec<Option<usize>>,
}

impl Left {
    /// What sides leave of a layout.
    pub fn below(alloc: Global, layout: &Layout, sides: &[Side]) -> Result<Left, AllocError> {
        let mut allowed = Vec::with_capacity(alloc, layout.columns.len())?;
        for _ in &layout.columns {
            allowed.push(true)?;
        }
        let mut forced = Vec::with_capacity(alloc, layout.blocks.len())?;
        for _ in &layout.blocks {
            forced.push(None)?;
        }
        let mut left = Left {
            allowed,
            places: Vec::new(alloc),
            forced,
        };
        for (number, side) in sides.iter().enumerate() {
            left.go_to(layout, number, side);
        }
        for (place, is_allowed) in left.allowed.iter().enumerate() {
            if *is_allowed {
                left.places.push(place)?;
            }
        }
        Ok(left)
    }

    /// Takes away what a side doesn't allow.
    fn go_to(&mut self, layout: &Layout, number: usize, side: &Side) {
        match side.block {
            Some(block) if side.is_high => self.require(layout, number, block, side),
            // Of columns that are fixed, whichever their block is, one is 1: that leaves all of them.
            None if side.is_high => {}
            _ => self.exclude(side),
        }
    }

    fn exclude(&mut self, side: &Side) {
        for place in &side.columns {
            if let Some(is_allowed) = self.allowed.get_mut(*place) {
                *is_allowed = false;
            }
        }
    }

    fn require(&mut self, layout: &Layout, number: usize, block: usize, side: &Side) {
        if let Some(slot) = self.forced.get_mut(block) {
            *slot = Some(number);
        }
        let Some(members) = layout.blocks.get(block) else {
            return;
        };
        let flags = self.allowed.iter_mut().enumerate();
        for (place, is_allowed) in flags.skip(members.start).take(members.len) {
            if side.columns.binary_search(&place).is_err() {
                *is_allowed = false;
            }
        }
    }
}
