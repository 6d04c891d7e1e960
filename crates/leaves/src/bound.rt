//! What whole prices of the shared rows show at a node, and the leaf that shows it.
//!
//! Given prices, the best multiplier of each block follows: the least of its priced costs. So a bound needs only prices, however they
//! were found.

use crate::layout::Layout;
use crate::path::{Left, Side};
use optimality::Leaf;
use std::alloc::{AllocError, Global};

/// Prices of the shared rows at a scale, in whole numbers.
#[derive(Drop)]
pub struct Prices {
    pub scale: i64,
    pub whole: Vec<i64>,
}

/// What each block adds to the bound, and the bound.
#[derive(Drop)]
pub struct Bound {
    pub parts: Vec<i64>,
    pub value: i128,
}

impl Prices {
    /// The cost of a column with what the prices add.
    fn priced(&self, layout: &Layout, place: usize) -> i64 {
        let Some(column) = layout.columns.get(place) else {
            return 0;
        };
        let mut cost = column.cost.saturating_mul(self.scale);
        for (load, price) in column.loads.iter().zip(&self.whole) {
            cost = cost.saturating_add(load.saturating_mul(*price));
        }
        cost
    }

    /// The value of the node that is left: no point's scaled objective is below it.
    pub fn bound(&self, alloc: Global, layout: &Layout, left: &Left) -> Result<Bound, AllocError> {
        let mut parts = Vec::with_capacity(alloc, layout.blocks.len())?;
        for forced in &left.forced {
            parts.push(if forced.is_some() { i64::MAX } else { 0 })?;
        }
        for place in &left.places {
            if let Some(column) = layout.columns.get(*place) {
                if let Some(part) = parts.get_mut(column.block) {
                    *part = (*part).min(self.priced(layout, *place));
                }
            }
        }
        let mut value = i128::from(self.scale).saturating_mul(layout.constant);
        for part in parts.iter_mut() {
            // A block that has to win and has no column left: any number is right.
            if *part == i64::MAX {
                *part = 1;
            }
            value = value.saturating_add(i128::from(*part));
        }
        for (price, side) in self.whole.iter().zip(&layout.right_sides) {
            let product = i128::from(*price).saturating_mul(i128::from(*side));
            value = value.saturating_sub(product);
        }
        Ok(Bound { parts, value })
    }

    /// The least by which one of these columns raises a bound.
    pub fn least_rise(&self, layout: &Layout, bound: &Bound, columns: &[usize]) -> i64 {
        let mut least = i64::MAX;
        for place in columns {
            if let Some(column) = layout.columns.get(*place) {
                let part = match bound.parts.get(column.block) {
                    Some(part) => *part,
                    None => 0,
                };
                least = least.min(self.priced(layout, *place).saturating_sub(part));
            }
        }
        least.max(0)
    }
}

/// The multipliers of a leaf, and the reduced costs that they leave.
#[derive(Drop)]
struct Multipliers<'l> {
    layout: &'l Layout,
    reduced: Vec<i64>,
    blocks: Vec<i64>,
    sides: Vec<i64>,
}

fn least_of(reduced: &[i64], columns: &[usize]) -> i64 {
    let mut least: i64 = 0;
    for place in columns {
        if let Some(cost) = reduced.get(*place) {
            least = least.min(*cost);
        }
    }
    least
}

impl<'l> Multipliers<'l> {
    /// The multipliers of blocks alone, which lift reduced costs to 0.
    fn of_blocks(
        alloc: Global,
        layout: &'l Layout,
        prices: &Prices,
        bound: &Bound,
        sides: &[Side],
    ) -> Result<Multipliers<'l>, AllocError> {
        let mut blocks = Vec::with_capacity(alloc, bound.parts.len())?;
        for part in &bound.parts {
            blocks.push((*part).min(0).saturating_neg())?;
        }
        let mut reduced = Vec::with_capacity(alloc, layout.columns.len())?;
        for (place, column) in layout.columns.iter().enumerate() {
            let of_block = match blocks.get(column.block) {
                Some(multiplier) => *multiplier,
                None => 0,
            };
            reduced.push(prices.priced(layout, place).saturating_add(of_block))?;
        }
        let mut of_sides = Vec::with_capacity(alloc, sides.len())?;
        for _ in sides {
            of_sides.push(0)?;
        }
        Ok(Multipliers {
            layout,
            reduced,
            blocks,
            sides: of_sides,
        })
    }

    /// Adds to the multiplier of a side.
    fn raise(&mut self, number: usize, side: &Side, by: i64) {
        if let Some(multiplier) = self.sides.get_mut(number) {
            *multiplier = multiplier.saturating_add(by);
        }
        for place in &side.columns {
            if let Some(cost) = self.reduced.get_mut(*place) {
                *cost = if side.is_high {
                    cost.saturating_sub(by)
                } else {
                    cost.saturating_add(by)
                };
            }
        }
    }

    /// The least reduced cost of the columns of a block outside of a side, or 0.
    fn least_outside(&self, block: usize, side: &Side) -> i64 {
        let mut least: i64 = 0;
        if let Some(members) = self.layout.blocks.get(block) {
            let costs = self.reduced.iter().enumerate();
            for (place, cost) in costs.skip(members.start).take(members.len) {
                if side.columns.binary_search(&place).is_err() {
                    least = least.min(*cost);
                }
            }
        }
        least
    }

    /// Sets the multiplier of a block's row.
    fn set_block(&mut self, block: usize, multiplier: i64) {
        let Some(slot) = self.blocks.get_mut(block) else {
            return;
        };
        let change = multiplier.saturating_sub(*slot);
        *slot = multiplier;
        if let Some(members) = self.layout.blocks.get(block) {
            for cost in self
                .reduced
                .iter_mut()
                .skip(members.start)
                .take(members.len)
            {
                *cost = cost.saturating_add(change);
            }
        }
    }

    /// Has the columns within a high side pay for it, and the block's row for those outside.
    fn force(&mut self, block: usize, number: usize, side: &Side, part: i64) {
        let before = match self.blocks.get(block) {
            Some(multiplier) => *multiplier,
            None => 0,
        };
        let outside = self.least_outside(block, side).saturating_sub(before);
        let multiplier = part.saturating_neg().max(outside.saturating_neg()).max(0);
        self.set_block(block, multiplier);
        self.raise(number, side, part.saturating_add(multiplier).max(0));
    }

    /// Has each side pay for what it excludes or requires.
    fn pay(&mut self, left: &Left, bound: &Bound, sides: &[Side]) {
        for (block, forced) in left.forced.iter().enumerate() {
            if let Some(number) = forced {
                if let (Some(side), Some(part)) = (sides.get(*number), bound.parts.get(block)) {
                    self.force(block, *number, side, *part);
                }
            }
        }
        for (number, side) in sides.iter().enumerate() {
            if side.is_high && side.block.is_none() {
                let least = self.least_within(side);
                self.raise(number, side, least);
            } else if !side.is_high {
                let least = least_of(self.reduced.as_slice(), side.columns.as_slice());
                self.raise(number, side, least.saturating_neg());
            }
        }
    }

    /// The least reduced cost of the columns of a side, if that is above 0.
    fn least_within(&self, side: &Side) -> i64 {
        let mut least = i64::MAX;
        for place in &side.columns {
            if let Some(cost) = self.reduced.get(*place) {
                least = least.min(*cost);
            }
        }
        if side.columns.is_empty() {
            0
        } else {
            least.max(0)
        }
    }
}

fn at_least_0(number: i64) -> u64 {
    if number > 0 { number as u64 } else { 0 }
}

/// The leaf of these prices.
pub fn leaf_of(
    alloc: Global,
    layout: &Layout,
    sides: &[Side],
    left: &Left,
    prices: &Prices,
    bound: &Bound,
) -> Result<Leaf, AllocError> {
    let mut made = Multipliers::of_blocks(alloc, layout, prices, bound, sides)?;
    made.pay(left, bound, sides);
    let mut rows = Vec::new(alloc);
    for (row, multiplier) in layout.block_rows.iter().zip(&made.blocks) {
        if *multiplier != 0 {
            rows.push((*row, *multiplier))?;
        }
    }
    for (row, price) in layout.shared_rows.iter().zip(&prices.whole) {
        if *price != 0 {
            rows.push((*row, *price))?;
        }
    }
    let mut multipliers = Vec::new(alloc);
    for price in prices.whole.iter().skip(layout.shared_rows.len()) {
        multipliers.push(at_least_0(*price))?;
    }
    for multiplier in &made.sides {
        multipliers.push(at_least_0(*multiplier))?;
    }
    Ok(Leaf {
        scale: at_least_0(prices.scale),
        multipliers,
        rows,
    })
}
