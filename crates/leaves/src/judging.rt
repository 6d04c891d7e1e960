//! Leaves that the checker of certificates takes.

ghost use Rattle.optimality.specs.Checking.{IsPrepared};

use crate::bound::{Prices, leaf_of};
use crate::layout::Layout;
use crate::path::{Left, Side};
use optimality::{Checker, Leaf, Limit, OpenSplit, Sums, is_above};
use std::alloc::{AllocError, Global};
use std::num::{nearest_i64_to_f64, saturating_f64_to_i64};

/// The scales of a leaf, in the order in which they are tried.
const SCALES: [i64; 6] = [1, 16, 256, 4_096, 65_536, 1_048_576];

/// A node that a leaf is to show: the splits above it, as the layout and as the checker has them.
#[derive(Drop)]
pub struct Place<'n> {
    pub layout: &'n Layout,
    pub sides: &'n [Side],
    pub splits: &'n [OpenSplit],
}

/// Prices of the search in whole numbers at a scale.
fn rounded(
    alloc: Global,
    layout: &Layout,
    prices: &[f64],
    scale: i64,
) -> Result<Prices, AllocError> {
    let factor = layout.unit * nearest_i64_to_f64(scale);
    let mut whole = Vec::with_capacity(alloc, prices.len())?;
    for price in prices {
        whole.push(saturating_f64_to_i64(*price * factor + 0.5).max(0))?;
    }
    Ok(Prices { scale, whole })
}

/// What comes of prices.
#[derive(Drop)]
enum Shown {
    By(Leaf),
    /// The bound is missed by so much.
    Not(i128),
}

/// The leaf of whole prices, if the checker takes it.
fn show(
    checker: &Checker<'_>,
    sums: &mut Sums,
    place: &Place<'_>,
    left: &Left,
    prices: &Prices,
) -> Result<Shown, Limit>
    requires { IsPrepared checker.now }
{
    let alloc = checker.alloc;
    let bound = prices.bound(alloc, place.layout, left)?;
    let mut value = bound.value;
    if let Some(
        Side {
            block: None,
            columns,
            is_high: true,
        },
    ) = place.sides.last()
    {
        let rise = prices.least_rise(place.layout, &bound, columns.as_slice());
        value = value.saturating_add(i128::from(rise));
    }
    let goal = i128::from(prices.scale).saturating_mul(checker.least.saturating_sub(1));
    if value <= goal {
        return Ok(Shown::Not(goal.saturating_sub(value)));
    }
    let leaf = leaf_of(alloc, place.layout, place.sides, left, prices, &bound)?;
    if leaf.multipliers.len() != place.splits.len() {
        return Ok(Shown::Not(0));
    }
    match is_above(checker, sums, place.splits, &leaf) {
        Ok(true) => Ok(Shown::By(leaf)),
        Ok(false) | Err(Limit::TooLarge) => Ok(Shown::Not(0)),
        Err(Limit::Memory) => Err(Limit::Memory),
    }
}

/// The leaf of a node by prices of the shared rows, at the first scale at which the checker takes it; none if there is none.
pub fn judged(
    checker: &Checker<'_>,
    sums: &mut Sums,
    place: &Place<'_>,
    prices: &[f64],
) -> Result<Option<Leaf>, Limit>
    requires { IsPrepared checker.now }
{
    let alloc = checker.alloc;
    let left = Left::below(alloc, place.layout, place.sides)?;
    for scale in SCALES {
        let whole = rounded(alloc, place.layout, prices, scale)?;
        match show(checker, sums, place, &left, &whole)? {
            Shown::By(leaf) => return Ok(Some(leaf)),
            Shown::Not(gap) if gap > place.layout.loss => return Ok(None),
            Shown::Not(_) => {}
        }
    }
    Ok(None)
}

/// The leaf of a node with one point at most: that point is no better, or breaks a row.
pub fn judged_point(
    checker: &Checker<'_>,
    sums: &mut Sums,
    place: &Place<'_>,
) -> Result<Option<Leaf>, Limit>
    requires { IsPrepared checker.now }
{
    let alloc = checker.alloc;
    let left = Left::below(alloc, place.layout, place.sides)?;
    let count = place.layout.right_sides.len();
    let free = single_price(alloc, count, count, 1)?;
    if let Shown::By(leaf) = show(checker, sums, place, &left, &free)? {
        return Ok(Some(leaf));
    }
    for row in 0..count {
        let of_row = single_price(alloc, count, row, 0)?;
        if let Shown::By(leaf) = show(checker, sums, place, &left, &of_row)? {
            return Ok(Some(leaf));
        }
    }
    Ok(None)
}

/// The price 1 of one row, at a scale.
fn single_price(alloc: Global, count: usize, row: usize, scale: i64) -> Result<Prices, AllocError> {
    let mut whole = Vec::with_capacity(alloc, count)?;
    for place in 0..count {
        whole.push(if place == row { 1 } else { 0 })?;
    }
    Ok(Prices { scale, whole })
}
