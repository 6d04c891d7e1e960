//! The relaxation at the root of a search: the prices of the shared rows, what each column costs at them, and a first point.

use crate::layout::Layout;
use branching::{Measure, Search, Split};
use simplex::Tableau;
use std::alloc::{AllocError, Global};
use std::cmp::OrderedFloat;
use std::num::nearest_i64_to_f64;

/// Tables up to this size have all columns from the beginning.
const SMALL_TABLE: usize = 1_000_000;

/// How many columns of each block are added at a time.
const FEW: usize = 20;

/// Reduced costs below this are worth a column.
const WORTH: f64 = -1e-9;

/// The most rounds of columns.
const ROUNDS: usize = 60;

/// No goal: a relaxation is solved to its end.
const NO_GOAL: f64 = 1e30;

/// Values this near to 0 or 1 are taken for them.
const WHOLE: f64 = 1e-6;

/// The relaxation of all columns.
#[derive(Drop)]
pub struct Root {
    /// The prices of the shared rows.
    pub prices: Vec<f64>,
    /// The bound on all objectives.
    pub bound: f64,
    /// The reduced cost of each column.
    pub reduced: Vec<f64>,
    /// The columns at 1 in a point that was found on the way.
    pub ones: Vec<usize>,
    pub steps: u64,
}

/// A relaxation of some columns, which more are added to.
#[derive(Drop)]
struct Growing<'l> {
    alloc: Global,
    layout: &'l Layout,
    is_in: Vec<bool>,
    reduced: Vec<f64>,
}

impl<'l> Growing<'l> {
    fn new(alloc: Global, layout: &'l Layout) -> Result<Growing<'l>, AllocError> {
        let is_small = layout.table_size(layout.columns.len()) <= SMALL_TABLE;
        let mut is_in = Vec::with_capacity(alloc, layout.columns.len())?;
        let mut reduced = Vec::with_capacity(alloc, layout.columns.len())?;
        for column in &layout.columns {
            is_in.push(is_small)?;
            reduced.push(nearest_i64_to_f64(column.cost) / layout.unit)?;
        }
        Ok(Growing {
            alloc,
            layout,
            is_in,
            reduced,
        })
    }

    /// Adds the columns of each block that lack most. Returns how many there are.
    fn add_worth(&mut self) -> Result<usize, AllocError> {
        let mut added: usize = 0;
        for block in &self.layout.blocks {
            let mut worth: Vec<(f64, usize)> = Vec::new(self.alloc);
            let columns = self.reduced.iter().zip(&self.is_in).enumerate();
            for (place, (reduced, is_in)) in columns.skip(block.start).take(block.len) {
                if *reduced < WORTH && !*is_in {
                    worth.push((*reduced, place))?;
                }
            }
            worth.sort_by_key(|(reduced, _)| OrderedFloat(*reduced))?;
            for (_, place) in worth.iter().take(FEW) {
                if let Some(is_in) = self.is_in.get_mut(*place) {
                    *is_in = true;
                    added = added.saturating_add(1);
                }
            }
        }
        Ok(added)
    }

    /// The columns that are in it.
    fn core(&self) -> Result<Vec<usize>, AllocError> {
        let mut core = Vec::new(self.alloc);
        for (place, is_in) in self.is_in.iter().enumerate() {
            if *is_in {
                core.push(place)?;
            }
        }
        Ok(core)
    }

    /// Works out the reduced costs of all columns.
    fn price(&mut self, prices: &[f64], of_blocks: &[f64]) {
        for (slot, column) in self.reduced.iter_mut().zip(&self.layout.columns) {
            let mut reduced = nearest_i64_to_f64(column.cost) / self.layout.unit;
            for (load, price) in column.loads.iter().zip(prices) {
                reduced += nearest_i64_to_f64(*load) * *price;
            }
            if let Some(price) = of_blocks.get(column.block) {
                reduced += *price;
            }
            *slot = reduced;
        }
    }
}

/// The prices of the rows with these slacks.
pub fn prices_of(
    alloc: Global,
    tableau: &Tableau,
    first: usize,
    count: usize,
) -> Result<Vec<f64>, AllocError> {
    let mut prices = Vec::with_capacity(alloc, count)?;
    for cell in tableau.objective.cells.iter().skip(first).take(count) {
        prices.push((*cell).max(0.0))?;
    }
    Ok(prices)
}

/// The column that is nearest to 1 of those that are parted; of several the first one.
fn most_parted(values: &[f64], count: usize) -> Option<usize> {
    let mut most = WHOLE;
    let mut chosen = None;
    for (place, value) in values.iter().enumerate().take(count) {
        if *value > most && *value < 1.0 - WHOLE {
            most = *value;
            chosen = Some(place);
        }
    }
    chosen
}

/// The columns at 1.
pub fn ones_of(alloc: Global, values: &[f64], core: &[usize]) -> Result<Vec<usize>, AllocError> {
    let mut ones = Vec::new(alloc);
    for (value, place) in values.iter().zip(core) {
        if *value > 0.5 {
            ones.push(*place)?;
        }
    }
    Ok(ones)
}

/// Settles one block after the other as the relaxation has it. The point that it ends at, if it has one.
fn dive(
    search: &mut Search<'_>,
    tableau: &mut Tableau,
    core: &[usize],
) -> Result<Vec<usize>, AllocError> {
    for _ in 0..search.problem.blocks.len() {
        let values = tableau.values(search.alloc)?;
        let Some(column) = most_parted(values.as_slice(), core.len()) else {
            return ones_of(search.alloc, values.as_slice(), core);
        };
        let blocks = search.problem.blocks.iter().enumerate();
        for (place, block) in blocks {
            if column >= block.start && column.saturating_sub(block.start) < block.len {
                let split = Split {
                    block: place,
                    measure: Measure::Only(column),
                };
                split.apply(search.problem, tableau, true);
            }
        }
        search.bound(tableau)?;
    }
    Ok(Vec::new(search.alloc))
}

/// Solves the relaxation, with a few columns of each block at first if there are many.
pub fn solve_root(alloc: Global, layout: &Layout) -> Result<Root, AllocError> {
    let mut growing = Growing::new(alloc, layout)?;
    growing.add_worth()?;
    let mut root = Root {
        prices: Vec::new(alloc),
        bound: -NO_GOAL,
        reduced: Vec::new(alloc),
        ones: Vec::new(alloc),
        steps: 0,
    };
    for _ in 0..ROUNDS {
        let core = growing.core()?;
        let problem = layout.problem(alloc, core.as_slice())?;
        let mut tableau = problem.root(alloc)?;
        let mut search = Search::new(alloc, &problem, NO_GOAL, &tableau)?;
        search.bound(&mut tableau)?;
        let first = problem.row_slack(0);
        root.prices = prices_of(alloc, &tableau, first, problem.right_sides.len())?;
        root.bound = tableau.objective();
        let of_blocks = prices_of(
            alloc,
            &tableau,
            problem.block_slack(0),
            problem.blocks.len(),
        )?;
        growing.price(root.prices.as_slice(), of_blocks.as_slice());
        let is_last = growing.add_worth()? == 0;
        if is_last {
            root.ones = dive(&mut search, &mut tableau, core.as_slice())?;
        }
        root.steps = root.steps.saturating_add(search.take_steps());
        if is_last {
            break;
        }
    }
    root.reduced = growing.reduced;
    Ok(root)
}

impl Root {
    /// The columns whose reduced costs are within a gap.
    pub fn core(&self, alloc: Global, gap: f64) -> Result<Vec<usize>, AllocError> {
        let mut core = Vec::new(alloc);
        for (place, reduced) in self.reduced.iter().enumerate() {
            if *reduced <= gap {
                core.push(place)?;
            }
        }
        Ok(core)
    }

    /// How many columns are within a gap.
    pub fn count(&self, gap: f64) -> usize {
        self.reduced
            .iter()
            .filter(|reduced| **reduced <= gap)
            .count()
    }
}
