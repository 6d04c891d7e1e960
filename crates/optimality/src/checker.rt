//! What a certificate is checked with: the program, its rows, the splits that are open, and a leaf.

use crate::row_forms::RowForms;
use crate::sums::WideForm;
use program_rows::{NameSet, Selection};
use std::alloc::Global;
use std::cell::Cell;

/// What a certificate is checked against.
#[derive(Drop)]
pub struct Checker<'p> {
    pub alloc: Global,
    pub program: &'p Selection<'p>,
    /// Where the next column is looked for first.
    pub next_column: Cell<usize>,
    /// The names of the program's rows, in order.
    pub rows: NameSet<'p>,
    /// Where the next row is looked for first.
    pub next_row: Cell<usize>,
    /// Its rows as forms, but for a certificate of two lines or fewer, which has at most one leaf.
    pub row_forms: Option<RowForms>,
    /// The bound that the certificate is to show.
    pub least: i128,
}

/// A split, one side of which is closed.
#[derive(Drop)]
pub struct OpenSplit {
    /// Columns with their numbers, each once.
    pub form: WideForm,
    pub most: i128,
    /// Whether it is the second side, where the sum is above `most`.
    pub is_high: bool,
}

/// A leaf of a certificate.
#[derive(Drop)]
pub struct Leaf {
    pub scale: u64,
    /// One for each open split.
    pub multipliers: Vec<u64>,
    /// Places of rows, each with its multiplier.
    pub rows: Vec<(usize, i64)>,
}
