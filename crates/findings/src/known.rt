//! Points of one program as points of another one: by the bids that their columns are of.

use auction_terms::Choice;
use program_rows::Selection;
use std::alloc::{AllocError, Global};

/// The bids of the columns.
pub fn choices_of(
    alloc: Global,
    program: &Selection<'_>,
    columns: &[usize],
) -> Result<Vec<Choice>, AllocError> {
    let mut choices = Vec::new(alloc);
    for column in columns {
        if *column < program.column_count() {
            if let Some(choice) = program.column_bid(*column) {
                choices.push(choice)?;
            }
        }
    }
    Ok(choices)
}

/// The columns of bids, as far as the program has them.
pub fn columns_of(
    alloc: Global,
    program: &Selection<'_>,
    choices: &[Choice],
) -> Result<Vec<usize>, AllocError> {
    let mut columns = Vec::new(alloc);
    if choices.is_empty() {
        return Ok(columns);
    }
    for column in 0..program.column_count() {
        if let Some(choice) = program.column_bid(column) {
            if choices.contains(&choice) {
                columns.push(column)?;
            }
        }
    }
    Ok(columns)
}
