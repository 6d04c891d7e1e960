//! The parts that are added to an input: solutions, certificates and what is known of other awards.

use program_rows::{Bounds, Selection};
use std::alloc::{AllocError, Global};

/// Adds the line of a column at 1.
fn add_one(text: &mut Vec<u8>, name: &[u8]) -> Result<(), AllocError> {
    text.extend_from_slice(name)?;
    text.extend_from_slice(b" 1\n")?;
    Ok(())
}

/// Adds a part of this head.
pub fn add_part(text: &mut Vec<u8>, head: &[u8], body: &[u8]) -> Result<(), AllocError> {
    text.extend_from_slice(head)?;
    text.push(b'\n')?;
    text.extend_from_slice(body)?;
    Ok(())
}

/// The lines of a point: its columns at 1, and those that are fixed there.
pub fn solution_of(
    alloc: Global,
    program: &Selection<'_>,
    ones: &[usize],
) -> Result<Vec<u8>, AllocError> {
    let mut text = Vec::new(alloc);
    for column in ones {
        if *column < program.column_count() {
            add_one(&mut text, program.column_name(*column))?;
        }
    }
    for column in 0..program.column_count() {
        if matches!(program.bounds(column), Bounds::One) {
            add_one(&mut text, program.column_name(column))?;
        }
    }
    Ok(text)
}
