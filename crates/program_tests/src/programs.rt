//! Programs, row by row and column by column.

use program_rows::{Bounds, Columns, Program, RowKind};

mod refused;

/// Whether the row at a place is this one.
fn is_row(program: &Program, place: usize, name: &[u8], most: i64) -> bool {
    place < program.row_count()
        && program.row_name(place) == name
        && program.row_kind(place) == RowKind::AtMost
        && program.right_side(place) == most
}

/// Whether there are so many rows, and the first are those of the two categories.
fn begins_with_categories(program: &Program, rows: usize) -> bool {
    program.row_count() == rows && is_row(program, 0, b"C1", 2) && is_row(program, 1, b"C2", 1)
}

/// Whether the only column is the fixed one of the value of all lots.
fn has_the_column_of_values(program: &Program) -> bool {
    program.column_count() == 1
        && program.column_name(0) == b"K".as_slice()
        && program.bounds(0) == Bounds::One
        && program.cost(0) == -80
}

/// Whether this column is at a place.
fn is_column(
    columns: &Columns,
    place: usize,
    name: &[u8],
    cost: i64,
    entries: &[(usize, i64)],
) -> bool {
    if place >= columns.len() {
        return false;
    }
    let column = columns.column(place);
    column.name == name
        && column.bounds == Bounds::ZeroOrOne
        && column.cost == cost
        && column.entries == entries
}
