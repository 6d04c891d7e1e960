// Rows and columns of one program in another.
ghost use Rattle.std.specs.Prelude.{◌≡◌, bytes_eq, map};
ghost use Rattle.std.specs.List.{IsDistinct};
ghost use Rattle.program_rows.specs.inside.Comparing as comparing;
ghost use Rattle.program_rows.specs.Parts.{shown_column, shown_row};
ghost use Rattle.program_rows.specs.ProgramNames.{row_name};

use crate::column::Column;
use crate::columns::Columns;
use crate::lookups::{column_place, row_place};
use crate::row::{Row, row_at};
use crate::row_sums::coefficient_of;

/// Whether a row is one of others, among which its place is guessed.
pub(crate) fn is_among_rows(row: &Row, guess: usize, others: &[Row]) -> bool
    requires { IsDistinct bytes_eq (map (λ r. r.name) (map shown_row others.now)) }
    ensures { result ≡ comparing.row_stands (map shown_row others.now) (shown_row row.now) }
{
    let place = row_place(others, guess, row.name.as_slice());
    if place < others.len() {
        let other = row_at(others, place);
        return row.kind == other.kind && row.right_side == other.right_side;
    }
    false
}

fn name_or_none(rows: &[Row], place: usize) -> &[u8]
    ensures { result.now ≡ row_name (map shown_row rows.now) place }
{
    match rows.get(place) {
        Some(row) => row.name.as_slice(),
        None => b"",
    }
}

/// Whether an entry, whose row goes by its place in `rows`, is one of a column, whose rows are `others`.
fn is_entry_of(rows: &[Row], others: &[Row], column: &Column<'_>, entry: &(usize, i64)) -> bool
    requires { IsDistinct bytes_eq (map (λ r. r.name) (map shown_row others.now)) }
    ensures { result ≡ comparing.entry_stands (map shown_row rows.now) (map shown_row others.now)
        (shown_column column.now) entry.now }
{
    let (row, number) = *entry;
    let place = row_place(others, row, name_or_none(rows, row));
    if place < others.len() {
        return coefficient_of(column.entries, place) == number;
    }
    number == 0
}

/// Whether a column is one of others, among which its place is guessed.
pub(crate) fn is_among_columns(
    rows: &[Row],
    others: &[Row],
    column: &Column<'_>,
    guess: usize,
    columns: &Columns,
) -> bool
    requires rows { IsDistinct bytes_eq (map (λ r. r.name) (map shown_row others.now)) }
    requires columns { IsDistinct bytes_eq (map (λ c. c.name) columns.now) }
    ensures { result ≡ comparing.column_stands (map shown_row rows.now) (map shown_row others.now)
        columns.now (shown_column column.now) }
{
    let place = column_place(columns, guess, column.name);
    if place < columns.len() {
        let other = columns.column(place);
        return column.bounds == other.bounds
            && column.cost == other.cost
            && column
                .entries
                .iter()
                .all(|entry| is_entry_of(rows, others, &other, entry));
    }
    false
}
