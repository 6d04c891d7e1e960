// Rows and columns by their names.
ghost use Rattle.std.specs.Prelude.{◌≡◌, bytes_eq, map};
ghost use Rattle.std.specs.List.{IsDistinct, position_or_len};
ghost use Rattle.program_rows.specs.Parts.{shown_row};

use crate::columns::Columns;
use crate::row::{Row, name_at};

pub(crate) fn is_same_name(name: &[u8], other: &[u8]) -> bool
    ensures { result ≡ bytes_eq name.now other.now }
{
    name == other
}

fn search_row(rows: &[Row], name: &[u8]) -> usize
    ensures { result ≡ position_or_len (λ r. bytes_eq name.now r.name) (map shown_row rows.now) }
{
    for (i, row) in rows.iter().enumerate() {
        if is_same_name(name, row.name.as_slice()) {
            return i;
        }
    }
    rows.len()
}

/// The place of the row of this name, or the number of rows if there is none. The guess is tried first.
pub(crate) fn row_place(rows: &[Row], guess: usize, name: &[u8]) -> usize
    requires { IsDistinct bytes_eq (map (λ r. r.name) (map shown_row rows.now)) }
    ensures { result ≡ position_or_len (λ r. bytes_eq name.now r.name) (map shown_row rows.now) }
{
    if guess < rows.len() {
        if is_same_name(name, name_at(rows, guess)) {
            return guess;
        }
    }
    search_row(rows, name)
}

fn search_column(columns: &Columns, name: &[u8]) -> usize
    ensures { result ≡ position_or_len (λ c. bytes_eq name.now c.name) columns.now }
{
    for i in 0..columns.len() {
        if is_same_name(name, columns.name(i)) {
            return i;
        }
    }
    columns.len()
}

/// The place of the column of this name, or the number of columns if there is none. The guess is tried first.
pub(crate) fn column_place(columns: &Columns, guess: usize, name: &[u8]) -> usize
    requires { IsDistinct bytes_eq (map (λ c. c.name) columns.now) }
    ensures { result ≡ position_or_len (λ c. bytes_eq name.now c.name) columns.now }
{
    if guess < columns.len() {
        if is_same_name(name, columns.name(guess)) {
            return guess;
        }
    }
    search_column(columns, name)
}
