// Whether two programs are equal as maps.
ghost use Rattle.std.specs.Prelude.{◌≡◌, IsTrue, ◌↔◌, bytes_eq, map};
ghost use Rattle.std.specs.List.{IsDistinct, list_all};
ghost use Rattle.program_rows.specs.inside.Comparing as comparing;
ghost use Rattle.program_rows.specs.Parts.{IsProgram, shown_row, table_of};
ghost use Rattle.program_rows.specs.Same.{IsSameProgram};

use crate::agreeing::{is_among_columns, is_among_rows};
use crate::columns::Columns;
use crate::lookups::is_same_name;
use crate::program::{Program, ProgramParts};
use crate::row::Row;

fn are_rows_among(rows: &[Row], others: &[Row]) -> bool
    requires { IsDistinct bytes_eq (map (λ r. r.name) (map shown_row others.now)) }
    ensures { result ≡ list_all (comparing.row_stands (map shown_row others.now))
        (map shown_row rows.now) }
{
    for (i, row) in rows.iter().enumerate() {
        if !is_among_rows(row, i, others) {
            return false;
        }
    }
    true
}

fn are_columns_among(
    rows: &[Row],
    others: &[Row],
    columns: &Columns,
    other_columns: &Columns,
) -> bool
    requires rows { IsDistinct bytes_eq (map (λ r. r.name) (map shown_row others.now)) }
    requires columns { IsDistinct bytes_eq (map (λ c. c.name) other_columns.now) }
    ensures { result ≡ list_all (comparing.column_stands (map shown_row rows.now)
        (map shown_row others.now) other_columns.now) columns.now }
{
    for i in 0..columns.len() {
        if !is_among_columns(rows, others, &columns.column(i), i, other_columns) {
            return false;
        }
    }
    true
}

/// Whether each row and column of a program is one of the other.
fn stands_in(parts: &ProgramParts, others: &ProgramParts) -> bool
    requires { IsProgram (table_of others.now) }
    ensures { result ≡ comparing.stands_in (table_of parts.now) (table_of others.now) }
{
    are_rows_among(parts.rows.as_slice(), others.rows.as_slice())
        && are_columns_among(
            parts.rows.as_slice(),
            others.rows.as_slice(),
            &parts.columns,
            &others.columns,
        )
}

/// Whether two programs are equal as maps: the objective's name, the rows by name, and the columns by name with their bounds,
/// costs and entries, in whatever order.
pub fn same_program(program: &Program, other: &Program) -> bool
    ensures { IsTrue result ↔ IsSameProgram program.now other.now }
{
    let parts = program.parts();
    let others = other.parts();
    is_same_name(
        parts.objective_name.as_slice(),
        others.objective_name.as_slice(),
    ) && stands_in(parts, others)
        && stands_in(others, parts)
}
