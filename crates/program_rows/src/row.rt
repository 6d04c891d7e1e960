//! The rows of a program, by their places.

ghost use Rattle.std.specs.Prelude.{◌≡◌, ◌<◌, Some, length, map, slice_get};
ghost use Rattle.std.specs.Option.{option_map};
ghost use Rattle.program_rows.specs.Parts.{shown_row};

/// How the sum of a row compares with its right side.
#[derive(Clone, Copy, Debug, PartialEq, Eq)]
pub enum RowKind {
    AtMost,
    AtLeast,
    Equal,
}

/// A row of a program. Its name is printable ASCII without white space.
#[derive(Drop)]
pub struct Row {
    pub name: Vec<u8>,
    pub kind: RowKind,
    pub right_side: i64,
}

/// A row.
pub(crate) fn row_at(rows: &[Row], row: usize) -> &Row
    requires { row < length rows.now }
    ensures { slice_get (map shown_row rows.now) row ≡ Some (shown_row result.now) }
{
    &rows[row]
}

/// The name of a row.
pub(crate) fn name_at(rows: &[Row], row: usize) -> &[u8]
    requires { row < length rows.now }
    ensures { option_map (λ r. r.name) (slice_get (map shown_row rows.now) row) ≡ Some result.now }
{
    rows[row].name.as_slice()
}

/// The kind of a row.
pub(crate) fn kind_at(rows: &[Row], row: usize) -> RowKind
    requires { row < length rows.now }
    ensures { option_map (λ r. r.kind) (slice_get (map shown_row rows.now) row) ≡ Some result }
{
    rows[row].kind
}

/// The right side of a row.
pub(crate) fn right_side_at(rows: &[Row], row: usize) -> i64
    requires { row < length rows.now }
    ensures { option_map (λ r. r.right_side) (slice_get (map shown_row rows.now) row)
        ≡ Some result }
{
    rows[row].right_side
}
