//! The lines of each section on their way to a sink.

ghost use Rattle.std.specs.Prelude.{IfSome, ◌≡◌, ◌≤◌, ◌≤ℤ◌, ◌<ℤ◌, ◌∷◌, [], ◌++◌, codes, flat_map, length, map, pos, take, true};
ghost use Rattle.std.specs.Fmt.{signed_decimal};
ghost use Rattle.program_rows.specs.MpsLines.{Data};
ghost use Rattle.program_rows.specs.Parts.{shown_row, shown_column};
ghost use Rattle.mps_text.specs.Text.{written, kind_letter, bound_words};
ghost use Rattle.byte_sinks.specs.Adds.{Adds};
ghost use Rattle.mps_text.specs.Bytes.{row_bytes, right_side_bytes, bound_bytes, entry_bytes, column_bytes};
ghost use Rattle.program_rows.specs.ProgramNames.{row_name};

use crate::data_lines::{add_three, add_two};
use crate::line::{FRONT_LEN, FRONT_NAME_LEN, LINE_ROOM, LINES_LEN, write_front, write_line};
use byte_sinks::{Sink, Writer};
use itoa::Buffer;
use program_rows::{Bounds, Column, Columns, Row, RowKind};

fn letter(kind: RowKind) -> &'static [u8]
    ensures { result.now ≡ kind_letter kind }
{
    match kind {
        RowKind::AtMost => b"L",
        RowKind::AtLeast => b"G",
        RowKind::Equal => b"E",
    }
}

/// What comes before the name of a column in the line of its bounds.
fn before_bound(bounds: Bounds) -> &'static [u8]
    ensures { result.now ≡ 32 ∷ ((bound_words bounds).0 ++ codes " BND ") }
{
    match bounds {
        Bounds::ZeroOrOne => b" UP BND ",
        Bounds::Zero | Bounds::One => b" FX BND ",
    }
}

/// What follows the name of a column in the line of its bounds.
fn after_bound(bounds: Bounds) -> &'static [u8]
    ensures { result.now ≡ 32 ∷ ((bound_words bounds).1 ++ 10 ∷ []) }
{
    match bounds {
        Bounds::Zero => b" 0\n",
        Bounds::ZeroOrOne | Bounds::One => b" 1\n",
    }
}

fn name_at(rows: &[Row], place: usize) -> &[u8]
    ensures { result.now ≡ row_name (map shown_row rows.now) place }
{
    match rows.get(place) {
        Some(row) => row.name.as_slice(),
        None => b"",
    }
}

fn add_number<S: Sink>(writer: &mut Writer<'_, S>, a: &[u8], b: &[u8], n: i64)
    ensures { Adds S.state writer.old writer.new
        (written (Data (a.now ∷ b.now ∷ signed_decimal n ∷ []))) }
{
    let mut buffer = Buffer::new();
    let digits = buffer.format(n);
    add_three(writer, a, b, digits.as_bytes());
}

/// Whether an entry is short: a row's name of two to four bytes, and a number below 100.
fn is_short(row: &[u8], number: i64) -> bool
    ensures { result ≡ true → (2 ≤ length row.now) × (length row.now ≤ 4) × (pos 0 ≤ℤ number)
        × (number <ℤ pos 100) }
{
    2 <= row.len() && row.len() <= 4 && 0 <= number && number < 100
}

/// Writes the lines of the entries of a column with a short name one after the other, and returns where they end, if each is short and they have room.
fn write_entries(
    lines: &mut [u8; LINES_LEN],
    rows: &[Row],
    name: &[u8],
    entries: &[(usize, i64)],
) -> Option<usize>
    requires { length name.now ≤ FRONT_NAME_LEN }
    ensures written { IfSome result (λ end. take end lines.new
        ≡ flat_map (entry_bytes (map shown_row rows.now) name.now) entries.now) }
    ensures within { IfSome result (λ end. end ≤ LINES_LEN) }
{
    let mut front = [0; FRONT_LEN];
    let front_len = write_front(&mut front, name);
    let mut at = 0;
    for &(place, number) in entries {
        let row = name_at(rows, place);
        if at > LINES_LEN - LINE_ROOM || !is_short(row, number) {
            return None;
        }
        at = write_line(lines, at, &front, front_len, row, number as u8);
    }
    Some(at)
}

/// Adds the lines of the rows.
pub fn add_rows<S: Sink>(writer: &mut Writer<'_, S>, rows: &[Row])
    ensures { Adds S.state writer.old writer.new
        (flat_map (λ r. row_bytes (shown_row r)) rows.now) }
{
    for row in rows {
        add_two(writer, letter(row.kind), row.name.as_slice());
    }
}

/// Adds the lines of the right sides.
pub fn add_right_sides<S: Sink>(writer: &mut Writer<'_, S>, rows: &[Row])
    ensures { Adds S.state writer.old writer.new
        (flat_map (λ r. right_side_bytes (shown_row r)) rows.now) }
{
    for row in rows {
        add_number(writer, b"RHS", row.name.as_slice(), row.right_side);
    }
}

/// Adds the lines of the bounds.
pub fn add_bounds<S: Sink>(writer: &mut Writer<'_, S>, columns: &Columns)
    ensures { Adds S.state writer.old writer.new (flat_map bound_bytes columns.now) }
{
    for place in 0..columns.len() {
        let column = columns.column(place);
        writer.add(before_bound(column.bounds));
        writer.add(column.name);
        writer.add(after_bound(column.bounds));
    }
}

/// Adds the lines of entries of a column one by one, and each field by field.
fn add_long_entries<S: Sink>(
    writer: &mut Writer<'_, S>,
    rows: &[Row],
    name: &[u8],
    entries: &[(usize, i64)],
)
    ensures { Adds S.state writer.old writer.new
        (flat_map (entry_bytes (map shown_row rows.now) name.now) entries.now) }
{
    for &(place, number) in entries {
        add_number(writer, name, name_at(rows, place), number);
    }
}

/// Adds the lines of the entries of a column, in one piece if they are short.
pub fn add_entries<S: Sink>(
    writer: &mut Writer<'_, S>,
    lines: &mut [u8; LINES_LEN],
    rows: &[Row],
    name: &[u8],
    entries: &[(usize, i64)],
)
    ensures { Adds S.state writer.old writer.new
        (flat_map (entry_bytes (map shown_row rows.now) name.now) entries.now) }
{
    if name.len() <= FRONT_NAME_LEN {
        if let Some(end) = write_entries(lines, rows, name, entries) {
            writer.add(&lines[..end]);
            return;
        }
    }
    add_long_entries(writer, rows, name, entries);
}

/// Adds the lines of a column.
pub fn add_column<S: Sink>(
    writer: &mut Writer<'_, S>,
    lines: &mut [u8; LINES_LEN],
    objective: &[u8],
    rows: &[Row],
    column: &Column<'_>,
)
    ensures { Adds S.state writer.old writer.new
        (column_bytes objective.now (map shown_row rows.now) (shown_column column.now)) }
{
    add_number(writer, column.name, objective, column.cost);
    add_entries(writer, lines, rows, column.name, column.entries);
}

/// Adds the lines of the columns.
pub fn add_columns<S: Sink>(
    writer: &mut Writer<'_, S>,
    objective: &[u8],
    rows: &[Row],
    columns: &Columns,
)
    ensures { Adds S.state writer.old writer.new
        (flat_map (column_bytes objective.now (map shown_row rows.now)) columns.now) }
{
    let mut lines = [0; LINES_LEN];
    for place in 0..columns.len() {
        add_column(writer, &mut lines, objective, rows, &columns.column(place));
    }
}
