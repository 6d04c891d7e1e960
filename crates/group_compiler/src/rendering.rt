//! Lines of rows and columns in memory.

ghost use Rattle.std.specs.Prelude.{◌≡◌, IfOk, map};
ghost use Rattle.byte_sinks.specs.Adds.{Adds};
ghost use Rattle.program_rows.specs.Parts.{shown_row};
ghost use Rattle.group_compiler.specs.Pages.{section_lines, page_with};

use crate::section::Section;
use byte_sinks::{MemorySink, Sink, WriteFault, Writer};
use mps_text::{add_bounds, add_columns, add_right_sides, add_rows};
use program_rows::{Columns, Row};
use std::alloc::{AllocError, Global};

// Adds the lines of a section.
fn add_lines<S: Sink>(
    writer: &mut Writer<'_, S>,
    all: &[Row],
    rows: &[Row],
    columns: &Columns,
    section: Section,
)
    ensures { Adds S.state writer.old writer.new
        (section_lines section (page_with (map shown_row all.now) (map shown_row rows.now)
        columns.now)) }
{
    match section {
        Section::Rows => add_rows(writer, rows),
        Section::Columns => add_columns(writer, b"OBJ", all, columns),
        Section::RightSides => add_right_sides(writer, rows),
        Section::Bounds => add_bounds(writer, columns),
    }
}

/// The lines of a section: of some rows, or of columns with entries in all rows. A writer has a block of 16,384 bytes, so it
/// is in a call of its own: a page has one of them on the stack at a time, and none below it.
#[inline(never)]
pub(crate) fn rendered(
    alloc: Global,
    all: &[Row],
    rows: &[Row],
    columns: &Columns,
    section: Section,
) -> Result<Vec<u8>, AllocError>
    ensures { IfOk result (λ lines. lines.items
        ≡ section_lines section (page_with (map shown_row all.now) (map shown_row rows.now)
        columns.now)) }
{
    let mut sink = MemorySink::new(alloc);
    let mut writer = Writer::new(&mut sink);
    add_lines(&mut writer, all, rows, columns, section);
    match writer.flush() {
        Ok(()) => Ok(sink.into_bytes()),
        Err(WriteFault::Sink { .. }) => Err(AllocError),
    }
}
