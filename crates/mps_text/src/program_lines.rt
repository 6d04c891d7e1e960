//! A program on its way to a sink.

ghost use Rattle.byte_sinks.specs.Adds.{Adds};
ghost use Rattle.mps_text.specs.inside.Bytes.{bounds_bytes, columns_bytes, parts_bytes};

use crate::data_lines::add_two;
use crate::sections::{add_bounds, add_columns, add_right_sides, add_rows};
use byte_sinks::{Sink, Writer};
use program_rows::ProgramParts;

/// Adds the lines of the columns between those of the markers.
fn add_marked_columns<S: Sink>(writer: &mut Writer<'_, S>, parts: &ProgramParts)
    ensures { Adds S.state writer.old writer.new (columns_bytes parts.now) }
{
    if parts.columns.len() == 0 {
        return;
    }
    writer.add(b" M1 'MARKER' 'INTORG'\n");
    add_columns(
        writer,
        parts.objective_name.as_slice(),
        parts.rows.as_slice(),
        &parts.columns,
    );
    writer.add(b" M2 'MARKER' 'INTEND'\n");
}

/// Adds the section of the bounds.
fn add_bounds_section<S: Sink>(writer: &mut Writer<'_, S>, parts: &ProgramParts)
    ensures { Adds S.state writer.old writer.new (bounds_bytes parts.now) }
{
    if parts.columns.len() == 0 {
        return;
    }
    writer.add(b"BOUNDS\n");
    add_bounds(writer, &parts.columns);
}

/// Adds the lines of a program.
pub fn add_parts<S: Sink>(writer: &mut Writer<'_, S>, parts: &ProgramParts)
    ensures { Adds S.state writer.old writer.new (parts_bytes parts.now) }
{
    writer.add(b"NAME wdp\nROWS\n");
    add_two(writer, b"N", parts.objective_name.as_slice());
    add_rows(writer, parts.rows.as_slice());
    writer.add(b"COLUMNS\n");
    add_marked_columns(writer, parts);
    writer.add(b"RHS\n");
    add_right_sides(writer, parts.rows.as_slice());
    add_bounds_section(writer, parts);
    writer.add(b"ENDATA\n");
}
