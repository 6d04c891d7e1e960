//! A row whose name is longer than the writer's block.

ghost use Rattle.std.specs.Prelude.{◌<◌};

use super::Lengths;
use mps_reader::read_program;
use mps_text::write_program;
use program_rows::{Columns, Program, ProgramParts, Row, RowKind, same_program};
use std::alloc::{AllocError, Global};
use std::test::Fail;

/// A program of one row, whose name has so many letters, and no column.
fn long_named(alloc: Global, count: usize) -> Result<Program, AllocError>
    requires { 0 < count }
{
    let name = vec![in alloc; b'R'; count]?;
    let objective_name = Vec::from_slice(alloc, b"OBJ")?;
    let row = Row {
        name,
        kind: RowKind::AtMost,
        right_side: 1,
    };
    Ok(Program::from_parts(ProgramParts {
        objective_name,
        rows: Vec::from_array(alloc, [row])?,
        columns: Columns::new(alloc),
    }))
}

/// Whether a text means a program.
fn tells(alloc: Global, text: &[u8], program: &Program) -> Result<bool, Fail> {
    let again = read_program(alloc, text)?;
    Ok(same_program(program, &again))
}

/// Whether a program is written in pieces of a block at most, in so many bytes in all, and read again.
fn is_read_again(alloc: Global, program: &Program, bytes: usize) -> Result<bool, Fail> {
    let mut sink = Lengths::new(alloc);
    Ok(
        write_program(program, &mut sink).is_ok()
            && sink.shortest >= 1
            && sink.longest <= 65_536
            && sink.text.bytes().len() == bytes
            && tells(alloc, sink.text.bytes(), program)?,
    )
}

#[test]
fn a_name_of_70000_letters_is_read_again(rt: HostRuntime) -> Result<(), Fail> {
    let program = long_named(rt.alloc(), 70_000)?;
    // The name comes in two lines, and 52 bytes beside it.
    assert!(rt; is_read_again(rt.alloc(), &program, 140_052)?);
    Ok(())
}
