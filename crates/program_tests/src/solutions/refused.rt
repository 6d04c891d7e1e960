//! What is read, by the call itself. Where any one growth is refused (see tests/test_refused_calls.py), it reports that memory was short, or
//! the same.

use super::{FIXED, REFUSED, SOLUTIONS, THREE_BIDDERS};
use crate::worked::on_program;
use outcome::read_solution;
use program_rows::{Program, SolutionFault};
use std::alloc::Global;
use std::test::Fail;

/// Whether a text is a solution of these values.
fn has_values(
    alloc: Global,
    program: &Program,
    text: &[u8],
    values: &[bool],
) -> Result<bool, Fail> {
    let point = read_solution(alloc, text, program)?;
    Ok(point.values() == values)
}

fn reads_solutions(alloc: Global, program: &Program) -> Result<bool, Fail> {
    for (text, values) in &SOLUTIONS {
        if !has_values(alloc, program, *text, values.as_slice())? {
            return Ok(false);
        }
    }
    Ok(true)
}

#[test]
fn a_point_or_want_of_memory(rt: HostRuntime) -> Result<(), Fail> {
    assert!(rt; on_program(rt.alloc(), THREE_BIDDERS, reads_solutions)?);
    Ok(())
}

/// Whether a text is refused so.
fn is_refused(
    alloc: Global,
    program: &Program,
    text: &[u8],
    reported: SolutionFault,
) -> Result<bool, Fail> {
    match read_solution(alloc, text, program).err() {
        Some(SolutionFault::OutOfMemory) => Err(Fail::from("out of memory")),
        fault => Ok(fault == Some(reported)),
    }
}

fn leaves_out_the_fixed_column(alloc: Global, program: &Program) -> Result<bool, Fail> {
    is_refused(
        alloc,
        program,
        b"",
        SolutionFault::BoundBroken { column: 0 },
    )
}

#[test]
fn a_fault_or_want_of_memory(rt: HostRuntime) -> Result<(), Fail> {
    for (text, reported) in REFUSED {
        let is_reported = on_program(rt.alloc(), THREE_BIDDERS, |alloc, program| {
            is_refused(alloc, program, text, reported)
        })?;
        assert!(rt; is_reported, "{reported}");
    }
    assert!(rt; on_program(rt.alloc(), FIXED, leaves_out_the_fixed_column)?);
    Ok(())
}
