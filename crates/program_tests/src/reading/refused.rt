//! What is read, by the calls themselves. Where any one growth is refused (see tests/test_refused_calls.py), they report that memory was
//! short, or the same.

use super::{FRONTS, PAIRS};
use crate::worked::{ONE_BID, on_program};
use mps_reader::read_program;
use program_rows::{MpsFault, MpsFaultKind, Program, same_program};
use std::alloc::Global;
use std::test::Fail;

/// Whether a text means a program that is the same as this one, or isn't, as `is_same` has it.
fn is_as_reported(
    alloc: Global,
    program: &Program,
    text: &[u8],
    is_same: bool,
) -> Result<bool, Fail> {
    let other = read_program(alloc, text)?;
    Ok(same_program(program, &other) == is_same)
}

#[test]
fn a_program_or_want_of_memory(rt: HostRuntime) -> Result<(), Fail> {
    for (text, other, is_same) in PAIRS {
        let is_reported = on_program(rt.alloc(), text, |alloc, program| {
            is_as_reported(alloc, program, other, is_same)
        })?;
        assert!(rt; is_reported);
    }
    Ok(())
}

/// Whether a text is refused so.
fn is_refused(alloc: Global, text: &[u8], reported: MpsFault) -> Result<bool, Fail> {
    match read_program(alloc, text).err() {
        Some(fault) if fault.kind == MpsFaultKind::OutOfMemory => Err(Fail::from("out of memory")),
        fault => Ok(fault == Some(reported)),
    }
}

#[test]
fn a_fault_or_want_of_memory(rt: HostRuntime) -> Result<(), Fail> {
    for (end, line, kind) in FRONTS {
        let reported = MpsFault { line, kind };
        assert!(rt;
            is_refused(rt.alloc(), &ONE_BID[..end], reported)?,
            "at {end}"
        );
    }
    Ok(())
}
