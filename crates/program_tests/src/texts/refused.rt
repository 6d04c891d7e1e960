//! What is written where any one growth is refused (see tests/test_refused_calls.py): the whole text, or a front of it of as many
//! bytes as the fault says. Writing itself takes no memory.

use crate::worked::{ONE_BID, on_program};
use byte_sinks::{MemorySink, WriteFault};
use mps_text::write_program;
use program_rows::Program;
use std::alloc::Global;
use std::test::Fail;

/// Whether the text of a program, which is `ONE_BID`, is written whole.
fn is_written(alloc: Global, program: &Program) -> Result<bool, Fail> {
    let mut sink = MemorySink::new(alloc);
    match write_program(program, &mut sink) {
        Ok(()) => Ok(sink.bytes() == ONE_BID),
        Err(WriteFault::Sink { written }) if written == 0 && sink.bytes().is_empty() => {
            Err(Fail::from("out of memory"))
        }
        Err(_) => Ok(false),
    }
}

#[test]
fn a_text_or_its_front(rt: HostRuntime) -> Result<(), Fail> {
    assert!(rt; on_program(rt.alloc(), ONE_BID, is_written)?);
    Ok(())
}
