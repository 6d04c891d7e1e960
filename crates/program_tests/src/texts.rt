//! What sinks take of a text, and when they fail.

ghost use Rattle.std.specs.Prelude.{None};

use crate::worked::{ONE_BID, on_program};
use byte_sinks::{LimitSink, MemorySink, Sink, SinkFailed, StdSink, WriteFault, Writer};
use mps_text::write_program;
use program_rows::Program;
use std::alloc::Global;
use std::cell::Cell;
use std::io;
use std::io::Write;
use std::test::Fail;

mod long_names;
mod refused;

/// A sink that keeps its bytes, and notes the shortest and the longest piece that it was handed.
#[derive(Drop)]
struct Lengths {
    text: MemorySink,
    shortest: usize,
    longest: usize,
}

impl Lengths {
    fn new(alloc: Global) -> Lengths {
        Lengths {
            text: MemorySink::new(alloc),
            shortest: usize::MAX,
            longest: 0,
        }
    }
}

impl Sink for Lengths {
    ghost state = { λ s. record (⟦<MemorySink as Sink>⟧.state s.text) { taken = None } };

    fn put(&mut self, bytes: &[u8]) -> Result<usize, SinkFailed> {
        self.shortest = self.shortest.min(bytes.len());
        self.longest = self.longest.max(bytes.len());
        self.text.put(bytes)
    }
}

/// Whether a sink with room for so many bytes, and so many at a time, takes just the first bytes of the text of a program, which
/// is `ONE_BID`: a sink with room for all of it takes it, and else the fault reports how much went out.
fn ends_as_reported(
    alloc: Global,
    program: &Program,
    room: usize,
    each: usize,
) -> Result<bool, Fail> {
    let mut sink = LimitSink::new(alloc, room, each)?;
    let reported = write_program(program, &mut sink);
    if room >= ONE_BID.len() {
        return Ok(reported.is_ok() && sink.bytes() == ONE_BID);
    }
    let written = room as u64;
    Ok(reported == Err(WriteFault::Sink { written }) && sink.bytes() == &ONE_BID[..room])
}

fn end_as_reported(alloc: Global, program: &Program) -> Result<bool, Fail> {
    for room in 0..191 {
        if !ends_as_reported(alloc, program, room, 7)? {
            return Ok(false);
        }
    }
    ends_as_reported(alloc, program, 12, 3)
}

#[test]
fn a_sink_fails_after_each_number_of_bytes(rt: HostRuntime) -> Result<(), Fail> {
    assert_eq!(rt; ONE_BID.len(), 190);
    assert!(rt; on_program(rt.alloc(), ONE_BID, end_as_reported)?);
    Ok(())
}

/// Whether nothing is put of what is added, until it is put out.
fn waits(alloc: Global) -> bool {
    let mut sink = MemorySink::new(alloc);
    let mut writer = Writer::new(&mut sink);
    writer.add(b"NAME");
    sink.bytes().is_empty()
}

fn puts_out_in_order(alloc: Global) -> bool {
    let mut sink = MemorySink::new(alloc);
    let mut writer = Writer::new(&mut sink);
    let pieces: [&[u8]; 3] = [b"NAME", b" wdp", b"\n"];
    writer.add_pieces(&pieces);
    writer.flush().is_ok() && sink.bytes() == b"NAME wdp\n".as_slice()
}

#[test]
fn what_is_added_waits_for_a_flush(rt: HostRuntime) {
    assert!(rt; waits(rt.alloc()));
    assert!(rt; puts_out_in_order(rt.alloc()));
}

#[test]
fn a_failing_writer_is_a_failing_sink(rt: HostRuntime) {
    let mut room = [0u8; 4];
    let mut sink = StdSink::new(room.as_mut_slice());
    let mut writer = Writer::new(&mut sink);
    writer.add(b"NAME wdp");
    assert_eq!(rt; writer.flush(), Err(WriteFault::Sink { written: 4 }));
    writer.add(b"\n");
    assert_eq!(rt; writer.flush(), Err(WriteFault::Sink { written: 4 }));
}

/// A writer that is interrupted at its first write, and then takes what it is given. It counts how often it is asked.
#[derive(Drop)]
struct Interrupted<'a> {
    asked: &'a Cell<usize>,
}

impl Write for Interrupted<'_> {
    fn write(&mut self, buf: &[u8]) -> io::Result<usize> {
        let asked = self.asked.get();
        self.asked.set(asked.saturating_add(1));
        if asked == 0 {
            Err(io::ErrorKind::Interrupted.into())
        } else {
            Ok(buf.len())
        }
    }

    fn flush(&mut self) -> io::Result<()> {
        Ok(())
    }
}

#[test]
fn an_interrupted_write_is_a_failed_put(rt: HostRuntime) {
    let asked = Cell::new(0);
    let mut sink = StdSink::new(Interrupted { asked: &asked });
    assert!(rt; sink.put(b"NAME").is_err());
    assert_eq!(rt; asked.get(), 1);
    assert!(rt; sink.put(b"NAME") == Ok(4));
    assert_eq!(rt; asked.get(), 2);
}
