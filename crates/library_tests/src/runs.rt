//! What a run answers and leaves where its words are wrong, and where its input or its output fails at any byte.

use crate::worked::input_of;
use answers::{RunFault, run, run_compile};
use auction_input::{Auction, Request, Source, read_auction};
use byte_sinks::{LimitSink, MemorySink};
use files::NO_FILES;
use group_compiler::OpenGate;
use std::alloc::{AllocError, Global};
use std::cell::Cell;
use std::env::Args;
use std::io;
use std::io::Read;
use std::sync::Wait;
use std::test::Fail;
use std::thread::Threads;

mod files;
mod refused;

const ONE_FORM: &[u8] =
    b"%rules\nrules,1,1,,\ncategory,A,2,10,1\ncategory,B,1,5,1\nbidder,Alpha,9,2,\nbidder,Beta,9,1,\nbidder,Gamma,9,1,\n%form\nGamma,A,B\n12,0,1\n";

const ONE_FORM_TEXT: &[u8] =
    b"NAME wdp\nROWS\n N OBJ\n L B3\n L C1\n L C2\nCOLUMNS\n M1 'MARKER' 'INTORG'\n X3_1 OBJ -12\n X3_1 B3 1\n X3_1 C2 1\n M2 'MARKER' 'INTEND'\nRHS\n RHS B3 1\n RHS C1 2\n RHS C2 1\nBOUNDS\n UP BND X3_1 1\nENDATA\n";

const TWO_GROUPS: &[u8] =
    b"%rules\nrules,1,1,,\ncategory,A,2,10,1\ncategory,B,1,5,1\nbidder,Alpha,9,2,\nbidder,Beta,9,1,\nbidder,Gamma,9,1,\n%form\nGamma,A,B\n12,0,1\n%groups\nGamma\n-\n";

/// 90 bytes of the first group, and 204 of the second one.
const TWO_PROGRAMS: &[u8] =
    b"* program 1 Gamma\nNAME wdp\nROWS\n N OBJ\n L C1\n L C2\nCOLUMNS\nRHS\n RHS C1 2\n RHS C2 1\nENDATA\n* program 2 -\nNAME wdp\nROWS\n N OBJ\n L B3\n L C1\n L C2\nCOLUMNS\n M1 'MARKER' 'INTORG'\n X3_1 OBJ -12\n X3_1 B3 1\n X3_1 C2 1\n M2 'MARKER' 'INTEND'\nRHS\n RHS B3 1\n RHS C1 2\n RHS C2 1\nBOUNDS\n UP BND X3_1 1\nENDATA\n";

const SOLVED: &[u8] =
    b"%rules\nrules,1,1,,\ncategory,A,2,10,1\ncategory,B,1,5,1\nbidder,Alpha,9,2,\nbidder,Beta,9,1,\nbidder,Gamma,9,1,\n%form\nAlpha,A,B\n30,1,0\n50,2,1\n28,1,1\n%form\nBeta,A,B\n20,1,0\n45,3,0\n%form\nGamma,A,B\n12,0,1\n%groups\n-\n%solution\nX1_1 0.999999\nX2_1 1\nX3_1 1\n";

const WINNERS: &[u8] = b"Alpha 1 30\nBeta 1 20\nGamma 1 12\ntotal 62\n";

const SOLVED_TWICE: &[u8] =
    b"%rules\nrules,1,1,,\ncategory,A,2,10,1\ncategory,B,1,5,1\nbidder,Alpha,9,2,\nbidder,Beta,9,1,\nbidder,Gamma,9,1,\n%form\nAlpha,A,B\n30,1,0\n50,2,1\n28,1,1\n%form\nBeta,A,B\n20,1,0\n45,3,0\n%form\nGamma,A,B\n12,0,1\n%groups\n-\nBeta\n%solution\nX1_1 0.999999\nX2_1 1\nX3_1 1\n%solution\nX1_2 1\n";

const REPORT: &[u8] =
    b"group 1 -\nAlpha 1 30\nBeta 1 20\nGamma 1 12\ntotal 62\ncost 0\ngroup 2 Beta\nAlpha 2 50\ntotal 50\ncost 8\n";

/// Which bids of `SOLVED` are in no program.
const LEFT_OUT: &[u8] =
    b"Alpha: bid 3 is dominated by bid 1\nBeta: bid 2 asks for 3 of A, of which there are 2\n";

/// What `check` prints for `ONE_FORM_TEXT`.
const SIZES: &[u8] = b"rows 3 columns 1 entries 2\n";

/// Four groups with their solutions, and with a certificate for each.
const CERTIFIED: &[u8] =
    b"%rules\nrules,1,1,,\ncategory,A,2,10,1\ncategory,B,1,5,1\nbidder,Alpha,9,2,\nbidder,Beta,9,1,\nbidder,Gamma,9,1,\n%form\nAlpha,A,B\n30,1,0\n50,2,1\n28,1,1\n%form\nBeta,A,B\n20,1,0\n45,3,0\n%form\nGamma,A,B\n12,0,1\n%groups\n-\nAlpha\nBeta\nBeta+Gamma\n%solution\nX1_1 1\nX2_1 1\nX3_1 1\n%solution\nX2_1 1\nX3_1 1\n%solution\nX1_2 1\n%solution\nX1_2 1\n%certificate\nsplit 0 X1_1 1 X1_2 1\nbound 1 50 B2 20 B3 12\nbound 1 0 B1 10 C1 20 C2 12\n%certificate\nbound 1 B2 20 B3 12\n%certificate\nbound 1 B1 38 C2 12\n%certificate\nbound 1 B1 50\n";

const VERIFIED: &[u8] =
    b"group 1 -\nAlpha 1 30\nBeta 1 20\nGamma 1 12\ntotal 62\ncost 0\ngroup 2 Alpha\nBeta 1 20\nGamma 1 12\ntotal 32\ncost 0\ngroup 3 Beta\nAlpha 2 50\ntotal 50\ncost 8\ngroup 4 Beta+Gamma\nAlpha 2 50\ntotal 50\ncost 20\n";

/// The digests of the rules and the forms of `CERTIFIED`.
const DIGESTS: &[u8] =
    b"%rules 21b8a08bf565df91f27201aa5dcba7bb191425004e69f73a65b9ad292e87c8d4\n%form Alpha 3 7002a8bffa356df6b0054d1d3f897d43184089fa9b50cb5d26546f6dece8032b\n%form Beta 2 46a0dc258876210251dc244ed2b32006b8f1e5e6d0de39bbf32058c574162de8\n%form Gamma 1 860c2a4e011142b6ba9c58e905ef1eae7a2f2ac5f89c4b9578d63a4d95d28310\n";

/// Gives its bytes one by one, and fails once it was asked for more than `room` of them.
#[derive(Drop)]
pub struct LimitReader {
    rest: &'static [u8],
    room: usize,
}

impl Read for LimitReader {
    fn read(&mut self, buf: &mut [u8]) -> io::Result<usize> {
        if self.room == 0 {
            return Err(io::ErrorKind::Other.into());
        }
        self.room -= 1;
        match (self.rest.split_first(), buf.first_mut()) {
            (Some((byte, rest)), Some(place)) => {
                *place = *byte;
                self.rest = rest;
                Ok(1)
            }
            _ => Ok(0),
        }
    }
}

/// Fills whatever it is asked to, without an end.
#[derive(Drop)]
struct Endless {
    given: usize,
}

impl Read for Endless {
    fn read(&mut self, buf: &mut [u8]) -> io::Result<usize> {
        self.given = self.given.saturating_add(buf.len());
        Ok(buf.len())
    }
}

/// A reader that is interrupted at its first read, and then has nothing left. It counts how often it is asked.
#[derive(Drop)]
struct Interrupted<'a> {
    asked: &'a Cell<usize>,
}

impl Read for Interrupted<'_> {
    fn read(&mut self, _buf: &mut [u8]) -> io::Result<usize> {
        let asked = self.asked.get();
        self.asked.set(asked.saturating_add(1));
        if asked == 0 {
            Err(io::ErrorKind::Interrupted.into())
        } else {
            Ok(0)
        }
    }
}

/// The words as std gives them.
fn reported(alloc: Global, words: &[&str]) -> io::Result<Args> {
    let mut list = Vec::new(alloc);
    for word in words {
        list.push(String::from_str(alloc, word)?)?;
    }
    Ok(list.into_iter())
}

/// A run with ample memory and room.
#[derive(Clone, Copy)]
struct Run {
    words: &'static [&'static str],
    input: &'static [u8],
    output: &'static [u8],
}

impl Run {
    fn without_a_command(words: &'static [&'static str]) -> Run {
        Run {
            words,
            input: ONE_FORM,
            output: ONE_FORM_TEXT,
        }
    }
}

/// One of each command that writes.
const RUNS: [Run; 8] = [
    Run {
        words: &["wdp", "text"],
        input: ONE_FORM,
        output: ONE_FORM_TEXT,
    },
    Run {
        words: &["wdp", "compile", "--workers", "2"],
        input: TWO_GROUPS,
        output: TWO_PROGRAMS,
    },
    Run {
        words: &["wdp", "map", "--group", "1"],
        input: SOLVED,
        output: WINNERS,
    },
    Run {
        words: &["wdp", "report", "--workers", "64"],
        input: SOLVED_TWICE,
        output: REPORT,
    },
    Run {
        words: &["wdp", "explain", "--bids"],
        input: SOLVED,
        output: LEFT_OUT,
    },
    Run {
        words: &["wdp", "check"],
        input: ONE_FORM_TEXT,
        output: SIZES,
    },
    Run {
        words: &["wdp", "verify", "--workers", "2"],
        input: CERTIFIED,
        output: VERIFIED,
    },
    Run {
        words: &["wdp", "forms"],
        input: CERTIFIED,
        output: DIGESTS,
    },
];

/// The status with which such a run ends on these sinks.
fn status_of<R: Threads + Wait + Sync + AllocGlobal>(
    rt: &R,
    row: &Run,
    out: &mut LimitSink,
    faults: &mut MemorySink,
) -> u8 {
    let mut input = Source::new(row.input);
    let words = reported(rt.alloc(), row.words);
    let mut files = NO_FILES;
    run(rt, words, &mut files, &mut input, out, faults)
}

/// Whether such a run ends as it has to on a sink that takes so many bytes a put and has so much room: the output's front went
/// out, and the line says how many bytes of it.
fn ends_as_reported<R: Threads + Wait + Sync + AllocGlobal>(
    rt: &R,
    row: &Run,
    room: usize,
    most: usize,
) -> Result<bool, Fail> {
    let alloc: Global = rt.alloc();
    let mut out = LimitSink::new(alloc, room, most)?;
    let mut faults = MemorySink::new(alloc);
    let status = status_of(rt, row, &mut out, &mut faults);
    is_end(alloc, row.output, room, status, out.bytes(), faults.bytes())
}

/// Whether this end is right where there is room for so many bytes of a whole output.
fn is_end(
    alloc: Global,
    whole: &[u8],
    room: usize,
    status: u8,
    out: &[u8],
    line: &[u8],
) -> Result<bool, Fail> {
    if room >= whole.len() {
        return Ok(status == 0 && out == whole && line.is_empty());
    }
    let is_front = out.len() == room && whole.starts_with(out);
    Ok(status == 1 && is_front && is_line_after(alloc, line, room)?)
}

/// Whether a line says that a write failed after so many bytes.
fn is_line_after(alloc: Global, line: &[u8], room: usize) -> Result<bool, AllocError> {
    let reported = format!(in alloc; "wdp: write failed after {room} bytes\n")?;
    Ok(line == reported.as_bytes())
}

/// Whether a run on this input ends with status 1, this line, and nothing put.
fn is_refused<R: Threads + Wait + Sync + AllocGlobal, I: Read>(
    rt: &R,
    input: &mut Source<I>,
    line: &[u8],
) -> bool {
    let alloc: Global = rt.alloc();
    let mut out = MemorySink::new(alloc);
    let mut faults = MemorySink::new(alloc);
    let words = reported(alloc, &["wdp"]);
    let mut files = NO_FILES;
    let status = run(rt, words, &mut files, input, &mut out, &mut faults);
    status == 1 && faults.bytes() == line && out.bytes().is_empty()
}

#[test]
fn a_failing_input_is_refused_at_every_byte(rt: HostRuntime) {
    assert_eq!(rt; ONE_FORM.len(), 130);
    for room in 0..131usize {
        let mut input = Source::new(LimitReader {
            rest: ONE_FORM,
            room,
        });
        assert!(rt;
            is_refused(&rt, &mut input, b"wdp: input: read failed\n"),
            "at {room}"
        );
    }
}

#[test]
fn an_interrupted_read_is_a_failed_read(rt: HostRuntime) {
    let asked = Cell::new(0);
    let mut input = Source::new(Interrupted { asked: &asked });
    let mut block = [0u8; 4];
    assert!(rt; input.read(&mut block).is_err());
    assert_eq!(rt; asked.get(), 1);
    assert!(rt; input.read(&mut block) == Ok(0));
    assert_eq!(rt; asked.get(), 2);
}

#[test]
fn an_input_without_an_end_is_refused(rt: HostRuntime) {
    let mut input = Source::new(Endless { given: 0 });
    assert!(rt; is_refused(&rt, &mut input, b"wdp: input: too large\n"));
    assert!(rt; input.reader.given == 134_217_729);
}

/// Whether such a run ends as it has to with room for each number of bytes, up to all of them.
fn end_as_reported<R: Threads + Wait + Sync + AllocGlobal>(
    rt: &R,
    row: &Run,
) -> Result<bool, Fail> {
    for room in 0..row.output.len() {
        if !ends_as_reported(rt, row, room, 7)? {
            return Ok(false);
        }
    }
    ends_as_reported(rt, row, row.output.len(), 7)
}

#[test]
fn outputs_fail_at_every_byte(rt: HostRuntime) -> Result<(), Fail> {
    for row in &RUNS {
        let command = row.words.get(1).unwrap_or(&"no command");
        assert!(rt; end_as_reported(&rt, row)?, "{command}");
    }
    Ok(())
}

#[test]
fn a_text_fails_where_no_command_is_given(rt: HostRuntime) -> Result<(), Fail> {
    assert!(rt; ends_as_reported(&rt, &Run::without_a_command(&["wdp"]), 12, 3)?);
    assert!(rt; ends_as_reported(&rt, &Run::without_a_command(&[]), 190, 7)?);
    Ok(())
}

/// Whether the two programs on a sink with so much room end with the fault that names the group of the next byte, and their
/// front went out.
fn fails_at<R: Threads + Wait + Sync>(
    rt: &R,
    alloc: Global,
    auction: &Auction<'_>,
    room: usize,
) -> Result<bool, Fail> {
    let mut out = LimitSink::new(alloc, room, 7)?;
    let ended = run_compile(
        rt,
        alloc,
        &auction.book,
        &auction.groups,
        2,
        &OpenGate,
        &mut out,
    );
    Ok(is_reported(ended.err(), room) && is_front(out.bytes(), room))
}

/// Whether a fault names the group whose program has the byte after so many.
fn is_reported(fault: Option<RunFault>, room: usize) -> bool {
    let group = if room < 90 { 1 } else { 2 };
    let written = room as u64;
    fault == Some(RunFault::Sink { group, written })
}

/// Whether these bytes are the first so many of the two programs.
fn is_front(bytes: &[u8], room: usize) -> bool {
    bytes.len() == room && TWO_PROGRAMS.starts_with(bytes)
}

/// Whether they do so at each byte.
fn fails_at_each<R: Threads + Wait + Sync>(
    rt: &R,
    alloc: Global,
    auction: &Auction<'_>,
) -> Result<(), Fail> {
    for room in 0..294usize {
        if !fails_at(rt, alloc, auction, room)? {
            return Err(Fail::from("another end"));
        }
    }
    Ok(())
}

#[test]
fn a_fault_names_the_group_of_the_next_byte(rt: HostRuntime) -> Result<(), Fail> {
    let input = input_of(rt.alloc(), TWO_GROUPS)?;
    match read_auction(&rt, &Request::Compile { workers: 2 }, &input) {
        Ok(auction) => fails_at_each(&rt, rt.alloc(), &auction),
        Err(_) => Err(Fail::from("auction")),
    }
}

/// Whether a run on an empty input ends with this status and puts nothing, on a sink of faults that takes no more.
fn ends_unreported<R: Threads + Wait + Sync + AllocGlobal>(
    rt: &R,
    words: &[&str],
    faults: &mut LimitSink,
    status: u8,
) -> bool {
    let mut out = MemorySink::new(rt.alloc());
    let mut input = Source::new(b"".as_slice());
    let words = reported(rt.alloc(), words);
    let mut files = NO_FILES;
    let ended = run(rt, words, &mut files, &mut input, &mut out, faults);
    ended == status && out.bytes().is_empty()
}

#[test]
fn a_refused_line_changes_no_status(rt: HostRuntime) -> Result<(), Fail> {
    let mut faults = LimitSink::new(rt.alloc(), 5, 3)?;
    assert!(rt; ends_unreported(&rt, &["wdp"], &mut faults, 1));
    assert!(rt; faults.bytes() == b"wdp: ".as_slice());
    assert!(rt; ends_unreported(&rt, &["wdp", "solve"], &mut faults, 2));
    Ok(())
}
