//! What the program's calls answer. Where any one growth or start of a thread is refused (see tests/test_refused_calls.py), they
//! report that memory was short and have put nothing, or the same.

ghost use Rattle.std.specs.Prelude.{None};
ghost use Rattle.byte_sinks.specs.Sinks.{unused};

use super::files::NO_FILES;
use super::{RUNS, Run, TWO_GROUPS, TWO_PROGRAMS, reported};
use crate::worked::input_of;
use answers::{RunFault, print_refusal, run, run_compile};
use auction_input::{
    Auction, FileFault, Output, Part, PartFault, PartKind, Refusal, Request, Source, count_of,
    read_auction, split_parts, text_of, texts_of,
};
use byte_sinks::{Sink, SinkFailed};
use group_compiler::OpenGate;
use std::alloc::Global;
use std::sync::Wait;
use std::test::Fail;
use std::thread::Threads;

const SHORT: &[u8] = b"wdp: out of memory\n";

/// Compares the bytes that it takes with those that it expects, and takes no memory.
#[derive(Drop)]
struct Expected {
    whole: &'static [u8],
    rest: &'static [u8],
    is_other: bool,
}

impl Expected {
    fn new(whole: &'static [u8]) -> Expected {
        Expected {
            whole,
            rest: whole,
            is_other: false,
        }
    }

    /// Whether it has taken just what it expects.
    fn is_whole(&self) -> bool {
        !self.is_other && self.rest.is_empty()
    }

    /// Whether it has taken nothing.
    fn is_untouched(&self) -> bool {
        !self.is_other && self.rest.len() == self.whole.len()
    }
}

impl Sink for Expected {
    ghost state = { λ _. unused None };

    fn put(&mut self, bytes: &[u8]) -> Result<usize, SinkFailed> {
        match self.rest.strip_prefix(bytes) {
            Some(rest) => self.rest = rest,
            None => self.is_other = true,
        }
        Ok(bytes.len())
    }
}

impl Output for Expected {
    ghost sendable = { λ _ _. None };

    fn open(&mut self, _: &str) -> Result<(), FileFault> {
        Err(FileFault::Unopened)
    }
}

/// Out of memory if the refusal says so, and else another failure.
fn failure(refusal: &Refusal) -> Fail {
    let mut faults = Expected::new(SHORT);
    print_refusal(&[], refusal, &mut faults);
    if faults.is_whole() {
        Fail::from("out of memory")
    } else {
        Fail::from("another refusal")
    }
}

/// Runs the program: the output is to be the run's; or else nothing is put, and one line says that memory was short.
fn answers<R: Threads + Wait + Sync + AllocGlobal>(rt: &R, row: &Run) -> Result<(), Fail> {
    let mut out = Expected::new(row.output);
    let mut faults = Expected::new(SHORT);
    let words = reported(rt.alloc(), row.words);
    let mut files = NO_FILES;
    match run(
        rt,
        words,
        &mut files,
        &mut Source::new(row.input),
        &mut out,
        &mut faults,
    ) {
        0 if out.is_whole() && faults.is_untouched() => Ok(()),
        1 if out.is_untouched() && faults.is_whole() => Err(Fail::from("out of memory")),
        _ => Err(Fail::from("another end")),
    }
}

const GAMMAS: &[u8] = b"Gamma,A,B\n12,0,1\n";

const LEFT_OUT: &[u8] = b"Gamma\n-\n";

/// Whether these are the parts of the text of two groups.
fn are_parts(parts: &[Part<'_>]) -> bool {
    parts.len() == 3
        && parts[0].kind == PartKind::Rules
        && parts[1].kind == PartKind::Form
        && parts[1].bytes == GAMMAS
        && parts[2].kind == PartKind::Groups
        && parts[2].bytes == LEFT_OUT
}

/// Whether these parts are counted, and the first of a kind found.
fn are_found(parts: &[Part<'_>]) -> bool {
    count_of(parts, PartKind::Form) == 1
        && count_of(parts, PartKind::Solution) == 0
        && text_of(parts, PartKind::Form) == GAMMAS
        && text_of(parts, PartKind::Solution).is_empty()
}

#[test]
fn parts_or_want_of_memory(rt: HostRuntime) -> Result<(), Fail> {
    let input = input_of(rt.alloc(), TWO_GROUPS)?;
    match split_parts(rt.alloc(), &Request::Text, &input) {
        Ok(parts) => assert!(rt; are_parts(parts.as_slice()) && are_found(parts.as_slice())),
        Err(PartFault::OutOfMemory) => return Err(Fail::from("out of memory")),
        Err(_) => return Err(Fail::from("parts")),
    }
    Ok(())
}

#[test]
fn texts_of_a_kind_or_want_of_memory(rt: HostRuntime) -> Result<(), Fail> {
    let parts = [Part {
        text: 0,
        kind: PartKind::Groups,
        bytes: LEFT_OUT,
    }];
    match texts_of(rt.alloc(), parts.as_slice(), PartKind::Groups) {
        Ok(texts) => assert!(rt; texts.as_slice() == [LEFT_OUT].as_slice()),
        Err(_) => return Err(Fail::from("out of memory")),
    }
    Ok(())
}

/// Compiles the two programs: they are put; or else nothing is put, and memory was short.
fn compiles<R: Threads + Wait + Sync>(
    rt: &R,
    alloc: Global,
    auction: &Auction<'_>,
) -> Result<(), Fail> {
    let mut out = Expected::new(TWO_PROGRAMS);
    let (book, groups) = (&auction.book, &auction.groups);
    match run_compile(rt, alloc, book, groups, 2, &OpenGate, &mut out) {
        Ok(()) if out.is_whole() => Ok(()),
        Err(RunFault::OutOfMemory { written: 0 }) if out.is_untouched() => {
            Err(Fail::from("out of memory"))
        }
        _ => Err(Fail::from("another end")),
    }
}

#[test]
fn programs_or_want_of_memory(rt: HostRuntime) -> Result<(), Fail> {
    let input = input_of(rt.alloc(), TWO_GROUPS)?;
    match read_auction(&rt, &Request::Compile { workers: 2 }, &input) {
        Ok(auction) => compiles(&rt, rt.alloc(), &auction),
        Err(refusal) => Err(failure(&refusal)),
    }
}

#[test]
fn a_text_or_want_of_memory(rt: HostRuntime) -> Result<(), Fail> {
    answers(&rt, &Run::without_a_command(&["wdp"]))
}

#[test]
fn each_output_or_want_of_memory(rt: HostRuntime) -> Result<(), Fail> {
    for row in &RUNS {
        answers(&rt, row)?;
    }
    Ok(())
}
