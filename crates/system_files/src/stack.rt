//! The stack of the main thread, before anything else is done.
//!
//! The system gives a stack page by page, and ends the program by a signal where it has to refuse a page. So the program asks
//! for all that it will need while it can still say what is missing: it looks how much stack it may have, asks for as much
//! memory, which may be refused, gives that back, and touches the stack then.
use byte_sinks::{Sink, StdSink};
use std::alloc::Global;
use std::fs::File;
use std::io::Read;

/// How much is touched: a third more than any input was seen to need.
const TOUCHED: usize = 384 * 1024;

/// How much has to be allowed: that, and room for the words, the environment and what began before.
const NEEDED: u64 = 512 * 1024;

/// Where the system says what it allows, and how much of that is read.
const LIMITS: &str = "/proc/self/limits";

const LIMITS_LEN: usize = 4_096;

/// What there is too little of.
#[derive(Clone, Copy, Debug, PartialEq, Eq)]
pub enum TooLittle {
    Stack,
    Memory,
}

// How many bytes of stack a line of the limits allows; none where it is about something else, or allows any number.
fn allowed_by(line: &str) -> Option<u64> {
    let limits = line.strip_prefix("Max stack size")?;
    limits.split_whitespace().next()?.parse::<u64>().ok()
}

// How many bytes of stack the limits allow; none where they don't say it, or allow any number.
fn allowed_among(limits: &str) -> Option<u64> {
    limits.lines().find_map(allowed_by)
}

// How many bytes of stack the system allows; none where it doesn't say it, or allows any number.
#[inline(never)]
fn allowed(rt: &HostRuntime) -> Option<u64> {
    let mut file = File::open(rt, LIMITS).ok()?;
    let mut block = [0u8; LIMITS_LEN];
    let count = file.read(&mut block).ok()?;
    allowed_among(str::from_utf8(&block[..count]).ok()?)
}

// Whether the system allows as much stack as is needed.
fn is_allowed(rt: &HostRuntime) -> bool {
    allowed(rt).is_none_or(|allowed| allowed >= NEEDED)
}

// Whether as much memory as is touched is to be had.
#[inline(never)]
fn has_memory(alloc: Global) -> bool {
    let room: Result<Vec<u8>, _> = Vec::with_capacity(alloc, TOUCHED);
    room.is_ok()
}

// The last byte of a block. As a call of its own, so that the block has to be there.
#[inline(never)]
fn last_of(block: &[u8]) -> Option<&u8> {
    block.last()
}

// Touches the stack; whether the last byte is as it was set.
#[inline(never)]
fn is_touched() -> bool {
    let block = [1u8; TOUCHED];
    last_of(&block) == Some(&1)
}

/// Touches as much stack as any input needs. Where the system doesn't allow that, or has no memory for it, that is reported, and
/// the stack isn't touched.
pub fn touch(rt: &HostRuntime) -> Result<(), TooLittle> {
    if !is_allowed(rt) {
        return Err(TooLittle::Stack);
    }
    if has_memory(rt.alloc()) && is_touched() {
        return Ok(());
    }
    Err(TooLittle::Memory)
}

/// Tells what there is too little of, with next to no stack.
#[inline(never)]
pub fn print_lack(rt: &HostRuntime, lack: TooLittle) {
    let line: &[u8] = match lack {
        TooLittle::Stack => b"wdp: too little stack: ulimit -s 512 allows enough\n",
        TooLittle::Memory => b"wdp: out of memory\n",
    };
    let _ = StdSink::new(rt.stderr()).put(line);
}
