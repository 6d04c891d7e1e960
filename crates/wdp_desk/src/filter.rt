//! The filter.

use crate::disk::Disk;
use crate::faults::Explaining;
use crate::reading::{Counted, read_all, read_exactly, read_line};
use desk_book::{
    Desk, FrontFault, HEAD_LIMIT, JOURNAL_LIMIT, ReadFault, find_front, replay, serve_calls,
};
use desk_line::Stop;
use std::fs::{File, OpenOptions, TryLockError};
use std::io::Write;
use std::os::unix::fs::{FileExt, OpenOptionsExt};
use std::{fs, io};

/// Why the filter ends before the end of its input.
#[derive(Drop)]
pub enum Ended {
    /// A call that isn't one begins at this byte of the input.
    NoCall { at: u64 },
    /// The input ends within the call that begins at this byte.
    Cut { at: u64 },
    /// What is wrong with the first call.
    Front(&'static str),
    /// What is wrong with the journal.
    Journal(&'static str),
    /// What is wrong with the openings.
    Openings(&'static str),
    /// No opening begins at this byte of the openings.
    NoOpening { at: usize },
    /// The opening at this byte is of no form that stands.
    NotStanding { at: usize },
    /// The opening at this byte is of a form that was opened before.
    OpenedAgain { at: usize },
    /// The form of this entry stands, and isn't opened.
    Unopened { entry: u64 },
    Damaged { at: usize },
    OutOfMemory,
    Unread,
    /// It isn't known what the journal has.
    Unknown,
    Untold,
}

// The status of the process.
fn status_of(ended: &Ended) -> u8 {
    match ended {
        Ended::Unknown => 3,
        Ended::NoCall { .. }
        | Ended::Cut { .. }
        | Ended::Front(_)
        | Ended::Journal(_)
        | Ended::Openings(_)
        | Ended::NoOpening { .. }
        | Ended::NotStanding { .. }
        | Ended::OpenedAgain { .. }
        | Ended::Unopened { .. }
        | Ended::Damaged { .. }
        | Ended::OutOfMemory
        | Ended::Unread
        | Ended::Untold => 1,
    }
}

// Prints why the filter ended.
pub fn print_ended(rt: &HostRuntime, journal: &str, ended: &Ended) {
    let _ = match ended {
        Ended::NoCall { at } => eprintln!(rt; "wdp-desk: byte {at}: no call"),
        Ended::Cut { at } => eprintln!(rt; "wdp-desk: byte {at}: the input ends within a call"),
        Ended::Front(what) => eprintln!(rt; "wdp-desk: byte 0: {what}"),
        Ended::Journal(what) => eprintln!(rt; "wdp-desk: {journal}: {what}"),
        Ended::Openings(what) => eprintln!(rt; "wdp-desk: openings: {what}"),
        Ended::NoOpening { at } => eprintln!(rt; "wdp-desk: openings: byte {at}: no opening"),
        Ended::NotStanding { at } => {
            eprintln!(rt; "wdp-desk: openings: byte {at}: it opens no form that stands")
        }
        Ended::OpenedAgain { at } => {
            eprintln!(rt; "wdp-desk: openings: byte {at}: that form was opened before")
        }
        Ended::Unopened { entry } => {
            eprintln!(rt; "wdp-desk: openings: none of them opens the form of entry {entry}")
        }
        Ended::Damaged { at } => eprintln!(rt; "wdp-desk: {journal}: damaged at byte {at}"),
        Ended::OutOfMemory => eprintln!(rt; "wdp-desk: out of memory"),
        Ended::Unread => eprintln!(rt; "wdp-desk: standard input: it can't be read"),
        Ended::Unknown => eprintln!(rt; "wdp-desk: {journal}: a sync failed: start again"),
        Ended::Untold => eprintln!(rt; "wdp-desk: standard output: it can't be written"),
    };
}

// What is wrong with a front.
pub fn front_words(fault: FrontFault) -> &'static str {
    match fault {
        FrontFault::Short => "it ends within its front",
        FrontFault::None => "it has no front of a desk's journal",
        FrontFault::Digest => "the digest isn't that of the rules",
        FrontFault::NoLineEnd => "the last line of the rules has no end",
    }
}

/// Why a journal isn't read.
pub fn journal_ended(fault: ReadFault) -> Ended {
    match fault {
        ReadFault::Front(fault) => Ended::Journal(front_words(fault)),
        ReadFault::Rules(_) => Ended::Journal("its rules are refused: see wdp explain"),
        ReadFault::Damaged { at } => Ended::Damaged { at },
        ReadFault::OutOfMemory => Ended::OutOfMemory,
    }
}

// Reads the first call.
fn read_front<I: io::Read>(rt: &HostRuntime, input: &mut I) -> Result<Vec<u8>, Ended> {
    let mut bytes = Vec::new(rt.alloc());
    for _line in 0..2 {
        match read_line(input, &mut bytes, HEAD_LIMIT) {
            Ok(true) => {}
            Ok(false) => return Err(Ended::Front("no call")),
            Err(_) => return Err(Ended::Unread),
        }
    }
    let Some(count) = rules_count(bytes.as_slice()) else {
        return Err(Ended::Front("no call"));
    };
    match read_exactly(input, &mut bytes, count) {
        Ok(true) => Ok(bytes),
        Ok(false) => Err(Ended::Front("the input ends within a call")),
        Err(_) => Err(Ended::Unread),
    }
}

// How many bytes of rules the head lines of a first call announce.
fn rules_count(heads: &[u8]) -> Option<usize> {
    let mut digits = 0;
    let mut count = 0usize;
    let mut scale = 1usize;
    for byte in heads.iter().rev().skip(1) {
        if *byte == b' ' {
            return if 0 < digits { Some(count) } else { None };
        }
        if !byte.is_ascii_digit() || digits >= 7 {
            return None;
        }
        count = count.saturating_add(scale.saturating_mul(usize::from(*byte - b'0')));
        scale = scale.saturating_mul(10);
        digits += 1;
    }
    None
}

// Opens the file of the journal, which no other process may hold.
fn open_file(rt: &HostRuntime, journal: &str) -> Result<File, Ended> {
    let opened = OpenOptions::new()
        .read(true)
        .write(true)
        .create(true)
        .mode(0o600)
        .open(rt, journal);
    let Ok(file) = opened else {
        return Err(Ended::Journal("it can't be opened"));
    };
    match file.try_lock() {
        Ok(()) => Ok(file),
        Err(TryLockError::WouldBlock) => Err(Ended::Journal("another process has it")),
        Err(TryLockError::Error(_)) => Err(Ended::Journal("it can't be locked")),
    }
}

// Whether a file is one whose creation was cut off: it is no longer than the front, and has its bytes, or zeros that were never written.
fn is_torn_front(bytes: &[u8], front: &[u8]) -> bool {
    bytes.len() <= front.len()
        && bytes
            .iter()
            .zip(front)
            .all(|(byte, wanted)| *byte == *wanted || *byte == 0)
}

// Writes a new journal, and has it, and its name, on the disk.
fn create(rt: &HostRuntime, journal: &str, file: &File, front: &[u8]) -> Result<(), Ended> {
    if file.write_all_at(front, 0).is_err() {
        let _ = file.set_len(0);
        return Err(Ended::Journal("it can't be written"));
    }
    if file.sync_all().is_err() || !is_folder_synced(rt, journal) {
        return Err(Ended::Unknown);
    }
    Ok(())
}

// Has the names in the folder of a file on the disk.
fn is_folder_synced(rt: &HostRuntime, name: &str) -> bool {
    let folder = match name.rfind('/') {
        Some(0) => "/",
        Some(at) => name.split_at(at).0,
        None => ".",
    };
    match File::open(rt, folder) {
        Ok(opened) => opened.sync_all().is_ok(),
        Err(_) => false,
    }
}

// The journal's bytes, made anew where there is none.
fn read_journal(
    rt: &HostRuntime,
    journal: &str,
    file: &mut File,
    front: &[u8],
) -> Result<Vec<u8>, Ended> {
    let Ok(bytes) = read_all(rt.alloc(), file, JOURNAL_LIMIT as usize) else {
        return Err(Ended::Journal("it can't be read"));
    };
    if bytes.len() >= front.len() && bytes.starts_with(front) {
        return Ok(bytes);
    }
    if !is_torn_front(bytes.as_slice(), front) {
        return Err(Ended::Journal("it is of another round: its front differs"));
    }
    create(rt, journal, file, front)?;
    match Vec::from_slice(rt.alloc(), front) {
        Ok(bytes) => Ok(bytes),
        Err(_) => Err(Ended::OutOfMemory),
    }
}

// Cuts off an end of a journal that was never told.
fn cut_end(file: &File, end: usize, len: usize) -> Result<(), Ended> {
    if end == len {
        return Ok(());
    }
    if file.set_len(end as u64).is_err() || file.sync_all().is_err() {
        return Err(Ended::Unknown);
    }
    Ok(())
}

// Tells how the journal was found.
fn tell_opened(rt: &HostRuntime, desk: &Desk<Explaining>, cut: usize) -> Result<(), Ended> {
    let entries = desk.entries();
    let Ok(line) = format!(in rt.alloc(); "{entries} opened {cut} ") else {
        return Err(Ended::OutOfMemory);
    };
    let mut out = rt.stdout();
    if out.write_all(line.as_bytes()).is_err()
        || out.write_all(desk.chain()).is_err()
        || out.write_all(b"\n").is_err()
    {
        return Err(Ended::Untold);
    }
    Ok(())
}

// Answers the calls of standard input.
fn filter(rt: &HostRuntime, journal: &str) -> Result<(), Ended> {
    let mut input = Counted {
        input: rt.stdin(),
        count: 0,
    };
    let front = read_front(rt, &mut input)?;
    match find_front(front.as_slice()) {
        Ok(found) if found.len == front.len() => {}
        Ok(_) => return Err(Ended::Front("no call")),
        Err(FrontFault::Short | FrontFault::None) => return Err(Ended::Front("no call")),
        Err(fault) => return Err(Ended::Front(front_words(fault))),
    }
    // Rules that are refused make no journal.
    if let Err(fault) = replay(rt.alloc(), Explaining, front.as_slice()) {
        return Err(journal_ended(fault));
    }
    let mut file = open_file(rt, journal)?;
    let bytes = read_journal(rt, journal, &mut file, front.as_slice())?;
    let replayed = match replay(rt.alloc(), Explaining, bytes.as_slice()) {
        Ok(replayed) => replayed,
        Err(fault) => return Err(journal_ended(fault)),
    };
    let len = bytes.len();
    drop(bytes);
    cut_end(&file, replayed.end, len)?;
    let mut desk = replayed.desk;
    tell_opened(rt, &desk, len.saturating_sub(replayed.end))?;
    let mut disk = Disk::new(rt, file, desk.extent());
    match serve_calls(rt.alloc(), &mut input, &mut desk, &mut disk) {
        Ok(left) if left.bytes.is_empty() => Ok(()),
        Ok(left) => {
            let at = input.count.saturating_sub(left.bytes.len() as u64);
            if left.is_wrong {
                Err(Ended::NoCall { at })
            } else {
                Err(Ended::Cut { at })
            }
        }
        Err(Stop::OutOfMemory) => Err(Ended::OutOfMemory),
        Err(Stop::Unread) => Err(Ended::Unread),
        Err(Stop::Unknown) => Err(Ended::Unknown),
        Err(Stop::Untold) => Err(Ended::Untold),
    }
}

/// Runs the filter, and gives the status of the process.
pub fn run_filter(rt: &HostRuntime, journal: &str) -> u8 {
    match filter(rt, journal) {
        Ok(()) => 0,
        Err(ended) => {
            print_ended(rt, journal, &ended);
            status_of(&ended)
        }
    }
}
