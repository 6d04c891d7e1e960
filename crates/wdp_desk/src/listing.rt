//! Replaying a journal.

use crate::faults::Explaining;
use crate::filter::{Ended, journal_ended, print_ended};
use crate::reading::read_all;
use desk_book::{Counts, Desk, EntryText, JOURNAL_LIMIT, Replayed, find_entry, find_front, replay};
use itoa::Buffer;
use std::alloc::{AllocError, Global};
use std::fs::File;
use std::io::Write;

/// Reads a whole journal, which isn't changed.
pub fn read_file(rt: &HostRuntime, name: &str) -> Result<Vec<u8>, Ended> {
    let Ok(mut file) = File::open(rt, name) else {
        return Err(Ended::Journal("it can't be opened"));
    };
    match read_all(rt.alloc(), &mut file, JOURNAL_LIMIT as usize) {
        Ok(bytes) => Ok(bytes),
        Err(_) => Err(Ended::Journal("it can't be read")),
    }
}

// Adds words with blanks between, and a line end.
fn add_words(list: &mut Vec<u8>, words: &[&[u8]]) -> Result<(), AllocError> {
    for (place, word) in words.iter().enumerate() {
        if place > 0 {
            list.push(b' ')?;
        }
        list.extend_from_slice(word)?;
    }
    list.push(b'\n')?;
    Ok(())
}

// Adds the line of an entry.
fn add_entry(list: &mut Vec<u8>, text: &EntryText<'_>) -> Result<(), AllocError> {
    let words: [&[u8]; 11] = [
        text.head.entry,
        text.head.time,
        text.head.bidder,
        text.head.session,
        text.head.kind,
        text.head.over,
        text.tail.answer,
        text.tail.number,
        text.head.bids,
        text.head.commit,
        text.tail.chain,
    ];
    add_words(list, &words)
}

// Adds the lines of entries, of which the bytes are these, one after the other.
fn add_entries(list: &mut Vec<u8>, entries: &[u8]) -> Result<(), AllocError> {
    let mut rest = entries;
    while let Some(text) = find_entry(rest) {
        add_entry(list, &text)?;
        rest = &rest[text.len..];
    }
    Ok(())
}

// Adds the line of a bidder.
fn add_bidder(
    list: &mut Vec<u8>,
    desk: &Desk<Explaining>,
    bidder: u16,
    name: &[u8],
    counts: &Counts,
) -> Result<(), AllocError> {
    let mut calls = Buffer::new();
    let mut changes = Buffer::new();
    let mut number = Buffer::new();
    let mut entry = Buffer::new();
    let mut bids = Buffer::new();
    let front: [&[u8]; 4] = [
        b"%bidder",
        name,
        calls.format(counts.entries).as_bytes(),
        changes.format(counts.changes).as_bytes(),
    ];
    for word in &front {
        list.extend_from_slice(word)?;
        list.push(b' ')?;
    }
    match desk.book().standing(bidder) {
        Some(standing) => {
            let words: [&[u8]; 4] = [
                number.format(standing.number).as_bytes(),
                entry.format(standing.form.entry).as_bytes(),
                bids.format(standing.form.bids).as_bytes(),
                &standing.form.commit,
            ];
            add_words(list, &words)
        }
        None => {
            let words: [&[u8]; 4] = [b"-", b"-", b"0", b"-"];
            add_words(list, &words)
        }
    }
}

// Adds the lines of the state.
fn add_state(
    alloc: Global,
    list: &mut Vec<u8>,
    replayed: &Replayed<Explaining>,
) -> Result<(), AllocError> {
    let desk = &replayed.desk;
    let counts = desk.counts(alloc)?;
    for (place, bidder) in desk.rules().bidders().iter().enumerate() {
        let Some(counts) = counts.get(place) else {
            break;
        };
        let number = place.min(255) as u16 + 1;
        add_bidder(list, desk, number, bidder.name.as_bytes(), counts)?;
    }
    let mut entries = Buffer::new();
    let mut end = Buffer::new();
    let is: &[u8] = if desk.is_open() { b"open" } else { b"closed" };
    let words: [&[u8]; 5] = [
        b"%state",
        is,
        entries.format(desk.entries()).as_bytes(),
        end.format(replayed.end).as_bytes(),
        desk.chain(),
    ];
    add_words(list, &words)
}

// All lines.
fn lines_of(
    alloc: Global,
    bytes: &[u8],
    replayed: &Replayed<Explaining>,
) -> Result<Vec<u8>, AllocError> {
    let mut list = Vec::new(alloc);
    if let Ok(front) = find_front(bytes) {
        let words: [&[u8]; 1] = [front.line];
        add_words(&mut list, &words)?;
        if front.len <= replayed.end && replayed.end <= bytes.len() {
            add_entries(&mut list, &bytes[front.len..replayed.end])?;
        }
    }
    add_state(alloc, &mut list, replayed)?;
    if replayed.end < bytes.len() {
        let mut end = Buffer::new();
        let words: [&[u8]; 2] = [b"torn at byte", end.format(replayed.end).as_bytes()];
        add_words(&mut list, &words)?;
    }
    Ok(list)
}

// Prints the replies and the state of a journal.
fn print_replay(rt: &HostRuntime, journal: &str) -> Result<(), Ended> {
    let bytes = read_file(rt, journal)?;
    let replayed = match replay(rt.alloc(), Explaining, bytes.as_slice()) {
        Ok(replayed) => replayed,
        Err(fault) => return Err(journal_ended(fault)),
    };
    let Ok(lines) = lines_of(rt.alloc(), bytes.as_slice(), &replayed) else {
        return Err(Ended::OutOfMemory);
    };
    if rt.stdout().write_all(lines.as_slice()).is_err() {
        return Err(Ended::Untold);
    }
    Ok(())
}

/// Prints the replies and the state of a journal, and gives the status of the process.
pub fn run_replay(rt: &HostRuntime, journal: &str) -> u8 {
    match print_replay(rt, journal) {
        Ok(()) => 0,
        Err(ended) => {
            print_ended(rt, journal, &ended);
            1
        }
    }
}
