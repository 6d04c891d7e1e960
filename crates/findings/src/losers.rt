//! The certificate of a group none of whose bidders wins: that of group 1, without the names that the group's program hasn't got.
//!
//! Bounds only rise where columns go, and rows that are at most their right sides.

use auction_terms::{Group, LineReader, next_field};
use program_rows::bid_named;
use std::alloc::{AllocError, Global};

/// The bidder whose row a name is.
fn row_bidder(name: &[u8]) -> Option<u16> {
    let digits = name.strip_prefix(b"B")?;
    str::from_utf8(digits).ok()?.parse::<u16>().ok()
}

/// The bidder whose column or row a name is.
fn bidder_of(name: &[u8]) -> Option<u16> {
    match bid_named(name) {
        Some(choice) => Some(choice.bidder),
        None => row_bidder(name),
    }
}

/// Whether a name is of a group's bidder.
fn is_of(name: &[u8], group: &Group) -> bool {
    match bidder_of(name) {
        Some(bidder) => group.has(bidder),
        None => false,
    }
}

/// Adds a field to a line.
fn add_field(text: &mut Vec<u8>, field: &[u8]) -> Result<(), AllocError> {
    match text.last() {
        None | Some(&b'\n') => {}
        Some(_) => text.push(b' ')?,
    }
    text.extend_from_slice(field)?;
    Ok(())
}

/// Adds a line without the names of a group's bidders, each with its number.
fn add_line(text: &mut Vec<u8>, line: &[u8], group: &Group) -> Result<(), AllocError> {
    let mut rest = line;
    let mut is_after_name = false;
    for _ in 0..line.len() {
        let Some(field) = next_field(rest) else {
            break;
        };
        rest = field.rest;
        let is_name = !is_after_name && is_of(field.text, group);
        if !is_name && !is_after_name {
            add_field(text, field.text)?;
        }
        is_after_name = is_name;
    }
    text.push(b'\n')?;
    Ok(())
}

/// Adds the lines of a certificate, each without the names of a group's bidders.
fn add_lines(text: &mut Vec<u8>, certificate: &[u8], group: &Group) -> Result<(), AllocError> {
    let mut lines = LineReader::new(certificate);
    for _ in 0..certificate.len() {
        let Some(line) = lines.next() else {
            break;
        };
        add_line(text, line, group)?;
    }
    Ok(())
}

/// A certificate without the names of a group's bidders.
pub fn without_names(
    alloc: Global,
    certificate: &[u8],
    group: &Group,
) -> Result<Vec<u8>, AllocError> {
    let mut text = Vec::new(alloc);
    add_lines(&mut text, certificate, group)?;
    Ok(text)
}
