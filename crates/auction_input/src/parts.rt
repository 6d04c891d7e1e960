//! The parts of the input.

ghost use Rattle.std.specs.Prelude.{◌≡◌, ◌≤◌, ◌<◌, ◌∷◌, ◌⊎◌, ℕ, [], IfErr, IfOk, OnOk, drop, filter, find, length, map, take, true};
ghost use Rattle.std.specs.List.{list_any};
ghost use Rattle.std.specs.Option.{option_copied};
ghost use Rattle.auction_input.specs.Parts.{TellsParts, heads_part, bytes_before, cut_lines, has_bytes_before, name_of, unknown_part};
ghost use Rattle.auction_input.specs.Parts.{parts_held, parts_in, parts_named, text_numbers};
ghost use Rattle.auction_input.specs.ParsedParts.{only_text};
ghost use Rattle.auction_terms.specs.Lines.{bytes_of};
ghost use Rattle.auction_input.specs.inside.Parts.{HaveAdded, IsFaultAfter, is_held, part, part_name};

use crate::input_texts::{Input, NamedText};
use crate::part_kind::{PartKind, kind_named};
use crate::request::Request;
use auction_terms::LineReader;
use memchr::memmem;
use std::alloc::{AllocError, Global};

/// A part of the input: the number of its text, from 0, its kind, and the bytes after the line that heads it.
#[derive(Clone, Copy)]
pub struct Part<'t> {
    pub text: usize,
    pub kind: PartKind,
    pub bytes: &'t [u8],
}

/// Why an input has no parts. A part is counted from 1.
#[derive(Clone, Copy, Debug, PartialEq, Eq)]
pub enum PartFault {
    BeforeFirst,
    PartName { part: usize },
    /// A `%weights`, which an audit of version 1 has, and `%rule` takes the place of.
    OfVersion1 { part: usize },
    OutOfMemory,
}

impl From<AllocError> for PartFault {
    ghost use Rattle.auction_input.specs.declared.parts.PartFault.TheVariants.{OutOfMemory};

    ghost from_gives = { λ _ e. e ≡ OutOfMemory };

    fn from(_: AllocError) -> PartFault {
        PartFault::OutOfMemory
    }
}

// Where the first line of a text ends, after its line feed.
fn line_end(text: &[u8]) -> usize
    requires { 0 < length text.now }
    ensures some { 0 < result }
    ensures within { result ≤ length text.now }
    ensures cut { cut_lines text.now ≡ take result text.now ∷ cut_lines (drop result text.now) }
{
    for (end, &byte) in text.iter().enumerate() {
        if byte == b'\n' {
            return end + 1;
        }
    }
    text.len()
}

// Whether a text begins with a line that heads a part.
fn is_headed(text: &[u8]) -> bool
    ensures { result ≡ heads_part text.now }
{
    text.starts_with(b"%")
}

// How many bytes there are before the next line that heads a part.
fn body_end(text: &[u8]) -> usize
    ensures within { result ≤ length text.now }
    ensures bytes { bytes_before (cut_lines text.now) ≡ take result text.now }
    ensures parts { (n : ℕ) → parts_in n (cut_lines text.now)
        ≡ parts_in n (cut_lines (drop result text.now)) }
    ensures next { result < length text.now → heads_part (drop result text.now) ≡ true }
{
    if is_headed(text) {
        return 0;
    }
    match memmem::find(text, b"\n%") {
        Some(feed) => feed + 1,
        None => text.len(),
    }
}

/// The name in the line that heads a part.
pub fn head_name(head: &[u8]) -> &[u8]
    ensures { result.now ≡ part_name head.now }
{
    match LineReader::new(head).next() {
        Some(name) => name,
        None => b"".as_slice(),
    }
}

/// A part, and what comes after it.
#[derive(Clone, Copy)]
pub struct FirstPart<'t> {
    pub head: &'t [u8],
    pub bytes: &'t [u8],
    pub rest: &'t [u8],
}

/// The first part of a text that begins with one.
pub fn first_part(text: &[u8]) -> FirstPart<'_>
    requires { heads_part text.now ≡ true }
    ensures parts { (n : ℕ) → parts_in n (cut_lines text.now)
        ≡ part n result.head.now result.bytes.now ∷ parts_in n (cut_lines result.rest.now) }
    ensures shorter { length result.rest.now < length text.now }
    ensures next { (result.rest.now ≡ []) ⊎ (heads_part result.rest.now ≡ true) }
{
    let (head, after) = text.split_at(line_end(text));
    let (bytes, rest) = after.split_at(body_end(after));
    FirstPart { head, bytes, rest }
}

/// What comes after the bytes before the first part.
pub fn without_bytes_before(text: &[u8]) -> &[u8]
    ensures parts { (n : ℕ) → parts_in n (cut_lines text.now) ≡ parts_in n (cut_lines result.now) }
    ensures within { length result.now ≤ length text.now }
    ensures next { (result.now ≡ []) ⊎ (heads_part result.now ≡ true) }
{
    text.split_at(body_end(text)).1
}

// The fault of the part of that number, whose name no command knows.
fn unknown(part: usize, name: &[u8]) -> PartFault
    ensures { result ≡ unknown_part part name.now }
{
    if name == b"%weights".as_slice() {
        PartFault::OfVersion1 { part }
    } else {
        PartFault::PartName { part }
    }
}

// Adds the parts of the text of that number, which begins with its first part.
fn add_parts<'t>(
    parts: &mut Vec<Part<'t>>,
    request: &Request,
    number: usize,
    text: &'t [u8],
) -> Result<(), PartFault>
    requires { bytes_before (cut_lines text.now) ≡ [] }
    ensures added { OnOk result (HaveAdded request.now (parts_held parts.old.items)
        (parts_held parts.new.items) (parts_in number (cut_lines text.now))) }
    ensures fault { IfErr result (IsFaultAfter request.now (parts_held parts.old.items)
        (parts_in number (cut_lines text.now))) }
{
    let mut rest = text;
    while !rest.is_empty() {
        let first = first_part(rest);
        let Some(kind) = kind_named(request, head_name(first.head)) else {
            return Err(unknown(parts.len() + 1, head_name(first.head)));
        };
        let part = Part {
            text: number,
            kind,
            bytes: first.bytes,
        };
        if parts.push(part).is_err() {
            return Err(PartFault::OutOfMemory);
        }
        rest = first.rest;
    }
    Ok(())
}

/// Whether a text has bytes before its first part.
pub fn has_bytes_before(given: &NamedText) -> bool
    ensures { result ≡ has_bytes_before given.now }
{
    body_end(given.bytes()) > 0
}

fn have_bytes_before(texts: &[NamedText]) -> bool
    ensures { result ≡ list_any has_bytes_before texts.now }
{
    texts.iter().any(|given| has_bytes_before(given))
}

/// Splits each text of the input of a request into its parts. No byte is copied.
pub fn split_parts<'t>(
    alloc: Global,
    request: &Request,
    input: &'t Input,
) -> Result<Vec<Part<'t>>, PartFault>
    ensures { TellsParts request.now result input.now }
{
    let texts = input.texts();
    if have_bytes_before(texts) {
        return Err(PartFault::BeforeFirst);
    }
    let mut parts = Vec::new(alloc);
    for (place, text) in texts.iter().enumerate() {
        match add_parts(&mut parts, request, place, text.bytes()) {
            Ok(()) => {}
            Err(fault) => return Err(fault),
        }
    }
    Ok(parts)
}

// Whether a part is of a kind.
fn is_of(part: &Part<'_>, kind: PartKind) -> bool
    ensures { result ≡ is_held kind part.now }
{
    part.kind == kind
}

/// How many parts there are of a kind.
pub fn count_of(parts: &[Part<'_>], kind: PartKind) -> usize
    ensures { result ≡ length (parts_named (name_of kind) (parts_held parts.now)) }
{
    parts.iter().filter(|part| is_of(*part, kind)).count()
}

fn texts_held<'t>(
    alloc: Global,
    parts: &[Part<'t>],
    kind: PartKind,
) -> Result<Vec<&'t [u8]>, AllocError>
    ensures { IfOk result (λ texts. texts.items
        ≡ map (λ part. part.bytes) (filter (is_held kind) parts.now)) }
{
    parts
        .iter()
        .filter(|part| is_of(*part, kind))
        .map(|part| part.bytes)
        .collect(alloc)
}

/// The bytes of the parts of a kind, in the order of the input.
pub fn texts_of<'t>(
    alloc: Global,
    parts: &[Part<'t>],
    kind: PartKind,
) -> Result<Vec<&'t [u8]>, AllocError>
    ensures { IfOk result (λ texts. bytes_of texts.items
        ≡ parts_named (name_of kind) (parts_held parts.now)) }
{
    texts_held(alloc, parts, kind)
}

fn numbers_held(alloc: Global, parts: &[Part<'_>], kind: PartKind) -> Result<Vec<usize>, AllocError>
    ensures { IfOk result (λ numbers. numbers.items
        ≡ map (λ part. part.text) (filter (is_held kind) parts.now)) }
{
    parts
        .iter()
        .filter(|part| is_of(*part, kind))
        .map(|part| part.text)
        .collect(alloc)
}

/// The numbers of the texts that the parts of a kind are in, in the order of the input.
pub fn text_numbers_of(
    alloc: Global,
    parts: &[Part<'_>],
    kind: PartKind,
) -> Result<Vec<usize>, AllocError>
    ensures { IfOk result (λ numbers. numbers.items
        ≡ text_numbers (name_of kind) (parts_held parts.now)) }
{
    numbers_held(alloc, parts, kind)
}

fn first_held<'p, 't>(parts: &'p [Part<'t>], kind: PartKind) -> Option<&'p Part<'t>>
    ensures { option_copied result ≡ find (is_held kind) parts.now }
{
    parts.iter().find(|part| is_of(*part, kind))
}

/// The bytes of the first part of a kind; where there is none, no text.
pub fn text_of<'t>(parts: &[Part<'t>], kind: PartKind) -> &'t [u8]
    ensures { result.now ≡ only_text (parts_named (name_of kind) (parts_held parts.now)) }
{
    match first_held(parts, kind) {
        Some(part) => part.bytes,
        None => b"".as_slice(),
    }
}
