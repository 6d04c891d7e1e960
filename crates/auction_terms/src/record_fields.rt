//! The fields of a record. They are split without the reader of `csv`, whose tables and buffer, 16 KB, are set up for each
//! text: many auctions have forms of a few bytes.

ghost use Rattle.std.specs.Prelude.{◌≡◌, ◌≤◌, [], drop, false, length, true, IfOk, IfSome, IsTrue, OnOk};
ghost use Rattle.csv.specs.Reading.{default_config, records};
ghost use Rattle.csv.specs.Records.{fields_of, partial_of};
ghost use Rattle.csv.specs.declared.parser.State.TheVariants as st;
ghost use Rattle.memchr.specs.Find.{IsFirstByte, Nowhere, Passes, is_byte};
ghost use Rattle.auction_terms.specs.inside.RecordFields.{BeginsNoLineEnd, GivesField, IsAtFieldEnd, TakesFields, begins_with, comma, ends_field, quote};

use csv::ByteRecord;
use std::alloc::AllocError;

// How many line ends the bytes begin with.
pub(crate) fn line_ends(bytes: &[u8]) -> usize
    ensures within { result ≤ length bytes.now }
    ensures after { BeginsNoLineEnd (drop result bytes.now) }
    ensures same { records default_config (drop result bytes.now)
        ≡ records default_config bytes.now }
{
    let mut count = 0;
    while count < bytes.len() && (bytes[count] == b'\n' || bytes[count] == b'\r') {
        count += 1;
    }
    count
}

#[inline(always)]
fn begins_with(byte: u8, bytes: &[u8]) -> bool
    ensures value { result ≡ begins_with byte bytes.now }
    ensures some { IsTrue result → 1 ≤ length bytes.now }
{
    !bytes.is_empty() && bytes[0] == byte
}

// Where the first comma or line end is. Fields are so short that a search by `memchr` costs more than it saves.
#[inline(always)]
fn field_end(bytes: &[u8]) -> usize
    ensures within { result ≤ length bytes.now }
    ensures before { Nowhere (Passes ends_field bytes.now) 0 result }
    ensures end { IsAtFieldEnd (drop result bytes.now) }
{
    for (place, &byte) in bytes.iter().enumerate() {
        if matches!(byte, b',' | b'\n' | b'\r') {
            return place;
        }
    }
    bytes.len()
}

// Where the first quotation mark is.
#[inline(always)]
fn mark_place(bytes: &[u8]) -> Option<usize>
    ensures { IsFirstByte (is_byte quote) bytes.now result }
{
    for (place, &byte) in bytes.iter().enumerate() {
        if byte == b'"' {
            return Some(place);
        }
    }
    None
}

// The field after its opening quotation mark, and the bytes after the field, if the next quotation mark is its last byte.
#[inline(always)]
fn closed_next(bytes: &[u8]) -> Option<(&[u8], &[u8])>
    ensures given { IfSome result (λ cut. GivesField st.InQuoted [] bytes.now cut.0.now
        cut.1.now) }
    ensures shorter { IfSome result (λ cut. length cut.1.now ≤ length bytes.now) }
{
    let mark = mark_place(bytes)?;
    let after = bytes.split_at(mark + 1).1;
    if field_end(after) > 0 {
        return None;
    }
    Some((bytes.split_at(mark).0, after))
}

// Adds to `field` the bytes after its opening quotation mark, and returns the bytes after the field. Two quotation marks
// mean one, and bytes between the closing one and the field's end belong to the field.
fn unquote<'a>(bytes: &'a [u8], field: &mut Vec<u8>) -> Result<&'a [u8], AllocError>
    ensures given { IfOk result (λ rest. GivesField st.InQuoted field.old.items bytes.now
        field.new.items rest.now) }
    ensures shorter { IfOk result (λ rest. length rest.now ≤ length bytes.now) }
{
    let mut left = bytes;
    while let Some(mark) = mark_place(left) {
        field.extend_from_slice(left.split_at(mark).0)?;
        let after = left.split_at(mark + 1).1;
        if !begins_with(b'"', after) {
            let (tail, rest) = after.split_at(field_end(after));
            field.extend_from_slice(tail)?;
            return Ok(rest);
        }
        field.push(b'"')?;
        left = after.split_at(1).1;
    }
    field.extend_from_slice(left)?;
    Ok(&[])
}

// Adds the field in quotation marks that the bytes begin with, and returns the bytes after it. It is put together in `room`
// if its bytes aren't one after the other.
#[inline(never)]
fn take_quoted<'a>(
    bytes: &'a [u8],
    row: &mut ByteRecord,
    room: &mut Vec<u8>,
) -> Result<&'a [u8], AllocError>
    requires quoted { begins_with quote bytes.now ≡ true }
    requires some { 1 ≤ length bytes.now }
    requires whole { partial_of row.old ≡ [] }
    ensures whole { OnOk result (partial_of row.new ≡ []) }
    ensures taken { IfOk result (λ rest. TakesFields bytes.now (fields_of row.old)
        (fields_of row.new) rest.now) }
    ensures shorter { IfOk result (λ rest. length rest.now ≤ length bytes.now) }
{
    let inside = bytes.split_at(1).1;
    if let Some((field, rest)) = closed_next(inside) {
        row.push_field(field)?;
        return Ok(rest);
    }
    room.clear();
    let rest = unquote(inside, room)?;
    row.push_field(room)?;
    Ok(rest)
}

// Adds the field that the bytes begin with, and returns the bytes after it.
#[inline(always)]
fn take_field<'a>(
    bytes: &'a [u8],
    row: &mut ByteRecord,
    room: &mut Vec<u8>,
) -> Result<&'a [u8], AllocError>
    requires whole { partial_of row.old ≡ [] }
    ensures whole { OnOk result (partial_of row.new ≡ []) }
    ensures taken { IfOk result (λ rest. TakesFields bytes.now (fields_of row.old)
        (fields_of row.new) rest.now) }
    ensures shorter { IfOk result (λ rest. length rest.now ≤ length bytes.now) }
{
    if begins_with(b'"', bytes) {
        return take_quoted(bytes, row, room);
    }
    let (field, rest) = bytes.split_at(field_end(bytes));
    row.push_field(field)?;
    Ok(rest)
}

/// Adds the fields of the record that the bytes begin with, and returns the bytes after it, from its line end on.
pub(crate) fn take_fields<'a>(
    bytes: &'a [u8],
    row: &mut ByteRecord,
    room: &mut Vec<u8>,
) -> Result<&'a [u8], AllocError>
    requires whole { partial_of row.old ≡ [] }
    ensures taken { IfOk result (λ rest. TakesFields bytes.now (fields_of row.old)
        (fields_of row.new) rest.now) }
    ensures all { IfOk result (λ rest. begins_with comma rest.now ≡ false) }
{
    let mut rest = take_field(bytes, row, room)?;
    while begins_with(b',', rest) {
        rest = take_field(rest.split_at(1).1, row, room)?;
    }
    Ok(rest)
}
