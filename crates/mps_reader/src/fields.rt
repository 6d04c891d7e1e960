//! What the lines of an MPS text are, their fields, and the numbers and words that fields are.

ghost use Rattle.std.specs.Prelude.{◌≡◌, ◌≤◌, ◌<◌, ◌∷◌, [], true, false, take, drop, length, position, MatchOption, IfSome};
ghost use Rattle.std.specs.Prelude.{IfOk, OnErr, bytes_eq};
ghost use Rattle.std.specs.List.{list_all};
ghost use Rattle.auction_terms.specs.LineFields.{fields, is_space};
ghost use Rattle.auction_terms.specs.Lines.{bytes_of};
ghost use Rattle.mps_reader.specs.inside.Reading.{is_other, is_after, is_text_byte, IsLine, AnswersFault, bit_fault};
ghost use Rattle.program_rows.specs.MpsProgram.{value};
ghost use Rattle.program_rows.specs.MpsFaults.{number_fault};
ghost use Rattle.mps_reader.specs.inside.Tracking.{bit};
ghost use Rattle.auction_terms.specs.Decimals.{number};

use crate::refusal::Refusal;
use arrayvec::ArrayVec;
use auction_terms::{NumberFault, read_number};
use program_rows::MpsFaultKind;

/// The first fields of a line. No line that is accepted has more than five, so six distinguish all lines.
pub type Fields<'t> = ArrayVec<&'t [u8], 6>;

fn is_space_byte(b: u8) -> bool
    ensures { result ≡ is_space b }
{
    b == b' ' || b == b'\t'
}

fn field_start(rest: &[u8]) -> Option<usize>
    ensures { result ≡ position is_other rest.now }
{
    let mut i = 0;
    while i < rest.len() {
        if !is_space_byte(rest[i]) {
            return Some(i);
        }
        i += 1;
    }
    None
}

/// The place of the first byte that isn't of a field: white space, or a byte that no text has.
fn field_end(text: &[u8]) -> Option<usize>
    ensures { result ≡ position is_after text.now }
{
    let mut i = 0;
    while i < text.len() {
        if text[i] < b'!' || text[i] > b'~' {
            return Some(i);
        }
        i += 1;
    }
    None
}

// The rest of a text, as a value of its own: the loop over fields states what is left by it.
fn after(text: &[u8], start: usize) -> &[u8]
    requires { start ≤ length text.now }
    ensures { result.now ≡ drop start text.now }
{
    &text[start..]
}

/// A byte that no text has is among the fields.
#[derive(Clone, Copy)]
pub struct NotText;

/// The first field of a text, and what follows it.
fn next_field(rest: &[u8]) -> Result<Option<(&[u8], &[u8])>, NotText>
    ensures fields { IfOk result (λ found. MatchOption found (fields rest.now ≡ [])
        (λ found. fields rest.now ≡ found.0.now ∷ fields found.1.now)) }
    ensures text { IfOk result (λ found. MatchOption found (list_all is_text_byte rest.now ≡ true)
        (λ found. list_all is_text_byte rest.now ≡ list_all is_text_byte found.1.now)) }
    ensures shorter { IfOk result (λ found. IfSome found
        (λ found. length found.1.now < length rest.now)) }
    ensures other { OnErr result (list_all is_text_byte rest.now ≡ false) }
{
    let Some(start) = field_start(rest) else {
        return Ok(None);
    };
    let text = after(rest, start);
    let Some(end) = field_end(text) else {
        return Ok(Some((text, after(text, text.len()))));
    };
    if !is_space_byte(text[end]) {
        return Err(NotText);
    }
    Ok(Some((&text[..end], after(text, end + 1))))
}

/// The first fields of a line of text.
fn first_fields(line: &[u8]) -> Result<Fields<'_>, NotText>
    ensures fields { IfOk result (λ found. bytes_of found.items ≡ take 6 (fields line.now)) }
    ensures text { IfOk result (λ _. list_all is_text_byte line.now ≡ true) }
    ensures other { OnErr result (list_all is_text_byte line.now ≡ false) }
{
    let mut fields = ArrayVec::new();
    let mut rest = line;
    while let Some((field, after)) = next_field(rest)? {
        if !fields.is_full() {
            fields.push(field);
        }
        rest = after;
    }
    Ok(fields)
}

/// A line.
#[derive(Drop)]
pub enum Line<'t> {
    Skipped,
    Unprintable,
    Header(Fields<'t>),
    Data(Fields<'t>),
}

/// What a line is, with its first fields.
pub fn read_line(bytes: &[u8]) -> Line<'_>
    ensures { IsLine result bytes.now }
{
    if bytes.is_empty() {
        return Line::Skipped;
    }
    if bytes[0] == b'*' {
        return Line::Skipped;
    }
    let Ok(fields) = first_fields(bytes) else {
        return Line::Unprintable;
    };
    if fields.is_empty() {
        return Line::Skipped;
    }
    if is_space_byte(bytes[0]) {
        return Line::Data(fields);
    }
    Line::Header(fields)
}

/// Whether the bytes are those of the word.
pub fn is_word(bytes: &[u8], word: &[u8]) -> bool
    ensures { result ≡ bytes_eq bytes.now word.now }
{
    bytes == word
}

/// A number.
#[inline(always)]
pub fn take_number(token: &[u8]) -> Result<i64, Refusal>
    ensures fault { AnswersFault result (number_fault (number token.now)) }
    ensures value { IfOk result (λ n. value token.now ≡ n) }
{
    match read_number(token) {
        Ok(value) => Ok(value),
        Err(NumberFault::NumberText) => Err(Refusal::Fault(MpsFaultKind::NumberText)),
        Err(NumberFault::NumberRange) => Err(Refusal::Fault(MpsFaultKind::NumberRange)),
        Err(NumberFault::NotWhole) => Err(Refusal::Fault(MpsFaultKind::NotWhole)),
    }
}

/// A number that is 0 or 1.
pub fn take_bit(token: &[u8]) -> Result<bool, Refusal>
    ensures fault { AnswersFault result (bit_fault token.now) }
    ensures value { IfOk result (λ b. value token.now ≡ bit b) }
{
    let value = take_number(token)?;
    if value == 0 {
        return Ok(false);
    }
    refuse!(value != 1, BoundValue);
    Ok(true)
}
