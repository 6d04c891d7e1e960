//! The parts of a number token.

ghost use Rattle.std.specs.Prelude.{◌≡◌, ◌≤◌, ◌<◌, ◌+◌, ◌^◌, ◌++◌, ◌&&◌, ◌||◌, not, true, nat_lt, length, drop, if◌then◌else◌, IfOk, ◌==◌, slice_index, ℕ};
ghost use Rattle.std.specs.List.{position_or_len, list_all, list_any, before_first};
ghost use Rattle.std.specs.Str.Parse.{digits_value};
ghost use Rattle.auction_terms.specs.Decimals.{is_exponent_mark, is_minus, without_sign, fraction_digits, exponent_text};
ghost use Rattle.auction_terms.specs.Decimals.{exponent_digits, is_number_token, is_too_long, mantissa};
ghost use Rattle.auction_terms.specs.Tokens.{token_of};
ghost use Rattle.std.specs.Char.{is_ascii_digit};

use crate::numbers::digits_after;

/// Why bytes have no parts as a number token.
#[derive(Clone, Copy, Debug, PartialEq, Eq)]
pub enum TokenFault {
    /// They are not of the form of a token.
    NotToken,
    /// More than 30 digits, or an exponent of more than 3 digits or beyond 60.
    TooLong,
}

/// The exact value of a number token: `digits * 10^up / 10^down`, negated if it begins with a
/// minus.
#[derive(Clone, Copy, Debug, PartialEq, Eq)]
pub struct TokenParts {
    pub minus: bool,
    pub digits: u128,
    pub up: u32,
    pub down: u32,
}

pub fn is_minus_at(token: &[u8]) -> bool
    ensures { result ≡ is_minus token.now }
{
    if token.is_empty() {
        return false;
    }
    token[0] == b'-'
}

fn is_signed_at(token: &[u8]) -> bool
    ensures { result ≡ (is_minus token.now || (slice_index token.now 0 == 43)) }
{
    if token.is_empty() {
        return false;
    }
    token[0] == b'-' || token[0] == b'+'
}

pub fn after_sign(token: &[u8]) -> &[u8]
    ensures { result.now ≡ without_sign token.now }
{
    if is_signed_at(token) {
        return &token[1..];
    }
    token
}

fn is_point_byte(b: u8) -> bool
    ensures { result ≡ (b == 46) }
{
    b == b'.'
}

fn is_mark_byte(b: u8) -> bool
    ensures { result ≡ is_exponent_mark b }
{
    b == b'e' || b == b'E'
}

fn point_in(bytes: &[u8]) -> usize
    ensures value { result ≡ position_or_len (λ b. b == 46) bytes.now }
    ensures within { result ≤ length bytes.now }
{
    let mut i = 0;
    while i < bytes.len() {
        if is_point_byte(bytes[i]) {
            return i;
        }
        i += 1;
    }
    i
}

fn mark_in(bytes: &[u8]) -> usize
    ensures value { result ≡ position_or_len is_exponent_mark bytes.now }
    ensures within { result ≤ length bytes.now }
{
    let mut i = 0;
    while i < bytes.len() {
        if is_mark_byte(bytes[i]) {
            return i;
        }
        i += 1;
    }
    i
}

pub fn are_all_digits(bytes: &[u8]) -> bool
    ensures { result ≡ list_all is_ascii_digit bytes.now }
{
    bytes.iter().all(|b| b.is_ascii_digit())
}

fn has_mark(token: &[u8]) -> bool
    ensures { result ≡ list_any is_exponent_mark token.now }
{
    token.iter().any(|b| *b == b'e' || *b == b'E')
}

pub fn after(at: usize, bytes: &[u8]) -> &[u8]
    ensures { result.now ≡ drop (at + 1) bytes.now }
{
    if at < bytes.len() {
        return &bytes[at + 1..];
    }
    &bytes[bytes.len()..]
}

/// Where the parts of a token are.
#[derive(Clone, Copy)]
struct Pieces<'t> {
    whole: &'t [u8],
    fraction: &'t [u8],
    /// The exponent with its sign.
    exponent: &'t [u8],
}

fn pieces_of(token: &[u8]) -> Pieces<'_>
    ensures whole { result.whole.now ≡ before_first (λ b. b == 46) (mantissa token.now) }
    ensures fraction { result.fraction.now ≡ fraction_digits token.now }
    ensures exponent { result.exponent.now ≡ exponent_text token.now }
{
    let unsigned = after_sign(token);
    let mark = mark_in(unsigned);
    let mantissa = &unsigned[..mark];
    let point = point_in(mantissa);
    Pieces {
        whole: &mantissa[..point],
        fraction: after(point, mantissa),
        exponent: after(mark, unsigned),
    }
}

/// Whether there is a digit, and all are.
fn are_some_digits(front: &[u8], back: &[u8]) -> bool
    ensures { result ≡ (nat_lt 0 (length (front.now ++ back.now))
        && list_all is_ascii_digit (front.now ++ back.now)) }
{
    if front.is_empty() && back.is_empty() {
        return false;
    }
    are_all_digits(front) && are_all_digits(back)
}

/// The value of digits, and of others after them.
fn value_of(front: &[u8], back: &[u8]) -> u128
    requires front { list_all is_ascii_digit front.now ≡ true }
    requires back { list_all is_ascii_digit back.now ≡ true }
    requires few { length front.now + length back.now ≤ 30 }
    ensures value { result ≡ digits_value 10 (front.now ++ back.now) }
    ensures low { result < 10 ^ 30 }
{
    let value = digits_after(0, 0, front);
    digits_after(value, front.len(), back)
}

fn is_exponent(is_marked: bool, digits: &[u8]) -> bool
    ensures { result ≡ (not is_marked || (nat_lt 0 (length digits.now)
        && list_all is_ascii_digit digits.now)) }
{
    if !is_marked {
        return true;
    }
    digits.len() > 0 && are_all_digits(digits)
}

/// Whether there are more than 30 bytes.
fn are_many(front: &[u8], back: &[u8]) -> bool
    ensures { result ≡ nat_lt 30 (length (front.now ++ back.now)) }
{
    if front.len() > 30 {
        return true;
    }
    back.len() > 30 - front.len()
}

/// The value of an exponent of at most three digits.
fn exponent_value(digits: &[u8]) -> u32
    requires digits { list_all is_ascii_digit digits.now ≡ true }
    requires few { length digits.now ≤ 3 }
    ensures { result ≡ digits_value 10 digits.now }
{
    digits_after(0, 0, digits) as u32
}

fn places_up(is_negative: bool, places: u32) -> u32
    ensures { result ≡ (if is_negative then 0 else places) }
{
    if is_negative { 0 } else { places }
}

fn places_down(is_negative: bool, places: u32) -> u32
    ensures { result ≡ (if is_negative then places else 0) }
{
    if is_negative { places } else { 0 }
}

/// The exact parts of a number token.
pub fn read_token(bytes: &[u8]) -> Result<TokenParts, TokenFault>
    ensures parts { result ≡ token_of bytes.now }
    ensures digits { IfOk result (λ token. token.digits < 10 ^ 30) }
    ensures up { IfOk result (λ token. token.up ≤ 60) }
    ensures down { IfOk result (λ token. token.down ≤ 90) }
{
    let pieces = pieces_of(bytes);
    let exponent = after_sign(pieces.exponent);
    if !are_some_digits(pieces.whole, pieces.fraction) {
        return Err(TokenFault::NotToken);
    }
    if !is_exponent(has_mark(bytes), exponent) {
        return Err(TokenFault::NotToken);
    }
    if are_many(pieces.whole, pieces.fraction) || exponent.len() > 3 {
        return Err(TokenFault::TooLong);
    }
    let places = exponent_value(exponent);
    if places > 60 {
        return Err(TokenFault::TooLong);
    }
    let is_negative = is_minus_at(pieces.exponent);
    Ok(TokenParts {
        minus: is_minus_at(bytes),
        digits: value_of(pieces.whole, pieces.fraction),
        up: places_up(is_negative, places),
        down: pieces.fraction.len() as u32 + places_down(is_negative, places),
    })
}
