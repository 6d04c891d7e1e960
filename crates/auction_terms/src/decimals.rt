//! Whole numbers of number tokens.

ghost use Rattle.std.specs.Prelude.{◌≡◌, ◌*◌, ◌^◌, ◌<◌, ◌≤◌, true, length, IfSome, IfOk, Result, Ok, Err, ℤ, ℕ};
ghost use Rattle.std.specs.Str.Parse.{digits_value};
ghost use Rattle.auction_terms.specs.Decimals.{number, signed, whole_of};
ghost use Rattle.std.specs.List.{list_all};
ghost use Rattle.std.specs.Char.{is_ascii_digit};

use crate::token::{TokenFault, after_sign, is_minus_at, read_token};

/// What is wrong with a number token.
#[derive(Clone, Copy, Debug, PartialEq, Eq)]
pub enum NumberFault {
    NumberText,
    NumberRange,
    NotWhole,
}

const LIMIT: u128 = 1_000_000_000_000_000_000;

/// The digits with the point moved, if that is whole and small enough.
pub fn scaled(digits: u128, up: u32, down: u32) -> Result<u128, NumberFault>
    requires digits { digits < 10 ^ 30 }
    requires up { up ≤ 60 }
    requires down { down ≤ 90 }
    ensures { result ≡ whole_of (digits * 10 ^ up) (10 ^ down) }
{
    if digits == 0 {
        return Ok(0);
    }
    if up >= down {
        raised(digits, up - down)
    } else {
        lowered(digits, down - up)
    }
}

fn raised(digits: u128, places: u32) -> Result<u128, NumberFault>
    requires digits { digits < 10 ^ 30 }
    requires some { 0 < digits }
    requires places { places ≤ 60 }
    ensures { result ≡ whole_of (digits * 10 ^ places) 1 }
{
    if places > 18 {
        return Err(NumberFault::NumberRange);
    }
    if digits > LIMIT {
        return Err(NumberFault::NumberRange);
    }
    let value = digits * 10u128.pow(places);
    if value > LIMIT {
        return Err(NumberFault::NumberRange);
    }
    Ok(value)
}

fn lowered(digits: u128, places: u32) -> Result<u128, NumberFault>
    requires digits { digits < 10 ^ 30 }
    requires some { 0 < digits }
    ensures { result ≡ whole_of digits (10 ^ places) }
{
    if places >= 30 {
        return Err(NumberFault::NotWhole);
    }
    let unit = 10u128.pow(places);
    if digits % unit != 0 {
        return Err(NumberFault::NotWhole);
    }
    if digits / unit > LIMIT {
        return Err(NumberFault::NumberRange);
    }
    Ok(digits / unit)
}

fn with_sign(minus: bool, size: u128) -> i64
    requires { size ≤ 10 ^ 18 }
    ensures { result ≡ signed minus size }
{
    let size = size as i64;
    if minus { -size } else { size }
}

/// The value of digits alone, if there are at most 18.
#[inline(always)]
fn few_digits(bytes: &[u8]) -> Option<u128>
    ensures digits { IfSome result (λ _. list_all is_ascii_digit bytes.now ≡ true) }
    ensures some { IfSome result (λ _. 1 ≤ length bytes.now) }
    ensures few { IfSome result (λ _. length bytes.now ≤ 18) }
    ensures value { IfSome result (λ value. value ≡ digits_value 10 bytes.now) }
    ensures low { IfSome result (λ value. value < 10 ^ 18) }
{
    if bytes.is_empty() || bytes.len() > 18 {
        return None;
    }
    let mut value: u64 = 0;
    let mut i = 0;
    while i < bytes.len() {
        if !bytes[i].is_ascii_digit() {
            return None;
        }
        value = value * 10 + (bytes[i] - b'0') as u64;
        i += 1;
    }
    Some(value as u128)
}

/// The value of a token of at most a sign and few digits, as nearly all are.
#[inline(always)]
fn short_number(bytes: &[u8]) -> Option<i64>
    ensures { IfSome result (λ value. number bytes.now ≡ Ok value) }
{
    let size = few_digits(after_sign(bytes))?;
    Some(with_sign(is_minus_at(bytes), size))
}

#[inline(never)]
#[tactic(auto, unfolding(crate::specs::Decimals::number))]
fn any_number(bytes: &[u8]) -> Result<i64, NumberFault>
    ensures { result ≡ number bytes.now }
{
    let token = match read_token(bytes) {
        Ok(token) => token,
        Err(TokenFault::NotToken) => return Err(NumberFault::NumberText),
        Err(TokenFault::TooLong) => return Err(NumberFault::NumberRange),
    };
    let size = scaled(token.digits, token.up, token.down)?;
    Ok(with_sign(token.minus, size))
}

/// The whole value of a number token, from -10^18 to 10^18.
#[inline(always)]
pub fn read_number(bytes: &[u8]) -> Result<i64, NumberFault>
    ensures { result ≡ number bytes.now }
{
    match short_number(bytes) {
        Some(value) => Ok(value),
        None => any_number(bytes),
    }
}
