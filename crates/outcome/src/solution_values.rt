//! The values of number tokens, and which of them count as 0 or 1.

ghost use Rattle.std.specs.Prelude.{◌≡◌, ◌<◌, ◌≤◌, ◌^◌, ◌*◌, if◌then◌else◌, ℤ, pos};
ghost use Rattle.outcome.specs.inside.SolutionValues.{token_value, value_fault, near_of};
ghost use Rattle.auction_terms.specs.Decimals.{signed};

use crate::limits::TOLERANCE_PARTS;
use auction_terms::read_token;
use program_rows::SolutionFault;

/// What is wrong with a value.
#[derive(Clone, Copy, Debug, PartialEq, Eq)]
pub enum ValueFault {
    /// It is no number token, or one that is too long.
    ValueText,
    /// It is neither 0 nor 1 by the tolerance.
    NotZeroOne,
}

/// What digits with the point moved count as.
fn near(minus: bool, digits: u128, up: u32, down: u32) -> Result<bool, ValueFault>
    requires digits { digits < 10 ^ 30 }
    requires up { up ≤ 60 }
    requires down { down ≤ 90 }
    ensures { result ≡ near_of (signed minus (digits * 10 ^ up)) (10 ^ down) }
{
    if up >= down {
        near_whole(minus, digits, up - down)
    } else {
        near_part(minus, digits, down - up)
    }
}

/// The same, of a whole number.
fn near_whole(minus: bool, digits: u128, places: u32) -> Result<bool, ValueFault>
    requires digits { digits < 10 ^ 30 }
    ensures { result ≡ near_of (signed minus (digits * 10 ^ places)) 1 }
{
    if digits == 0 {
        return Ok(false);
    }
    if minus {
        return Err(ValueFault::NotZeroOne);
    }
    if digits > 1 {
        return Err(ValueFault::NotZeroOne);
    }
    if places > 0 {
        return Err(ValueFault::NotZeroOne);
    }
    Ok(true)
}

/// The greatest power of ten that 128 bits hold.
const GREATEST_POWER: u32 = 38;

/// The same, with digits after the point.
fn near_part(minus: bool, digits: u128, places: u32) -> Result<bool, ValueFault>
    requires digits { digits < 10 ^ 30 }
    ensures { result ≡ near_of (signed minus digits) (10 ^ places) }
{
    if places > GREATEST_POWER {
        return Ok(false);
    }
    let unit = 10u128.pow(places);
    let tolerance = unit / TOLERANCE_PARTS;
    if digits <= tolerance {
        return Ok(false);
    }
    if minus {
        return Err(ValueFault::NotZeroOne);
    }
    if digits.abs_diff(unit) > tolerance {
        return Err(ValueFault::NotZeroOne);
    }
    Ok(true)
}

/// What a token counts as: 0 or 1.
#[tactic(auto, unfolding(crate::specs::inside::SolutionValues::token_value))]
pub fn value_of(token: &[u8]) -> Result<bool, ValueFault>
    ensures { result ≡ token_value token.now }
{
    match read_token(token) {
        Ok(parts) => near(parts.minus, parts.digits, parts.up, parts.down),
        Err(_) => Err(ValueFault::ValueText),
    }
}

/// A fault of a value, at a line.
pub fn at_line(fault: ValueFault, place: usize) -> SolutionFault
    ensures { Some result ≡ value_fault place (Err fault) }
{
    match fault {
        ValueFault::ValueText => SolutionFault::ValueText { place },
        ValueFault::NotZeroOne => SolutionFault::NotZeroOne { place },
    }
}
