//! Exact arithmetic in 128 bits.

ghost use Rattle.std.specs.Int.{w64};
ghost use Rattle.std.specs.Prelude.{◌≡◌, ◌+◌, ◌*◌, ◌^◌, ◌≤◌, ◌≤ℤ◌, ◌+ℤ◌, ◌-ℤ◌, ◌*ℤ◌, FitsSigned, IfOk, IfSome, MatchOption};
ghost use Rattle.std.specs.Prelude.{if◌then◌else◌, neg_ℤ, pos, unsigned_abs};
ghost use Rattle.optimality.specs.Stopping.{TooLargeOnly};

use crate::refusal::Limit;

/// 2^126.
const MOST: i128 = 85_070_591_730_234_615_865_843_651_857_942_052_864;

pub fn plus(a: i128, b: i128) -> Result<i128, Limit>
    ensures value { IfOk result (λ n. n ≡ a +ℤ b) }
    ensures too_large { TooLargeOnly (2 ^ 127 ≤ unsigned_abs a + unsigned_abs b) result }
{
    a.checked_add(b).ok_or(Limit::TooLarge)
}

pub fn minus(a: i128, b: i128) -> Result<i128, Limit>
    ensures value { IfOk result (λ n. n ≡ a -ℤ b) }
    ensures too_large { TooLargeOnly (2 ^ 127 ≤ unsigned_abs (a -ℤ b)) result }
{
    a.checked_sub(b).ok_or(Limit::TooLarge)
}

pub fn times(a: i128, b: i128) -> Result<i128, Limit>
    ensures value { IfOk result (λ n. n ≡ a *ℤ b) }
    ensures too_large { TooLargeOnly (2 ^ 127 ≤ unsigned_abs (a *ℤ b)) result }
{
    a.checked_mul(b).ok_or(Limit::TooLarge)
}

/// A number, if it fits 64 bits.
pub fn narrow(number: i128) -> Option<i64>
    ensures { MatchOption result (¬ FitsSigned w64 number) (λ n. n ≡ number) }
{
    i64::try_from(number).ok()
}

/// The product of numbers of 64 bits, which never leaves 128 bits: no check, and one instruction.
pub fn product(a: i64, b: i64) -> i128
    ensures { result ≡ a *ℤ b }
{
    i128::from(a) * i128::from(b)
}

/// A product of numbers of 64 bits more: it fits where the number is below 2^126, which is a cheaper test than a checked sum.
pub fn plus_product(number: i128, product: i128) -> Result<i128, Limit>
    requires low { neg_ℤ (pos (2 ^ 126)) ≤ℤ product }
    requires high { product ≤ℤ pos (2 ^ 126) }
    ensures value { IfOk result (λ n. n ≡ number +ℤ product) }
    ensures too_large { TooLargeOnly (2 ^ 126 ≤ unsigned_abs number) result }
{
    if number < -MOST || number >= MOST {
        return Err(Limit::TooLarge);
    }
    Ok(number + product)
}

/// The same without a reason.
pub fn plus_multiple(sum: i128, factor: i64, number: i64) -> Option<i128>
    ensures { IfSome result (λ n. n ≡ sum +ℤ factor *ℤ number) }
{
    match plus_product(sum, product(factor, number)) {
        Ok(next) => Some(next),
        Err(_) => None,
    }
}

/// A product of numbers that mostly fit 64 bits.
pub fn wide_product(a: i128, b: i128) -> Result<i128, Limit>
    ensures value { IfOk result (λ n. n ≡ a *ℤ b) }
    ensures too_large { TooLargeOnly (2 ^ 127 ≤ unsigned_abs (a *ℤ b)) result }
{
    let (Ok(left), Ok(right)) = (i64::try_from(a), i64::try_from(b)) else {
        return times(a, b);
    };
    Ok(product(left, right))
}

/// The product of a scale and a number of 64 bits, which never leaves 128 bits either.
pub fn scaled(scale: u64, number: i64) -> i128
    ensures { result ≡ pos scale *ℤ number }
{
    i128::from(scale) * i128::from(number)
}

/// A multiplier with the sign that it is to have. There is room for each in 128 bits.
pub fn signed(is_negative: bool, multiplier: u64) -> i128
    ensures { result ≡ (if is_negative then neg_ℤ (pos multiplier) else pos multiplier) }
{
    let number = i128::from(multiplier);
    if is_negative { -number } else { number }
}
