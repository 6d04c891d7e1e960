//! Exact amounts in pounds: a whole number, or one number divided by another.

ghost use Rattle.std.specs.Prelude.{◌≡◌, ◌≤◌, ◌^◌, ◌*◌, ◌==◌};
ghost use Rattle.std.specs.List.{position};
ghost use Rattle.auction_terms.specs.Fractions as of_fractions;
ghost use Rattle.auction_terms.specs.Fractions.{fraction_of};
ghost use Rattle.auction_terms.specs.declared.limits.TheConstants.{GREATEST_AMOUNT, MOST_PARTS};

use crate::numbers::number;

/// A numerator over a denominator, in pounds.
#[derive(Clone, Copy)]
pub struct Fraction {
    pub numerator: u64,
    pub denominator: u64,
}

/// The greatest number that divides both.
pub fn gcd(one: u128, other: u64) -> u64
    requires { 1 ≤ other }
    ensures divisor { result ≡ of_fractions.gcd one other }
    ensures some { 1 ≤ result }
    ensures small { result ≤ other }
{
    let mut greater = one;
    let mut lesser = u128::from(other);
    while lesser != 0 {
        let rest = greater % lesser;
        greater = lesser;
        lesser = rest;
    }
    greater as u64
}

/// The least number that both divide.
pub fn lcm(one: u64, other: u64) -> u64
    requires one { 1 ≤ one }
    requires other { 1 ≤ other }
    requires one_small { one ≤ 10 ^ 6 }
    requires other_small { other ≤ 10 ^ 6 }
    ensures multiple { result ≡ of_fractions.lcm one other }
    ensures some { 1 ≤ result }
    ensures small { result ≤ one * other }
{
    one * other / gcd(u128::from(one), other)
}

// Where the slash is.
fn slash_in(text: &[u8]) -> Option<usize>
    ensures { result ≡ position (λ byte. byte == 47) text.now }
{
    text.iter().position(|byte| *byte == b'/')
}

// One number over another.
fn over(numerator: Option<u64>, denominator: Option<u64>) -> Option<Fraction>
    ensures { result ≡ of_fractions.over numerator denominator }
{
    Some(Fraction {
        numerator: numerator?,
        denominator: denominator?,
    })
}

/// What a text gives: a number, or two with a slash between them, each of 1 to 18 digits.
pub fn read_fraction(text: &[u8]) -> Option<Fraction>
    ensures { result ≡ fraction_of text.now }
{
    match slash_in(text) {
        Some(place) => over(number(&text[..place]), number(&text[place + 1..])),
        None => over(number(text), Some(1)),
    }
}

/// An amount in parts, of which a number make a pound.
pub fn in_parts(parts: u64, price: Fraction) -> u64
    requires few { parts ≤ MOST_PARTS }
    requires some { 1 ≤ price.denominator }
    requires most { price.numerator ≤ GREATEST_AMOUNT * price.denominator }
    ensures amount { result ≡ of_fractions.in_parts parts price }
    ensures small { result ≤ 10 ^ 18 }
{
    let product = u128::from(price.numerator) * u128::from(parts);
    (product / u128::from(price.denominator)) as u64
}
