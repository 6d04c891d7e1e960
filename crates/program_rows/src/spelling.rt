//! The bid that the name of a column spells.

ghost use Rattle.std.specs.Prelude.{◌≡◌, ◌≢◌, ℕ, ◌^◌, ◌<◌, ◌≤◌, decimal, length, MatchOption, ◌==◌};
ghost use Rattle.std.specs.List.{position_or_len};
ghost use Rattle.program_rows.specs.Spelling.{column_bid, is_bid};

use auction_terms::{Choice, MOST_BIDDERS, MOST_BIDS, after, are_all_digits, digits_after};

/// The number that is spelled by digits without a leading zero, if there are at most four.
fn number_spelled(text: &[u8]) -> Option<u16>
    ensures { MatchOption result ((n : ℕ) → 1 ≤ n → n < 10 ^ 4 → decimal n ≢ text.now)
        (λ n. decimal n ≡ text.now) }
{
    if text.is_empty() {
        return None;
    }
    if text.len() > 4 {
        return None;
    }
    if text[0] == b'0' {
        return None;
    }
    if !are_all_digits(text) {
        return None;
    }
    Some(digits_after(0, 0, text) as u16)
}

/// The place of the first bar, or the length if there is none.
fn bar_in(bytes: &[u8]) -> usize
    ensures value { result ≡ position_or_len (λ b. b == 95) bytes.now }
    ensures within { result ≤ length bytes.now }
{
    let mut i = 0;
    while i < bytes.len() {
        if bytes[i] == b'_' {
            return i;
        }
        i += 1;
    }
    i
}

fn is_bid(bidder: u16, bid: u16) -> bool
    ensures { result ≡ is_bid bidder bid }
{
    (1 <= bidder && usize::from(bidder) <= MOST_BIDDERS)
        && (1 <= bid && usize::from(bid) <= MOST_BIDS)
}

/// The bid that a name spells, if it spells one.
pub fn bid_named(name: &[u8]) -> Option<Choice>
    ensures { result ≡ column_bid name.now }
{
    if name.is_empty() {
        return None;
    }
    if name[0] != b'X' {
        return None;
    }
    let numbers = &name[1..];
    let bar = bar_in(numbers);
    if bar == numbers.len() {
        return None;
    }
    let Some(bidder) = number_spelled(&numbers[..bar]) else {
        return None;
    };
    let Some(bid) = number_spelled(after(bar, numbers)) else {
        return None;
    };
    if !is_bid(bidder, bid) {
        return None;
    }
    Some(Choice { bidder, bid })
}
