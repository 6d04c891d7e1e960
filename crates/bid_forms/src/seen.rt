//! The packages of a form's bids, known by their fingerprints.

ghost use Rattle.std.specs.Prelude.{◌≡◌, ◌≤◌, ◌<◌, ◌+◌, ◌*◌, ◌%◌, ◌^◌, ◌∷◌, ◌++◌, [], All, IfOk, length, slice_index};
ghost use Rattle.auction_terms.specs.declared.limits.TheConstants.{MOST_BIDS};
ghost use Rattle.bid_forms.specs.declared.seen.TheConstants.{PRIME};
ghost use Rattle.bid_forms.specs.inside.Fingerprints.{AreSeen, fingerprint, four_from};
ghost use Rattle.bid_forms.specs.Offers.{number_of_package};

use auction_terms::Bid;
use std::alloc::{AllocError, Global};
use std::collections::HashSet;
use std::hash::{DefaultHasher, Hasher};

/// The modulus of fingerprints, a prime.
const PRIME: u64 = (1 << 61) - 1;

/// A number that is greater than any quantity, in powers of which four quantities are one number.
const DIGIT: u64 = 1 << 15;

/// The fingerprints of the packages so far. Only a package whose fingerprint is among them is looked for among the bids.
#[derive(Drop)]
pub(crate) struct Seen {
    pub(crate) multiplier: u64,
    pub(crate) prints: HashSet<u64>,
}

impl Seen {
    /// None so far, for the bids of a text. The multiplier is a hash of the text, so packages that share a fingerprint can't be
    /// chosen for it: putting them into the text changes it. Any two packages share one at no more than 7 points.
    pub(crate) fn of_text(alloc: Global, text: &[u8]) -> Seen
        ensures { result.prints.keys ≡ [] }
    {
        let mut hasher = DefaultHasher::new();
        hasher.write(text);
        Seen {
            multiplier: hasher.finish(),
            prints: HashSet::new(alloc),
        }
    }
}

// The quantity of a category, 0 past the last one.
fn quantity_at(quantities: &[u16], place: usize) -> u64
    ensures same { result ≡ slice_index quantities.now place }
    ensures small { result < 2 ^ 16 }
{
    match quantities.get(place) {
        Some(quantity) => u64::from(*quantity),
        None => 0,
    }
}

// The quantities of four categories as one number.
fn four_from(quantities: &[u16], place: usize) -> u64
    requires { place < length quantities.now }
    ensures same { result ≡ four_from quantities.now place }
    ensures small { result < 2 ^ 62 }
{
    let first = quantity_at(quantities, place);
    let second = quantity_at(quantities, place + 1);
    let third = quantity_at(quantities, place + 2);
    let fourth = quantity_at(quantities, place + 3);
    ((first * DIGIT + second) * DIGIT + third) * DIGIT + fourth
}

// The polynomial so far, and of one number more, at a point. 2 to the 61st is 1 modulo the prime.
fn next_sum(sum: u64, point: u64, number: u64) -> u64
    requires sum { sum < PRIME }
    requires point { point < PRIME }
    requires number { number < 2 ^ 62 }
    ensures same { result ≡ (sum * point + number) % PRIME }
    ensures small { result < PRIME }
{
    let whole = u128::from(sum) * u128::from(point) + u128::from(number);
    let folded = (whole % (1 << 61)) as u64 + (whole / (1 << 61)) as u64;
    if folded < PRIME {
        folded
    } else {
        folded - PRIME
    }
}

fn fingerprint(multiplier: u64, quantities: &[u16]) -> u64
    ensures { result ≡ fingerprint multiplier quantities.now }
{
    let point = multiplier % PRIME;
    let mut sum = 0;
    for four in 0..quantities.len().div_ceil(4) {
        sum = next_sum(sum, point, four_from(quantities, 4 * four));
    }
    sum
}

// The number of the first of these bids with these quantities.
fn number_of(bids: &[Bid], quantities: &[u16]) -> Option<u32>
    requires { length bids.now ≤ MOST_BIDS }
    ensures { result ≡ number_of_package quantities.now bids.now }
{
    for (place, bid) in bids.iter().enumerate() {
        if quantities == bid.package.quantities() {
            return Some(place as u32 + 1);
        }
    }
    None
}

/// The number of the first bid with these quantities, which are among those seen from now on.
pub(crate) fn earlier(
    seen: &mut Seen,
    bids: &[Bid],
    quantities: &[u16],
) -> Result<Option<u32>, AllocError>
    requires seen { AreSeen seen.old.multiplier seen.old.prints.keys bids.now }
    requires few { length bids.now ≤ MOST_BIDS }
    ensures number { IfOk result (λ number. number ≡ number_of_package quantities.now bids.now) }
    ensures seen { IfOk result (λ _. (bid : Bid) → bid.package ≡ quantities.now
        → AreSeen seen.new.multiplier seen.new.prints.keys (bids.now ++ bid ∷ [])) }
{
    let print = fingerprint(seen.multiplier, quantities);
    match seen.prints.insert(print) {
        Ok(true) => Ok(None),
        Ok(false) => Ok(number_of(bids, quantities)),
        Err(_) => Err(AllocError),
    }
}
