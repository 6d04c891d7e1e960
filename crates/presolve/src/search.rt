//! The search for a bid of a form that dominates another.
//!
//! The bids of a form that fit, its rivals, come by rising size, so that those that may dominate a bid come before it. To
//! compare each with all before it is too slow: a form has up to 4,000 bids over 32 categories. So bitsets sift them. A
//! rival that dominates a bid has at most the bid's quantity of each category, and a net that isn't lower. So each quantity
//! is a number of the rival, and so is how far its net stays below the greatest that there may be: none of them is greater
//! where the rival dominates the bid. A `Sieve` is made for each of these numbers. It has a rank for each rival, no lower for
//! a greater number, and a level for each rank: the bitset of the rivals of that rank or a lower one, 64 rivals to a word, in
//! their order. A level is made from that of the rank below it, so that each rival is put once into each sieve.
//!
//! A bid is asked as follows. All rivals before it are left at first. Each sieve gives the level of the bid's own rank, and
//! what is left is taken together with these levels by `&`, four at a time, until nothing is left, which is soon so for
//! nearly all bids. A bit that is left at the end is a candidate, and is compared with the bid exactly.
//!
//! Which bid dominates first, by its number, is asked of the same sieves, of rivals by number and include those
//! that don't fit: all but the bid itself are left at first, and the first candidate that dominates is the answer.
//!
//! What to mind when changing it: the levels only have to be sound, that is, to have the bit of every rival that dominates
//! the bid (`Sifts`). One that has too many bits costs time and changes no answer, since each candidate is compared. So the
//! ranks (`ranks`) may be any that rise with the numbers, a sieve may be left out, and the order of the sieves doesn't
//! matter. Ranks that don't rise aren't sound, nor is a bit that is left out.

ghost use Rattle.std.specs.Prelude.{◌≡◌, ◌≢◌, ◌+◌, ◌/◌, ◌<◌, ◌≤◌, ℕ, List, false, slice_index_or, unwrap_or, All, length, IfSome};
ghost use Rattle.std.specs.Int.{bit_at, div_ceil};
ghost use Rattle.std.specs.List.{list_any, position_from};
ghost use Rattle.auction_terms.specs.declared.limits.TheConstants.{MOST_BIDS, MOST_CATEGORIES};
ghost use Rattle.presolve.specs.declared.order.SizedBid.{SizedBid};
ghost use Rattle.presolve.specs.inside.Sieves.{BeatsAt, HasPlace, HasWords, IsMarked, IsSieve, Sifts};
ghost use Rattle.presolve.specs.inside.Sizes.{AreRivals, beats};

use crate::order::SizedBid;
use crate::sieve::{Sieve, sieves};
use auction_terms::MOST_BIDS;

/// The most words that hold a bit for each rival.
const MOST_WORDS: usize = MOST_BIDS / 64 + 1;

// The level of the rank that the rival at a place has in a sieve, or in the last sieve where there aren't so many.
fn level_at(sieves: &[Sieve], number: usize, place: usize) -> &[u64]
    requires some { 1 ≤ length sieves.now }
    requires within { All (HasPlace place) sieves.now }
    ensures long { (words : ℕ) → All (HasWords words) sieves.now → words ≤ length result.now }
    ensures sifts { (rivals : List SizedBid) (x : SizedBid) → All (IsSieve rivals) sieves.now
        → place < length rivals → x ≡ slice_index_or rivals place x → Sifts rivals x result.now }
{
    let sieve = &sieves[number.min(sieves.len() - 1)];
    &sieve.levels[usize::from(sieve.ranks[place])].words
}

// Leaves of the bits that are left those that four levels have too; whether there are any.
fn narrow(left: &mut [u64], first: &[u64], second: &[u64], third: &[u64], fourth: &[u64]) -> bool
    requires first { length left.old ≤ length first.now }
    requires second { length left.old ≤ length second.now }
    requires third { length left.old ≤ length third.now }
    requires fourth { length left.old ≤ length fourth.now }
    ensures count { length left.new ≡ length left.old }
    ensures kept { (i : ℕ) → IsMarked left.old i → IsMarked first.now i → IsMarked second.now i
        → IsMarked third.now i → IsMarked fourth.now i → IsMarked left.new i }
    ensures none { result ≡ false → All (λ word. word ≡ 0) left.new }
{
    let mut any = 0;
    for (place, word) in left.iter_mut().enumerate() {
        *word &= first[place] & second[place] & third[place] & fourth[place];
        any |= *word;
    }
    any != 0
}

// Leaves all places before one, in as many words as there are up to it.
fn leave_before(left: &mut [u64], place: usize)
    requires { length left.old ≡ place / 64 + 1 }
    ensures count { length left.new ≡ length left.old }
    ensures before { (i : ℕ) → i < place → IsMarked left.new i }
{
    left[..place / 64].fill(u64::MAX);
    left[place / 64] = (1 << (place % 64)) - 1;
}

// Leaves all places but one.
fn leave_others(left: &mut [u64], place: usize)
    requires { place / 64 < length left.old }
    ensures count { length left.new ≡ length left.old }
    ensures others { (i : ℕ) → i / 64 < length left.new → i ≢ place → IsMarked left.new i }
{
    left.fill(u64::MAX);
    left[place / 64] = !(1 << (place % 64));
}

// Leaves of the bits that are left those that the level of each sieve has too, for the rival at a place; whether there are
// any. A level that is taken twice changes nothing.
fn sift(left: &mut [u64], sieves: &[Sieve], place: usize) -> bool
    requires some { 1 ≤ length sieves.now }
    requires few { length sieves.now ≤ MOST_CATEGORIES + 1 }
    requires within { All (HasPlace place) sieves.now }
    requires long { All (HasWords (length left.old)) sieves.now }
    ensures count { length left.new ≡ length left.old }
    ensures sifts { (rivals : List SizedBid) (x : SizedBid) → All (IsSieve rivals) sieves.now
        → place < length rivals → x ≡ slice_index_or rivals place x → Sifts rivals x left.old
        → Sifts rivals x left.new }
    ensures none { result ≡ false → All (λ word. word ≡ 0) left.new }
{
    for group in 0..sieves.len().div_ceil(4) {
        let first = level_at(sieves, group * 4, place);
        let second = level_at(sieves, group * 4 + 1, place);
        let third = level_at(sieves, group * 4 + 2, place);
        let fourth = level_at(sieves, group * 4 + 3, place);
        if !narrow(left, first, second, third, fourth) {
            return false;
        }
    }
    true
}

// Whether the rival is smaller, its net isn't lower, and it has at most the bid's quantity of each category.
fn does_beat(rival: &SizedBid<'_>, bid: &SizedBid<'_>) -> bool
    requires { length rival.now.bid.now.package ≡ length bid.now.bid.now.package }
    ensures { result ≡ beats bid.now rival.now }
{
    rival.size < bid.size && rival.net >= bid.net && bid.bid.package.covers(&rival.bid.package)
}

// The place of the first of the candidates that beats the bid: of the rivals from a place on those whose bit is set.
fn first_among(
    rivals: &[SizedBid<'_>],
    first: usize,
    candidates: u64,
    bid: &SizedBid<'_>,
) -> Option<usize>
    requires sized { All (λ s. length s.bid.now.package ≡ length bid.now.bid.now.package)
        rivals.now }
    requires within { first < length rivals.now }
    ensures near { IfSome result (λ place. place < first + 64) }
    ensures beaten { IfSome result (BeatsAt rivals.now bid.now) }
    ensures unbeaten { (k : ℕ) (d : SizedBid) → bit_at candidates k ≡ 1
        → first + k < unwrap_or result (length rivals.now)
        → beats bid.now (slice_index_or rivals.now (first + k) d) ≡ false }
{
    let mut left = candidates;
    while left != 0 {
        let place = first + left.trailing_zeros() as usize;
        if let Some(rival) = rivals.get(place) {
            if does_beat(rival, bid) {
                return Some(place);
            }
        }
        left &= left - 1;
    }
    None
}

// The place of the first of the candidates that are left that beats the bid.
fn first_left(rivals: &[SizedBid<'_>], left: &[u64], bid: &SizedBid<'_>) -> Option<usize>
    requires sized { All (λ s. length s.bid.now.package ≡ length bid.now.bid.now.package)
        rivals.now }
    requires within { length left.now ≤ div_ceil (length rivals.now) 64 }
    ensures beaten { IfSome result (BeatsAt rivals.now bid.now) }
    ensures unbeaten { (i : ℕ) (d : SizedBid) → IsMarked left.now i
        → i < unwrap_or result (length rivals.now)
        → beats bid.now (slice_index_or rivals.now i d) ≡ false }
{
    for (word, &bits) in left.iter().enumerate() {
        let found = first_among(rivals, word * 64, bits, bid);
        if found.is_some() {
            return found;
        }
    }
    None
}

// The place of the first of the rivals that beats the one at a place, where the bits that are left sift them.
fn first_sifted(
    rivals: &[SizedBid<'_>],
    sieves: &[Sieve],
    left: &mut [u64],
    place: usize,
    bid: &SizedBid<'_>,
) -> Option<usize>
    requires sized { All (λ s. length s.bid.now.package ≡ length bid.now.bid.now.package)
        rivals.now }
    requires sieves { All (IsSieve rivals.now) sieves.now }
    requires some { 1 ≤ length sieves.now }
    requires few { length sieves.now ≤ MOST_CATEGORIES + 1 }
    requires within { place < length rivals.now }
    requires bid { bid.now ≡ slice_index_or rivals.now place bid.now }
    requires long { length left.old ≤ div_ceil (length rivals.now) 64 }
    requires sifts { Sifts rivals.now bid.now left.old }
    ensures first { result ≡ position_from (beats bid.now) 0 rivals.now }
    ensures within { IfSome result (λ first. first < length rivals.now) }
{
    if sift(left, sieves, place) {
        first_left(rivals, left, bid)
    } else {
        None
    }
}

// Whether one of the bids that fit dominates the one at a place. Those after it aren't smaller.
pub(crate) fn is_beaten(
    rivals: &[SizedBid<'_>],
    sieves: &[Sieve],
    place: usize,
    bid: &SizedBid<'_>,
) -> bool
    requires rivals { AreRivals (length bid.now.bid.now.package) rivals.now }
    requires many { length rivals.now ≤ MOST_BIDS }
    requires sieves { All (IsSieve rivals.now) sieves.now }
    requires some { 1 ≤ length sieves.now }
    requires few { length sieves.now ≤ MOST_CATEGORIES + 1 }
    requires within { place < length rivals.now }
    requires bid { bid.now ≡ slice_index_or rivals.now place bid.now }
    ensures { result ≡ list_any (beats bid.now) rivals.now }
{
    let mut words = [0; MOST_WORDS];
    let left = &mut words[..place / 64 + 1];
    leave_before(left, place);
    first_sifted(rivals, sieves, left, place, bid).is_some()
}

// The place of the first of the rivals that beats the one at a place, whatever their order.
pub(crate) fn first_beating(
    rivals: &[SizedBid<'_>],
    sieves: &[Sieve],
    place: usize,
    bid: &SizedBid<'_>,
) -> Option<usize>
    requires sized { All (λ s. length s.bid.now.package ≡ length bid.now.bid.now.package)
        rivals.now }
    requires many { length rivals.now ≤ MOST_BIDS }
    requires sieves { All (IsSieve rivals.now) sieves.now }
    requires some { 1 ≤ length sieves.now }
    requires few { length sieves.now ≤ MOST_CATEGORIES + 1 }
    requires within { place < length rivals.now }
    requires bid { bid.now ≡ slice_index_or rivals.now place bid.now }
    ensures first { result ≡ position_from (beats bid.now) 0 rivals.now }
    ensures within { IfSome result (λ first. first < length rivals.now) }
{
    let mut words = [0; MOST_WORDS];
    let left = &mut words[..rivals.len().div_ceil(64)];
    leave_others(left, place);
    first_sifted(rivals, sieves, left, place, bid)
}
