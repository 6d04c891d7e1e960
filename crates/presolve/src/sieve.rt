//! The sieves by which the rivals of a bid are sifted: for each of their numbers a rank for each rival, and a level for each rank.
//!
//! `search` says how they are used.

ghost use Rattle.std.specs.Prelude.{◌≡◌, ◌+◌, ◌/◌, ◌<◌, ◌≤◌, ℕ, slice_index, All, length, map, IfOk};
ghost use Rattle.std.specs.Int.{div_ceil};
ghost use Rattle.auction_terms.specs.declared.limits.TheConstants.{MOST_BIDS, MOST_CATEGORIES};
ghost use Rattle.presolve.specs.declared.order.SizedBid.{SizedBid};
ghost use Rattle.presolve.specs.inside.Sieves.{AreLevels, AreSieved, IsMarked, IsSieve, shortfall};

use crate::order::SizedBid;
use crate::ranks::ranks_of;
use auction_terms::MOST_BIDS;
use std::alloc::{AllocError, Global};

/// The bitset of the rivals of one rank or a lower one.
#[derive(Drop)]
pub(crate) struct Level {
    pub(crate) words: Vec<u64>,
}

/// A rank of each rival, and a level for each rank.
#[derive(Drop)]
pub(crate) struct Sieve {
    pub(crate) ranks: Vec<u8>,
    pub(crate) levels: Vec<Level>,
}

// The greatest of the ranks.
fn greatest(ranks: &[u8]) -> u8
    ensures { All (λ rank. rank ≤ result) ranks.now }
{
    let mut greatest = 0;
    for rank in ranks {
        greatest = greatest.max(*rank);
    }
    greatest
}

// Levels with no bit yet.
fn empty_levels(alloc: Global, count: usize, words: usize) -> Result<Vec<Level>, AllocError>
    ensures count { IfOk result (λ levels. length levels.items ≡ count) }
    ensures long { IfOk result (λ levels. All (λ level. length level.words.items ≡ words)
        levels.items) }
{
    let mut levels = Vec::with_capacity(alloc, count)?;
    for _ in 0..count {
        levels.push(Level {
            words: vec![in alloc; 0; words]?,
        })?;
    }
    Ok(levels)
}

// A level for each rank, with the places of that rank alone.
fn own_levels(alloc: Global, ranks: &[u8]) -> Result<Vec<Level>, AllocError>
    ensures { IfOk result (λ levels. AreLevels (λ r s. r ≡ s) ranks.now levels.items) }
{
    let count = usize::from(greatest(ranks)) + 1;
    let mut levels = empty_levels(alloc, count, ranks.len().div_ceil(64))?;
    for (place, &rank) in ranks.iter().enumerate() {
        levels[usize::from(rank)].words[place / 64] |= 1 << (place % 64);
    }
    Ok(levels)
}

// Adds the places so far to a level, and takes over all that it then has.
fn add_lower(level: &mut Level, so_far: &mut Level)
    requires { length so_far.old.words.items ≡ length level.old.words.items }
    ensures count { length so_far.new.words.items ≡ length so_far.old.words.items }
    ensures same { level.new.words.items ≡ so_far.new.words.items }
    ensures own { (i : ℕ) → IsMarked level.old.words.items i → IsMarked so_far.new.words.items i }
    ensures lower { (i : ℕ) → IsMarked so_far.old.words.items i
        → IsMarked so_far.new.words.items i }
{
    for (place, word) in level.words.iter_mut().enumerate() {
        *word |= so_far.words[place];
        so_far.words[place] = *word;
    }
}

// The sieve of these numbers. To each level those below it are added.
fn sieve_of(alloc: Global, numbers: &[u64]) -> Result<Sieve, AllocError>
    requires { length numbers.now ≤ MOST_BIDS }
    ensures { IfOk result (λ sieve. AreSieved numbers.now sieve) }
{
    let ranks = ranks_of(alloc, numbers)?;
    let mut levels = own_levels(alloc, &ranks)?;
    let words = vec![in alloc; 0; ranks.len().div_ceil(64)]?;
    let mut so_far = Level { words };
    for level in levels.iter_mut() {
        add_lower(level, &mut so_far);
    }
    Ok(Sieve { ranks, levels })
}

// Each rival's quantity of a category.
fn quantities_at(
    alloc: Global,
    rivals: &[SizedBid<'_>],
    place: usize,
) -> Result<Vec<u64>, AllocError>
    requires { All (λ s. place < length s.bid.now.package) rivals.now }
    ensures { IfOk result (λ numbers. numbers.items
        ≡ map (λ s. slice_index s.bid.now.package place) rivals.now) }
{
    let mut numbers = vec![in alloc; 0; rivals.len()]?;
    for (rival, sized) in rivals.iter().enumerate() {
        let bid = sized.bid;
        numbers[rival] = u64::from(bid.package.quantities()[place]);
    }
    Ok(numbers)
}

// How far each rival's net stays below the greatest number; all nets below 0 stay as far.
fn shortfalls(alloc: Global, rivals: &[SizedBid<'_>]) -> Result<Vec<u64>, AllocError>
    ensures { IfOk result (λ numbers. numbers.items ≡ map (λ s. shortfall s.net) rivals.now) }
{
    let mut numbers = Vec::with_capacity(alloc, rivals.len())?;
    for rival in rivals {
        numbers.push_reserved(u64::MAX - rival.net.max(0) as u64);
    }
    Ok(numbers)
}

// A sieve for the net, and one for each category.
pub(crate) fn sieves(
    alloc: Global,
    rivals: &[SizedBid<'_>],
    categories: usize,
) -> Result<Vec<Sieve>, AllocError>
    requires sized { All (λ s. length s.bid.now.package ≡ categories) rivals.now }
    requires few { categories ≤ MOST_CATEGORIES }
    requires many { length rivals.now ≤ MOST_BIDS }
    ensures each { IfOk result (λ sieves. All (IsSieve rivals.now) sieves.items) }
    ensures count { IfOk result (λ sieves. length sieves.items ≡ categories + 1) }
{
    let mut sieves = Vec::with_capacity(alloc, categories + 1)?;
    sieves.push_reserved(sieve_of(alloc, &shortfalls(alloc, rivals)?)?);
    for place in 0..categories {
        sieves.push_reserved(sieve_of(alloc, &quantities_at(alloc, rivals, place)?)?);
    }
    Ok(sieves)
}
