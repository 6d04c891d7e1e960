//! Ranks of numbers: at most 32 for all of them, no lower for a greater number.
//!
//! Any ranks that rise with the numbers are sound, so how they are found changes no answer. They are to tell numbers apart
//! whichever of them a bidder chose: those that share a rank with others are fewer than a sixteenth of all. Numbers below 32
//! are their own ranks. Others are counted, in steps where hardly any share one, as those of ordinary forms don't, else by
//! each value; and where values are too great for that, as nets, it is counted how many are lower.

ghost use Rattle.std.specs.Prelude.{◌≡◌, ◌+◌, ◌^◌, ◌<◌, ◌≤◌, nat_lt, All, length, IfOk, IfSome};
ghost use Rattle.std.specs.List.Sorted.{IsNonDecreasing};
ghost use Rattle.auction_terms.specs.declared.limits.TheConstants.{MOST_BIDS};
ghost use Rattle.presolve.specs.declared.ranks.TheConstants.{RANKS};
ghost use Rattle.presolve.specs.inside.Sieves.{AreLower, AreRanked};

use std::alloc::{AllocError, Global};

/// How many ranks there are at most.
const RANKS: u32 = 32;

/// Of numbers up to so many times as many as there are of them each value is counted.
const SPREAD: u64 = 16;

// How many of the sorted numbers are lower.
fn count_lower(sorted: &[u64], number: u64) -> usize
    requires { IsNonDecreasing sorted.now }
    ensures { AreLower sorted.now number result }
{
    sorted.partition_point(
        |other: &u64| -> bool
            ensures { result ≡ nat_lt other.now number }
        { *other < number },
    )
}

// How many of the numbers are lower than each.
fn places_of(alloc: Global, numbers: &[u64]) -> Result<Vec<u64>, AllocError>
    ensures ranked { IfOk result (λ places. AreRanked numbers.now places.items) }
    ensures within { IfOk result (λ places. All (λ place. place ≤ length numbers.now)
        places.items) }
{
    let mut sorted = numbers.to_vec(alloc)?;
    sorted.sort_unstable();
    let mut places = Vec::with_capacity(alloc, numbers.len())?;
    for number in numbers {
        places.push(count_lower(&sorted, *number) as u64)?;
    }
    Ok(places)
}

// How often each number up to the greatest is there.
fn counts_of(alloc: Global, numbers: &[u64], greatest: u64) -> Result<Vec<u32>, AllocError>
    requires few { length numbers.now ≤ MOST_BIDS }
    requires small { greatest < 2 ^ 32 }
    requires within { All (λ number. number ≤ greatest) numbers.now }
    ensures { IfOk result (λ counts. length counts.items ≡ greatest + 1) }
{
    let mut counts = vec![in alloc; 0; greatest as usize + 1]?;
    for number in numbers {
        counts[*number as usize] += 1;
    }
    Ok(counts)
}

// The rank of each number that is counted. A number's middle is how many are lower and how many are at most as great,
// together, and the rank rises where that comes into another step. So a number that many are equal to shares its rank with
// none, and others share theirs with less than a step.
fn ranks_by_counts(alloc: Global, counts: &[u32], step: u32) -> Result<Vec<u8>, AllocError>
    requires { 1 ≤ step }
    ensures count { IfOk result (λ ranks. length ranks.items ≡ length counts.now) }
    ensures rising { IfOk result (λ ranks. IsNonDecreasing ranks.items) }
{
    let mut ranks = Vec::with_capacity(alloc, counts.len())?;
    let mut lower_twice: u32 = 0;
    let mut rank: u8 = 0;
    let mut next_step = step;
    for count in counts {
        let middle = lower_twice.saturating_add(*count);
        if middle >= next_step && *count > 0 {
            rank = rank.saturating_add(1);
            next_step = (middle - middle % step).saturating_add(step);
        }
        ranks.push(rank)?;
        lower_twice = middle.saturating_add(*count);
    }
    Ok(ranks)
}

// The rank of each of the numbers that are counted.
fn ranks_of_counted(alloc: Global, numbers: &[u64], counts: &[u32]) -> Result<Vec<u8>, AllocError>
    requires few { length numbers.now ≤ MOST_BIDS }
    requires within { All (λ number. number < length counts.now) numbers.now }
    ensures { IfOk result (λ ranks. AreRanked numbers.now ranks.items) }
{
    let step = (2 * numbers.len() as u32).div_ceil(RANKS).max(1);
    let by_number = ranks_by_counts(alloc, counts, step)?;
    let mut ranks = vec![in alloc; 0; numbers.len()]?;
    for (place, &number) in numbers.iter().enumerate() {
        ranks[place] = by_number[number as usize];
    }
    Ok(ranks)
}

// The rank of each number, none of which is above the greatest.
fn ranks_up_to(alloc: Global, numbers: &[u64], greatest: u64) -> Result<Vec<u8>, AllocError>
    requires few { length numbers.now ≤ MOST_BIDS }
    requires small { greatest < 2 ^ 32 }
    requires within { All (λ number. number ≤ greatest) numbers.now }
    ensures { IfOk result (λ ranks. AreRanked numbers.now ranks.items) }
{
    let counts = counts_of(alloc, numbers, greatest)?;
    ranks_of_counted(alloc, numbers, &counts)
}

// The greatest of the numbers.
fn greatest_of(numbers: &[u64]) -> u64
    ensures { All (λ number. number ≤ result) numbers.now }
{
    let mut greatest = 0;
    for number in numbers {
        greatest = greatest.max(*number);
    }
    greatest
}

// The least of the numbers.
fn least_of(numbers: &[u64]) -> u64 {
    let mut least = u64::MAX;
    for number in numbers {
        least = least.min(*number);
    }
    least
}

// How far each number is above the least, in steps of a power of two, rounded up: so none but the least is at 0.
fn steps_of(alloc: Global, numbers: &[u64], least: u64, bits: u32) -> Result<Vec<u64>, AllocError>
    requires { bits < 64 }
    ensures { IfOk result (λ steps. AreRanked numbers.now steps.items) }
{
    let almost = (1 << bits) - 1;
    let mut steps = vec![in alloc; 0; numbers.len()]?;
    for (place, number) in numbers.iter().enumerate() {
        let above = number.saturating_sub(least);
        steps[place] = above.saturating_add(almost) >> bits;
    }
    Ok(steps)
}

// Whether no step but the first has more numbers than these.
fn are_apart(counts: &[u32], most: u32) -> bool {
    for place in 1..counts.len() {
        if counts[place] > most {
            return false;
        }
    }
    true
}

// The rank of each number by steps; none where too many numbers share one.
fn ranks_by_steps(
    alloc: Global,
    numbers: &[u64],
    greatest: u64,
) -> Result<Option<Vec<u8>>, AllocError>
    requires { length numbers.now ≤ MOST_BIDS }
    ensures { IfOk result (λ found. IfSome found (λ ranks. AreRanked numbers.now ranks.items)) }
{
    let count = numbers.len() as u64;
    let least = least_of(numbers);
    let spread = greatest.saturating_sub(least);
    // Numbers are shortened by so many bits that there are only some steps for each of them.
    let bits = count
        .leading_zeros()
        .saturating_sub(spread.leading_zeros())
        .min(63);
    let steps = steps_of(alloc, numbers, least, bits)?;
    let last = greatest_of(&steps);
    if last > SPREAD * count {
        return Ok(None);
    }
    let counts = counts_of(alloc, &steps, last)?;
    if bits > 0 && !are_apart(&counts, numbers.len() as u32 / RANKS) {
        return Ok(None);
    }
    let ranks = ranks_of_counted(alloc, &steps, &counts)?;
    Ok(Some(ranks))
}

// Each number as its own rank.
fn own_ranks(alloc: Global, numbers: &[u64]) -> Result<Vec<u8>, AllocError>
    requires { All (λ number. number < RANKS) numbers.now }
    ensures { IfOk result (λ ranks. AreRanked numbers.now ranks.items) }
{
    let mut ranks = vec![in alloc; 0; numbers.len()]?;
    for (place, &number) in numbers.iter().enumerate() {
        ranks[place] = number as u8;
    }
    Ok(ranks)
}

/// The rank of each number: by its value where no steps serve, or by its place where values are great beside how many there are.
pub(crate) fn ranks_of(alloc: Global, numbers: &[u64]) -> Result<Vec<u8>, AllocError>
    requires { length numbers.now ≤ MOST_BIDS }
    ensures { IfOk result (λ ranks. AreRanked numbers.now ranks.items) }
{
    let greatest = greatest_of(numbers);
    if greatest < u64::from(RANKS) {
        return own_ranks(alloc, numbers);
    }
    if let Some(ranks) = ranks_by_steps(alloc, numbers, greatest)? {
        return Ok(ranks);
    }
    let count = numbers.len() as u64;
    if greatest <= SPREAD * count {
        return ranks_up_to(alloc, numbers, greatest);
    }
    let places = places_of(alloc, numbers)?;
    ranks_up_to(alloc, &places, count)
}
