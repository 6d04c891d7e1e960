//! What each winner costs alone: the greater of its opportunity cost and its reserve.

ghost use Rattle.std.specs.Prelude.{◌≡◌, ◌⊎◌, ◌==◌, ◌∷◌, ◌^◌, ◌≤ℤ◌, [], Err, IfErr, IfOk, Ok, false, pos, unsigned_abs};
ghost use Rattle.std.specs.Int.{int_max};
ghost use Rattle.std.specs.List.{AllZip};
ghost use Rattle.auction_terms.specs.Groups.{has};
ghost use Rattle.auction_terms.specs.Terms.{lots_in};
ghost use Rattle.bid_desk.specs.Closing.{book_of};
ghost use Rattle.outcome.specs.Pricing.{price_in};
ghost use Rattle.prices.specs.Alone as of_alone;
ghost use Rattle.prices.specs.Alone.{AreCostsAlone, bidder_alone, cost_alone, winner_alone};
ghost use Rattle.prices.specs.declared.alone.AloneFault.TheVariants.{OutOfMemory};
ghost use Rattle.prices.specs.Prices.{reserves_in};
ghost use Rattle.program_rows.specs.Faithful.{IsGreatest};

use crate::listed::Listed;
use crate::reserves::reserve_of;
use auction_terms::{Choice, Group};
use bid_desk::ClosedBook;
use outcome::{Allocation, cost};
use std::alloc::{AllocError, AllocFailed, Global};

/// Why what the winners cost alone isn't known.
#[derive(Clone, Copy, Debug, PartialEq, Eq)]
pub enum AloneFault {
    /// None of the listed groups is this winner alone.
    NotListed(u16),
    OutOfMemory,
}

impl From<AllocError> for AloneFault {
    ghost use Rattle.std.specs.Prelude.{◌≡◌};
    ghost use Rattle.prices.specs.declared.alone.AloneFault.TheVariants.{OutOfMemory};

    ghost from_gives = { λ _ e. e ≡ OutOfMemory };

    fn from(_e: AllocError) -> AloneFault {
        AloneFault::OutOfMemory
    }
}

impl<T: Drop> From<AllocFailed<T>> for AloneFault {
    ghost use Rattle.std.specs.Prelude.{◌≡◌};
    ghost use Rattle.prices.specs.declared.alone.AloneFault.TheVariants.{OutOfMemory};

    ghost from_gives = { λ _ e. e ≡ OutOfMemory };

    fn from(_e: AllocFailed<T>) -> AloneFault {
        AloneFault::OutOfMemory
    }
}

/// Whether a group is this bidder alone.
fn is_alone(group: &Group, bidder: u16) -> bool
    ensures { result ≡ of_alone.is_alone bidder group.now }
{
    let numbers = group.numbers();
    numbers.len() == 1 && numbers[0] == bidder
}

// The greater of a cost and a reserve.
fn greater(cost: i128, reserve: u64) -> u64
    requires low { pos 0 ≤ℤ cost }
    requires high { cost ≤ℤ pos (2 ^ 48) }
    ensures { result ≡ unsigned_abs (int_max cost (pos reserve)) }
{
    cost.max(i128::from(reserve)) as u64
}

/// What a winner costs alone, by its group and an allocation without it.
fn alone_by(
    book: &ClosedBook,
    first: &Allocation,
    choice: Choice,
    group: &Group,
    without: &Allocation,
) -> u64
    requires group { group.now ≡ choice.bidder ∷ [] }
    requires first { IsGreatest (lots_in book.now.rules) (book_of book.now) (λ b. false) first.now }
    requires without { IsGreatest (lots_in book.now.rules) (book_of book.now) (has group.now)
        without.now }
    ensures { result ≡ cost_alone (reserves_in book.now.rules) (lots_in book.now.rules)
        (book_of book.now) first.now without.now choice }
{
    book.within_limits();
    // Its contract says that the bidders of its choices rise.
    let _rising = first.choices();
    let cost = cost(book, first, group, without);
    let reserve = reserve_of(book, choice);
    greater(cost, reserve)
}

/// What a winner costs alone, by the first group that is that winner alone.
fn winner_alone(
    book: &ClosedBook,
    first: &Allocation,
    listed: &Listed<'_>,
    choice: Choice,
) -> Result<u64, AloneFault>
    requires first { IsGreatest (lots_in book.now.rules) (book_of book.now) (λ b. false) first.now }
    requires without { AllZip (λ group a. IsGreatest (lots_in book.now.rules) (book_of book.now)
        (has group) a) listed.now.groups.now listed.now.won.now }
    ensures exact { result ≡ winner_alone (reserves_in book.now.rules) (lots_in book.now.rules)
        (book_of book.now) first.now listed.now.groups.now listed.now.won.now choice }
{
    for place in 0..listed.groups.count() {
        let group = listed.groups.group(place + 1);
        if is_alone(group, choice.bidder) {
            return Ok(alone_by(book, first, choice, group, &listed.won[place]));
        }
    }
    Err(AloneFault::NotListed(choice.bidder))
}

/// What a bidder costs alone: 0 if it wins nothing.
fn bidder_alone(
    book: &ClosedBook,
    first: &Allocation,
    listed: &Listed<'_>,
    bidder: u16,
) -> Result<u64, AloneFault>
    requires first { IsGreatest (lots_in book.now.rules) (book_of book.now) (λ b. false) first.now }
    requires without { AllZip (λ group a. IsGreatest (lots_in book.now.rules) (book_of book.now)
        (has group) a) listed.now.groups.now listed.now.won.now }
    ensures exact { result ≡ bidder_alone (reserves_in book.now.rules) (lots_in book.now.rules)
        (book_of book.now) first.now listed.now.groups.now listed.now.won.now bidder }
{
    for choice in first.choices() {
        if choice.bidder == bidder {
            return winner_alone(book, first, listed, *choice);
        }
    }
    Ok(0)
}

/// What each bidder costs alone, bidder 1's cost first, and 0 for one that wins nothing; or the first winner of whom no group is
/// listed alone. The allocations are of greatest total, each without its group.
pub fn costs_alone(
    alloc: Global,
    book: &ClosedBook,
    first: &Allocation,
    listed: &Listed<'_>,
) -> Result<Vec<u64>, AloneFault>
    requires first { IsGreatest (lots_in book.now.rules) (book_of book.now) (λ b. false) first.now }
    requires without { AllZip (λ group a. IsGreatest (lots_in book.now.rules) (book_of book.now)
        (has group) a) listed.now.groups.now listed.now.won.now }
    ensures exact { IfOk result (λ costs. of_alone.costs_alone (reserves_in book.now.rules)
        (lots_in book.now.rules) (book_of book.now) first.now listed.now.groups.now
        listed.now.won.now ≡ Ok costs.items) }
    ensures refused { IfErr result (λ fault. (fault ≡ OutOfMemory) ⊎ (of_alone.costs_alone
        (reserves_in book.now.rules) (lots_in book.now.rules) (book_of book.now) first.now
        listed.now.groups.now listed.now.won.now ≡ Err fault)) }
    ensures alone { IfOk result (λ costs. AreCostsAlone (reserves_in book.now.rules)
        (lots_in book.now.rules) (book_of book.now) first.now (price_in costs.items)) }
{
    let count = book.rules().bidders().len();
    let mut costs = Vec::new(alloc);
    for place in 0..count {
        costs.push(bidder_alone(book, first, listed, place as u16 + 1)?)?;
    }
    Ok(costs)
}
