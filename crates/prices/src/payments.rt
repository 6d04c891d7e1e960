//! What winners pay; their surplus, which is their amounts less their prices; and the seller's revenue.

ghost use Rattle.std.specs.Prelude.{◌≡◌, ◌≤◌, ◌-◌, ◌*◌, ◌==◌, ◌^◌, count_by, false, length, sum_by};
ghost use Rattle.auction_terms.specs.declared.limits.TheConstants.{GREATEST_AMOUNT, MOST_PARTS};
ghost use Rattle.auction_terms.specs.Allocations.{IsFeasible, amount_of};
ghost use Rattle.auction_terms.specs.Terms.{lots_in};
ghost use Rattle.bid_desk.specs.Closing.{book_of};
ghost use Rattle.outcome.specs.Pricing.{price_in};
ghost use Rattle.prices.specs.Blocking.{ArePrices, gain, revenue, surplus};

use crate::amounts::amount_of;
use auction_terms::Choice;
use bid_desk::ClosedBook;
use outcome::{Allocation, price_of, total};

/// What the winners of an allocation pay, in parts of a pound: how many parts make a pound, and the price of each bidder, bidder 1's
/// first, with 0 for one that wins nothing.
#[derive(Clone, Copy)]
pub struct Payments<'p> {
    pub book: &'p ClosedBook,
    pub first: &'p Allocation,
    pub parts: u64,
    pub prices: &'p [u64],
}

/// Pounds, in parts of a pound.
pub fn amount_in_parts(parts: u64, pounds: u64) -> u64
    requires parts { parts ≤ MOST_PARTS }
    requires pounds { pounds ≤ GREATEST_AMOUNT }
    ensures product { result ≡ parts * pounds }
    ensures small { result ≤ 10 ^ 18 }
{
    parts * pounds
}

/// A winner's amount less its price.
fn gain_of(payments: &Payments<'_>, choice: Choice) -> u64
    requires parts { payments.now.parts ≤ MOST_PARTS }
    requires price { price_in payments.now.prices.now choice.bidder
        ≤ payments.now.parts * amount_of (book_of payments.now.book.now) choice }
    ensures gain { result ≡ gain (book_of payments.now.book.now) payments.now.parts
        (price_in payments.now.prices.now) choice }
    ensures small { result ≤ 10 ^ 18 }
{
    let amount = amount_in_parts(payments.parts, amount_of(payments.book, choice));
    amount - price_of(payments.prices, choice.bidder)
}

/// The surplus of a bidder, of whom there is one choice at most.
pub fn surplus_of(payments: &Payments<'_>, bidder: u16) -> u64
    requires parts { payments.now.parts ≤ MOST_PARTS }
    requires prices { ArePrices (book_of payments.now.book.now) payments.now.first.now
        payments.now.parts (price_in payments.now.prices.now) }
    requires one { count_by (λ c. c.bidder == bidder) payments.now.first.now ≤ 1 }
    ensures surplus { result ≡ surplus (book_of payments.now.book.now) payments.now.first.now
        payments.now.parts (price_in payments.now.prices.now) bidder }
    ensures small { result ≤ 10 ^ 18 }
{
    for choice in payments.first.choices() {
        if choice.bidder == bidder {
            return gain_of(payments, *choice);
        }
    }
    0
}

/// What is left to all of them together.
fn gains_of(payments: &Payments<'_>) -> u128
    requires parts { payments.now.parts ≤ MOST_PARTS }
    requires prices { ArePrices (book_of payments.now.book.now) payments.now.first.now
        payments.now.parts (price_in payments.now.prices.now) }
    ensures { result ≡ sum_by (gain (book_of payments.now.book.now) payments.now.parts
        (price_in payments.now.prices.now)) payments.now.first.now }
{
    let mut sum: u128 = 0;
    for choice in payments.first.choices() {
        sum += u128::from(gain_of(payments, *choice));
    }
    sum
}

/// What the seller has: the prices, and what the lots are worth that are left.
pub fn revenue_of(payments: &Payments<'_>) -> u128
    requires feasible { IsFeasible (lots_in payments.now.book.now.rules)
        (book_of payments.now.book.now) (λ b. false) payments.now.first.now }
    requires parts { payments.now.parts ≤ MOST_PARTS }
    requires prices { ArePrices (book_of payments.now.book.now) payments.now.first.now
        payments.now.parts (price_in payments.now.prices.now) }
    ensures revenue { result ≡ revenue (lots_in payments.now.book.now.rules)
        (book_of payments.now.book.now) payments.now.first.now payments.now.parts
        (price_in payments.now.prices.now) }
    ensures small { result ≤ 2 ^ 127 - 1 }
{
    payments.book.within_limits();
    // Its contract says that the bidders of its choices rise.
    let _rising = payments.first.choices();
    u128::from(payments.parts) * total(payments.book, payments.first) - gains_of(payments)
}
