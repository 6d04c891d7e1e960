//! Whether there are weights only where winners pay no more than they have to.

ghost use Rattle.std.specs.Prelude.{◌≡◌, ◌≤◌, ◌*◌, ◌^◌, ◌==◌, ◌||◌, ◌*ℤ◌, ◌≤ℤ◌, All, false, int_le, length, nat_le, pos};
ghost use Rattle.std.specs.List.{AllZip, list_all};
ghost use Rattle.auction_terms.specs.declared.limits.TheConstants.{GREATEST_AMOUNT, MOST_PARTS};
ghost use Rattle.auction_terms.specs.Allocations.{weighed_choice};
ghost use Rattle.auction_terms.specs.Groups.{has};
ghost use Rattle.auction_terms.specs.Terms.{lots_in};
ghost use Rattle.bid_desk.specs.Closing.{book_of};
ghost use Rattle.outcome.specs.Pricing.{price_in};
ghost use Rattle.outcome.specs.Report as of_report;
ghost use Rattle.prices.specs.inside.Weighing.{paid_in};
ghost use Rattle.prices.specs.Prices.{reserves_in};
ghost use Rattle.prices.specs.Rule as of_rule;
ghost use Rattle.prices.specs.Weights.{listed_weights, weighted};
ghost use Rattle.program_rows.specs.Faithful.{IsGreatest};

use crate::listed::Listed;
use crate::payments::{Payments, amount_in_parts};
use crate::reserves::reserve_of;
use crate::weights::Weights;
use auction_terms::{Choice, Group};
use outcome::{Allocation, cost, price_of};

/// Whether a winner that has a weight of its own pays no more than its reserve.
fn is_tight_alone(payments: &Payments<'_>, own: u64, choice: Choice) -> bool
    requires parts { payments.now.parts ≤ MOST_PARTS }
    requires reserve { weighed_choice (reserves_in payments.now.book.now.rules)
        (book_of payments.now.book.now) choice ≤ GREATEST_AMOUNT }
    ensures { result ≡ (own == 0 || nat_le (price_in payments.now.prices.now choice.bidder)
        (payments.now.parts * weighed_choice (reserves_in payments.now.book.now.rules)
        (book_of payments.now.book.now) choice)) }
{
    if own == 0 {
        return true;
    }
    let reserve = amount_in_parts(payments.parts, reserve_of(payments.book, choice));
    price_of(payments.prices, choice.bidder) <= reserve
}

/// Whether each winner that has a weight of its own pays no more than its reserve.
fn are_tight_alone(payments: &Payments<'_>, own: &[u64], choices: &[Choice]) -> bool
    requires parts { payments.now.parts ≤ MOST_PARTS }
    requires reserves { All (λ c. weighed_choice (reserves_in payments.now.book.now.rules)
        (book_of payments.now.book.now) c ≤ GREATEST_AMOUNT) choices.now }
    ensures { result ≡ list_all (of_rule.is_tight_alone (reserves_in payments.now.book.now.rules)
        (book_of payments.now.book.now) payments.now.parts (price_in payments.now.prices.now)
        (price_in own.now)) choices.now }
{
    for choice in choices {
        if !is_tight_alone(payments, price_of(own, choice.bidder), *choice) {
            return false;
        }
    }
    true
}

/// What the winners of a group pay.
fn paid_by(group: &Group, choices: &[Choice], prices: &[u64]) -> u128
    requires { length choices.now ≤ 257 }
    ensures sum { result ≡ paid_in group.now (price_in prices.now) choices.now }
    ensures small { result ≤ 257 * 2 ^ 64 }
{
    let mut sum: u128 = 0;
    for choice in choices {
        if group.has(choice.bidder) {
            sum += u128::from(price_of(prices, choice.bidder));
        }
    }
    sum
}

/// The opportunity cost of a group, in parts of a pound.
fn cost_in_parts(payments: &Payments<'_>, group: &Group, without: &Allocation) -> i128
    requires parts { payments.now.parts ≤ MOST_PARTS }
    requires first { IsGreatest (lots_in payments.now.book.now.rules)
        (book_of payments.now.book.now) (λ b. false) payments.now.first.now }
    requires without { IsGreatest (lots_in payments.now.book.now.rules)
        (book_of payments.now.book.now) (has group.now) without.now }
    ensures product { result ≡ pos payments.now.parts
        *ℤ of_report.cost (lots_in payments.now.book.now.rules) (book_of payments.now.book.now)
        payments.now.first.now group.now without.now }
    ensures low { pos 0 ≤ℤ result }
    ensures high { result ≤ℤ pos (2 ^ 112) }
{
    payments.book.within_limits();
    // Its contract says that the bidders of its choices rise.
    let _rising = payments.first.choices();
    let cost = cost(payments.book, payments.first, group, without);
    i128::from(payments.parts) * cost
}

/// Whether a group that has a weight pays no more than its opportunity cost.
fn is_tight(payments: &Payments<'_>, group: &Group, without: &Allocation, weight: u64) -> bool
    requires parts { payments.now.parts ≤ MOST_PARTS }
    requires first { IsGreatest (lots_in payments.now.book.now.rules)
        (book_of payments.now.book.now) (λ b. false) payments.now.first.now }
    requires without { IsGreatest (lots_in payments.now.book.now.rules)
        (book_of payments.now.book.now) (has group.now) without.now }
    ensures { result ≡ (weight == 0 || int_le (pos (paid_in group.now
        (price_in payments.now.prices.now) payments.now.first.now)) (pos payments.now.parts
        *ℤ of_report.cost (lots_in payments.now.book.now.rules) (book_of payments.now.book.now)
        payments.now.first.now group.now without.now)) }
{
    if weight == 0 {
        return true;
    }
    payments.book.within_limits();
    let paid = paid_by(group, payments.first.choices(), payments.prices);
    let cost = cost_in_parts(payments, group, without);
    paid as i128 <= cost
}

/// Whether each group that has a weight pays no more than its opportunity cost.
fn are_tight_groups(payments: &Payments<'_>, listed: &Listed<'_>, weights: &[u64]) -> bool
    requires parts { payments.now.parts ≤ MOST_PARTS }
    requires first { IsGreatest (lots_in payments.now.book.now.rules)
        (book_of payments.now.book.now) (λ b. false) payments.now.first.now }
    requires without { AllZip (λ group a. IsGreatest (lots_in payments.now.book.now.rules)
        (book_of payments.now.book.now) (has group) a) listed.now.groups.now listed.now.won.now }
    requires weights { length weights.now ≡ length listed.now.groups.now }
    ensures { result ≡ list_all (of_rule.is_tight (lots_in payments.now.book.now.rules)
        (book_of payments.now.book.now) payments.now.first.now payments.now.parts
        (price_in payments.now.prices.now))
        (weighted listed.now.groups.now listed.now.won.now weights.now) }
{
    // Its contract says how many groups there may be.
    let count = listed.groups.count();
    for place in 0..count {
        let group = listed.groups.group(place + 1);
        if !is_tight(payments, group, &listed.won[place], weights[place]) {
            return false;
        }
    }
    true
}

/// Whether there are weights only where nothing more is paid than has to be.
pub fn are_tight(payments: &Payments<'_>, listed: &Listed<'_>, weights: &Weights<'_>) -> bool
    requires first { IsGreatest (lots_in payments.now.book.now.rules)
        (book_of payments.now.book.now) (λ b. false) payments.now.first.now }
    requires without { AllZip (λ group a. IsGreatest (lots_in payments.now.book.now.rules)
        (book_of payments.now.book.now) (has group) a) listed.now.groups.now listed.now.won.now }
    requires weights { length weights.now.groups.now ≡ length listed.now.groups.now }
    requires parts { payments.now.parts ≤ MOST_PARTS }
    requires reserves { All (λ c. weighed_choice (reserves_in payments.now.book.now.rules)
        (book_of payments.now.book.now) c ≤ GREATEST_AMOUNT) payments.now.first.now }
    ensures { result ≡ of_rule.are_tight (reserves_in payments.now.book.now.rules)
        (lots_in payments.now.book.now.rules) (book_of payments.now.book.now)
        payments.now.first.now payments.now.parts (price_in payments.now.prices.now)
        (listed_weights listed.now.groups.now listed.now.won.now weights.now.scale
        weights.now.groups.now weights.now.own.now) }
{
    let of_groups = are_tight_groups(payments, listed, weights.groups);
    let alone = are_tight_alone(payments, weights.own, payments.first.choices());
    of_groups && alone
}
