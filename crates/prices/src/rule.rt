//! Whether weights show that prices in parts of a pound are the prices of the rule: of least sum, and the nearest to what each winner
//! costs alone.

ghost use Rattle.std.specs.Prelude.{◌≡◌, ◌≤◌, ◌*◌, ◌^◌, ◌&&◌, ◌∷◌, [], All, IfErr, None, OnOk, Some, false, length, nat_le};
ghost use Rattle.std.specs.List.{AllZip, list_all};
ghost use Rattle.auction_terms.specs.declared.limits.TheConstants.{GREATEST_AMOUNT, MOST_PARTS};
ghost use Rattle.auction_terms.specs.Allocations.{weighed_choice};
ghost use Rattle.auction_terms.specs.FirstFault.{first_failed};
ghost use Rattle.auction_terms.specs.Groups.{has};
ghost use Rattle.auction_terms.specs.Terms.{lots_in};
ghost use Rattle.bid_desk.specs.Closing.{book_of};
ghost use Rattle.outcome.specs.Pricing.{price_in};
ghost use Rattle.prices.specs.Alone.{AreCostsAlone};
ghost use Rattle.prices.specs.Blocking.{ArePrices};
ghost use Rattle.prices.specs.declared.rule.RuleFault.TheVariants.{NotLeast, NotNearest};
ghost use Rattle.prices.specs.inside.Weighing.{even_by, moved_by};
ghost use Rattle.prices.specs.Parts.{AreThePrices, Suffice};
ghost use Rattle.prices.specs.Prices.{reserves_in};
ghost use Rattle.prices.specs.Rule as of_rule;
ghost use Rattle.prices.specs.Rule.{rule_fault};
ghost use Rattle.prices.specs.Weights.{listed_weights};
ghost use Rattle.program_rows.specs.Faithful.{IsGreatest};

use crate::listed::Listed;
use crate::payments::{Payments, amount_in_parts};
use crate::tight::are_tight;
use crate::weights::{Weights, weights_on};
use auction_terms::{Choice, Groups};
use outcome::price_of;

/// Weights that show that no prices that suffice have a lower sum; and weights that show, with a push, that no others of that sum are
/// as near to what each winner costs alone.
#[derive(Drop)]
pub struct Rule<'w> {
    pub least: Weights<'w>,
    pub nearest: Weights<'w>,
    pub push: u64,
}

/// What isn't shown of prices that are to be those of the rule.
#[derive(Clone, Copy, Debug, PartialEq, Eq)]
pub enum RuleFault {
    /// The weights don't show that no prices that suffice have a lower sum.
    NotLeast,
    /// The weights and the push don't show that no others of that sum are as near to what each winner costs alone.
    NotNearest,
}

// A number, times the scale.
fn product(scale: u64, number: u64) -> u128
    requires { number ≤ 10 ^ 18 }
    ensures product { result ≡ scale * number }
    ensures small { result ≤ 2 ^ 124 }
{
    u128::from(scale) * u128::from(number)
}

/// Whether the weights on a bidder are the scale.
fn is_even(groups: &Groups, weights: &Weights<'_>, bidder: u16) -> bool
    requires few { length groups.now ≤ 1024 }
    requires weights { length weights.now.groups.now ≡ length groups.now }
    ensures { result ≡ even_by groups.now weights.now.groups.now
        (price_in weights.now.own.now) weights.now.scale bidder }
{
    weights_on(groups, weights, bidder) == u128::from(weights.scale)
}

/// Whether the weights on each winner are the scale.
fn are_even(groups: &Groups, weights: &Weights<'_>, choices: &[Choice]) -> bool
    requires few { length groups.now ≤ 1024 }
    requires weights { length weights.now.groups.now ≡ length groups.now }
    ensures { result ≡ list_all (λ c. even_by groups.now weights.now.groups.now
        (price_in weights.now.own.now) weights.now.scale c.bidder) choices.now }
{
    for choice in choices {
        if !is_even(groups, weights, choice.bidder) {
            return false;
        }
    }
    true
}

/// Whether a bidder's price is what it costs alone, moved up by the weights on it and down by the push.
fn is_moved(
    payments: &Payments<'_>,
    groups: &Groups,
    alone: &[u64],
    rule: &Rule<'_>,
    bidder: u16,
) -> bool
    requires few { length groups.now ≤ 1024 }
    requires weights { length rule.now.nearest.groups.now ≡ length groups.now }
    requires parts { payments.now.parts ≤ MOST_PARTS }
    requires alone { price_in alone.now bidder ≤ GREATEST_AMOUNT }
    requires prices { price_in payments.now.prices.now bidder ≤ 10 ^ 18 }
    ensures { result ≡ moved_by groups.now rule.now.nearest.groups.now
        (price_in rule.now.nearest.own.now) rule.now.nearest.scale (price_in alone.now)
        payments.now.parts (price_in payments.now.prices.now) rule.now.push bidder }
{
    let weights = &rule.nearest;
    let priced = product(weights.scale, price_of(payments.prices, bidder));
    let moved = product(
        weights.scale,
        amount_in_parts(payments.parts, price_of(alone, bidder)),
    );
    priced + u128::from(rule.push) == moved + weights_on(groups, weights, bidder)
}

/// Whether each winner's price is what it costs alone, moved up by the weights on it and down by the push.
fn are_moved(
    payments: &Payments<'_>,
    groups: &Groups,
    alone: &[u64],
    rule: &Rule<'_>,
    choices: &[Choice],
) -> bool
    requires few { length groups.now ≤ 1024 }
    requires weights { length rule.now.nearest.groups.now ≡ length groups.now }
    requires parts { payments.now.parts ≤ MOST_PARTS }
    requires alone { All (λ c. price_in alone.now c.bidder ≤ GREATEST_AMOUNT) choices.now }
    requires prices { All (λ c. price_in payments.now.prices.now c.bidder ≤ 10 ^ 18) choices.now }
    ensures { result ≡ list_all (λ c. moved_by groups.now rule.now.nearest.groups.now
        (price_in rule.now.nearest.own.now) rule.now.nearest.scale (price_in alone.now)
        payments.now.parts (price_in payments.now.prices.now) rule.now.push c.bidder) choices.now }
{
    for choice in choices {
        if !is_moved(payments, groups, alone, rule, choice.bidder) {
            return false;
        }
    }
    true
}

// Whether there is a scale, and both hold.
fn are_shown(scale: u64, even: bool, tight: bool) -> bool
    ensures { result ≡ (nat_le 1 scale && even && tight) }
{
    scale >= 1 && even && tight
}

/// Whether weights show that no prices that suffice have a lower sum.
fn shows_least(payments: &Payments<'_>, listed: &Listed<'_>, weights: &Weights<'_>) -> bool
    requires first { IsGreatest (lots_in payments.now.book.now.rules)
        (book_of payments.now.book.now) (λ b. false) payments.now.first.now }
    requires without { AllZip (λ group a. IsGreatest (lots_in payments.now.book.now.rules)
        (book_of payments.now.book.now) (has group) a) listed.now.groups.now listed.now.won.now }
    requires weights { length weights.now.groups.now ≡ length listed.now.groups.now }
    requires parts { payments.now.parts ≤ MOST_PARTS }
    requires reserves { All (λ c. weighed_choice (reserves_in payments.now.book.now.rules)
        (book_of payments.now.book.now) c ≤ GREATEST_AMOUNT) payments.now.first.now }
    ensures { result ≡ of_rule.shows_least (reserves_in payments.now.book.now.rules)
        (lots_in payments.now.book.now.rules) (book_of payments.now.book.now)
        payments.now.first.now payments.now.parts (price_in payments.now.prices.now)
        (listed_weights listed.now.groups.now listed.now.won.now weights.now.scale
        weights.now.groups.now weights.now.own.now) }
{
    // Its contract says how many groups there may be.
    let _few = listed.groups.count();
    let even = are_even(listed.groups, weights, payments.first.choices());
    let tight = are_tight(payments, listed, weights);
    are_shown(weights.scale, even, tight)
}

/// Whether weights and a push show that no prices that suffice and have no greater sum are as near to what each winner costs alone.
fn shows_nearest(
    payments: &Payments<'_>,
    listed: &Listed<'_>,
    alone: &[u64],
    rule: &Rule<'_>,
) -> bool
    requires first { IsGreatest (lots_in payments.now.book.now.rules)
        (book_of payments.now.book.now) (λ b. false) payments.now.first.now }
    requires without { AllZip (λ group a. IsGreatest (lots_in payments.now.book.now.rules)
        (book_of payments.now.book.now) (has group) a) listed.now.groups.now listed.now.won.now }
    requires weights { length rule.now.nearest.groups.now ≡ length listed.now.groups.now }
    requires parts { payments.now.parts ≤ MOST_PARTS }
    requires alone { All (λ c. price_in alone.now c.bidder ≤ GREATEST_AMOUNT)
        payments.now.first.now }
    requires prices { All (λ c. price_in payments.now.prices.now c.bidder ≤ 10 ^ 18)
        payments.now.first.now }
    requires reserves { All (λ c. weighed_choice (reserves_in payments.now.book.now.rules)
        (book_of payments.now.book.now) c ≤ GREATEST_AMOUNT) payments.now.first.now }
    ensures { result ≡ of_rule.shows_nearest (reserves_in payments.now.book.now.rules)
        (lots_in payments.now.book.now.rules) (book_of payments.now.book.now)
        payments.now.first.now (price_in alone.now) payments.now.parts
        (price_in payments.now.prices.now) rule.now.push
        (listed_weights listed.now.groups.now listed.now.won.now rule.now.nearest.scale
        rule.now.nearest.groups.now rule.now.nearest.own.now) }
{
    // Its contract says how many groups there may be.
    let _few = listed.groups.count();
    let moved = are_moved(
        payments,
        listed.groups,
        alone,
        rule,
        payments.first.choices(),
    );
    let tight = are_tight(payments, listed, &rule.nearest);
    are_shown(rule.nearest.scale, moved, tight)
}

// Which of the two isn't shown first.
fn both_shown(least: bool, nearest: bool) -> Result<(), RuleFault>
    ensures shown { OnOk result (first_failed ((least, NotLeast) ∷ (nearest, NotNearest) ∷ []) ≡ None) }
    ensures refused { IfErr result (λ fault. first_failed ((least, NotLeast) ∷ (nearest, NotNearest) ∷ [])
        ≡ Some fault) }
{
    if !least {
        return Err(RuleFault::NotLeast);
    }
    if !nearest {
        return Err(RuleFault::NotNearest);
    }
    Ok(())
}

/// Whether weights show that prices that suffice are the prices of the rule, by what each winner costs alone. The allocations are of
/// greatest total, each without its group.
pub fn show_the_prices(
    payments: &Payments<'_>,
    listed: &Listed<'_>,
    alone: &[u64],
    rule: &Rule<'_>,
) -> Result<(), RuleFault>
    requires first { IsGreatest (lots_in payments.now.book.now.rules)
        (book_of payments.now.book.now) (λ b. false) payments.now.first.now }
    requires without { AllZip (λ group a. IsGreatest (lots_in payments.now.book.now.rules)
        (book_of payments.now.book.now) (has group) a) listed.now.groups.now listed.now.won.now }
    requires least { length rule.now.least.groups.now ≡ length listed.now.groups.now }
    requires nearest { length rule.now.nearest.groups.now ≡ length listed.now.groups.now }
    requires parts { payments.now.parts ≤ MOST_PARTS }
    requires prices { ArePrices (book_of payments.now.book.now) payments.now.first.now
        payments.now.parts (price_in payments.now.prices.now) }
    requires suffice { Suffice (reserves_in payments.now.book.now.rules)
        (lots_in payments.now.book.now.rules) (book_of payments.now.book.now)
        payments.now.first.now payments.now.parts (price_in payments.now.prices.now) }
    requires alone { AreCostsAlone (reserves_in payments.now.book.now.rules)
        (lots_in payments.now.book.now.rules) (book_of payments.now.book.now)
        payments.now.first.now (price_in alone.now) }
    ensures shown { OnOk result (rule_fault (reserves_in payments.now.book.now.rules)
        (lots_in payments.now.book.now.rules) (book_of payments.now.book.now)
        payments.now.first.now (price_in alone.now) payments.now.parts
        (price_in payments.now.prices.now) (record {
          least = listed_weights listed.now.groups.now listed.now.won.now rule.now.least.scale
              rule.now.least.groups.now rule.now.least.own.now;
          nearest = listed_weights
              listed.now.groups.now listed.now.won.now rule.now.nearest.scale
              rule.now.nearest.groups.now rule.now.nearest.own.now;
          push = rule.now.push;
        }) ≡ None) }
    ensures refused { IfErr result (λ fault. rule_fault (reserves_in payments.now.book.now.rules)
        (lots_in payments.now.book.now.rules) (book_of payments.now.book.now)
        payments.now.first.now (price_in alone.now) payments.now.parts
        (price_in payments.now.prices.now) (record {
          least = listed_weights listed.now.groups.now listed.now.won.now rule.now.least.scale
              rule.now.least.groups.now rule.now.least.own.now;
          nearest = listed_weights
              listed.now.groups.now listed.now.won.now rule.now.nearest.scale
              rule.now.nearest.groups.now rule.now.nearest.own.now;
          push = rule.now.push;
        })
        ≡ Some fault) }
    ensures prices { OnOk result (AreThePrices (reserves_in payments.now.book.now.rules)
        (lots_in payments.now.book.now.rules) (book_of payments.now.book.now)
        payments.now.first.now (price_in alone.now) payments.now.parts
        (price_in payments.now.prices.now)) }
{
    payments.book.within_limits();
    let least = shows_least(payments, listed, &rule.least);
    let nearest = shows_nearest(payments, listed, alone, rule);
    both_shown(least, nearest)
}
