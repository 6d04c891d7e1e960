//! Forms.

use crate::sums::{are_quantities, is_empty_package, points_of, reserve_of};
use auction_terms::{Bid, GREATEST_AMOUNT, Rules};
use std::marker::Model;

/// A bidder's number and its bids, with distinct packages. Contracts see the number and the list of bids.
#[derive(Drop)]
pub struct Form {
    bidder: u16,
    bids: Vec<Bid>,
}

impl Model for Form {
    ghost use Rattle.bid_forms.specs.Offers.{IsForm, Offers};

    ghost Value = { Offers };

    ghost view = { λ f. record { bidder = f.bidder; bids = f.bids.items } };

    ghost invariant = { λ f. IsForm (record { bidder = f.bidder; bids = f.bids.items }) };
}

impl Form {
    ghost use Rattle.std.specs.Prelude.{◌≡◌, IsTrue, ◌↔◌};
    ghost use Rattle.bid_forms.specs.Offers.{IsForm, Meets};

    pub(crate) fn new(bidder: u16, bids: Vec<Bid>) -> Form
        requires { IsForm (record { bidder = bidder; bids = bids.items }) }
        ensures { result ≡ record { bidder = bidder; bids = bids.items } }
    {
        Form { bidder, bids }
    }

    /// The number of the bidder, from 1.
    pub fn bidder(&self) -> u16
        ensures bidder { result ≡ self.now.bidder }
        ensures form { IsForm self.now }
    {
        self.bidder
    }

    /// The bids, in the order of their numbers.
    pub fn bids(&self) -> &[Bid]
        ensures bids { result.now ≡ self.now.bids }
        ensures form { IsForm self.now }
    {
        self.bids.as_slice()
    }

    /// Whether the form meets these rules.
    pub fn meets(&self, rules: &Rules) -> bool
        ensures { IsTrue result ↔ Meets rules.now self.now }
    {
        if usize::from(self.bidder) > rules.bidders().len() {
            return false;
        }
        all_meet(rules, eligibility_of(rules, self.bidder), &self.bids)
    }

    /// Whether both have the same bidder and the same bids.
    pub fn is_same(&self, other: &Form) -> bool
        ensures { IsTrue result ↔ (self.now ≡ other.now) }
    {
        self.bidder == other.bidder && are_same(&self.bids, &other.bids)
    }
}

ghost use Rattle.std.specs.Prelude.{◌≡◌, ◌≤◌, ◌↔◌, IsTrue, length};
ghost use Rattle.std.specs.List.{list_all};
ghost use Rattle.auction_terms.specs.Terms.{AreTerms};
ghost use Rattle.auction_terms.specs.declared.limits.TheConstants.{MOST_BIDDERS};
ghost use Rattle.bid_forms.specs.Offers.{eligibility_of, is_bid_under};

// The eligibility of a bidder.
pub(crate) fn eligibility_of(rules: &Rules, bidder: u16) -> u64
    requires some { 1 ≤ bidder }
    requires known { bidder ≤ length rules.now.bidders }
    ensures value { result ≡ eligibility_of rules.now bidder }
    ensures few { bidder ≤ MOST_BIDDERS }
    ensures terms { AreTerms rules.now }
{
    rules.bidders()[usize::from(bidder) - 1].eligibility
}

// Whether each bid is one that the rules allow a bidder with this eligibility.
fn all_meet(rules: &Rules, eligibility: u64, bids: &[Bid]) -> bool
    ensures { result ≡ list_all (is_bid_under rules.now eligibility) bids.now }
{
    bids.iter().all(|bid| meets(rules, eligibility, bid))
}

// Whether the rules allow a bidder with this eligibility the bid.
fn meets(rules: &Rules, eligibility: u64, bid: &Bid) -> bool
    ensures { result ≡ is_bid_under rules.now eligibility bid.now }
{
    let categories = rules.categories();
    let quantities = bid.package.quantities();
    quantities.len() == categories.len()
        && 1 <= bid.amount
        && bid.amount <= GREATEST_AMOUNT
        && bid.amount % rules.step() == 0
        && are_quantities(quantities)
        && !is_empty_package(quantities)
        && points_of(categories, quantities) <= eligibility
        && reserve_of(categories, quantities) <= bid.amount
}

// Whether both lists have the same bids.
fn are_same(bids: &[Bid], others: &[Bid]) -> bool
    ensures { IsTrue result ↔ (bids.now ≡ others.now) }
{
    if bids.len() != others.len() {
        return false;
    }
    for (place, bid) in bids.iter().enumerate() {
        if !is_same(bid, &others[place]) {
            return false;
        }
    }
    true
}

// Whether both are the same bid.
fn is_same(bid: &Bid, other: &Bid) -> bool
    ensures { IsTrue result ↔ (bid.now ≡ other.now) }
{
    bid.amount == other.amount && bid.package.quantities() == other.package.quantities()
}
