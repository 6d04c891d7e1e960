//! Whom the lines of prices and of the rule may name.

ghost use Rattle.std.specs.Prelude.{◌≡◌, ◌==◌};
ghost use Rattle.std.specs.List.{list_any};

use crate::price_fault::PriceFault;
use crate::rule_weights::Subject;
use auction_terms::{Choice, Rules, number};
use std::marker::Model;

/// The bidders that win, of all bidders, and the groups up to a number.
#[derive(Drop)]
pub struct Known<'a> {
    rules: &'a Rules,
    winners: &'a [Choice],
    groups: usize,
}

impl<'a> Model for Known<'a> {
    ghost use Rattle.auction_input.specs.PriceTexts.{Known};

    ghost Value = { Known };

    ghost view = { λ k. record { bidders = k.rules.now.bidders; winners = k.winners.now; groups = k.groups } };
}

impl<'a> Known<'a> {
    ghost use Rattle.std.specs.Prelude.{◌≡◌, Some};
    ghost use Rattle.auction_input.specs.PriceTexts.{parsed_subject, parsed_winner, winner_named};

    /// The winners, of the bidders of the rules, and that many groups.
    pub fn new(rules: &'a Rules, winners: &'a [Choice], groups: usize) -> Self
        ensures { result ≡ record {
          bidders = rules.now.bidders;
          winners = winners.now;
          groups = groups;
        } }
    {
        Known {
            rules,
            winners,
            groups,
        }
    }

    // A bidder that is to win.
    fn winner(&self, place: usize, bidder: u16) -> Result<u16, PriceFault>
        ensures { result ≡ parsed_winner self.now place (Some bidder) }
    {
        if is_winner(self.winners, bidder) {
            Ok(bidder)
        } else {
            Err(PriceFault::NotWinner { place })
        }
    }

    /// The bidder that a line at this place names, which is to win.
    pub(crate) fn winner_named(&self, place: usize, name: &[u8]) -> Result<u16, PriceFault>
        ensures { result ≡ winner_named self.now place name.now }
    {
        match self.rules.bidder_number(name) {
            Some(bidder) => self.winner(place, bidder),
            None => Err(PriceFault::UnknownName { place }),
        }
    }

    /// Whom a line of weights at this place names.
    pub(crate) fn subject(&self, place: usize, name: &[u8]) -> Result<Subject, PriceFault>
        ensures { result ≡ parsed_subject self.now place name.now }
    {
        let Some(group) = number(name) else {
            return Ok(Subject::Bidder(self.winner_named(place, name)?));
        };
        if 1 <= group && group <= self.groups as u64 {
            Ok(Subject::Group(group as usize))
        } else {
            Err(PriceFault::UnknownName { place })
        }
    }
}

fn is_winner(winners: &[Choice], bidder: u16) -> bool
    ensures { result ≡ list_any (λ c. c.bidder == bidder) winners.now }
{
    winners.iter().any(|choice| choice.bidder == bidder)
}
