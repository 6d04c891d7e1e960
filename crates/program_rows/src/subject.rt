//! What the rows of a program are about.

use crate::names::numbered;
use crate::row::{Row, RowKind};
use auction_terms::{KeptBid, Rules};
use std::alloc::{AllocError, Global};

/// What a row is about.
#[derive(Clone, Copy)]
pub enum Subject {
    /// A bidder, by its number.
    Bidder(u16),
    /// A category, by its place from 0.
    Category(u8),
    /// A pool, by its place from 0.
    Pool(u8),
}

impl Subject {
    ghost use Rattle.std.specs.Prelude.{◌≡◌, ◌≤◌, ◌^◌, IfOk, length, pos};
    ghost use Rattle.auction_terms.specs.declared.limits.TheConstants.{GREATEST_AMOUNT};
    ghost use Rattle.auction_terms.specs.Offers.{offer_of};
    ghost use Rattle.auction_terms.specs.Packages.{Lots};
    ghost use Rattle.auction_terms.specs.Terms.{lots_in};
    ghost use Rattle.program_rows.specs.inside.Building.{IsThere};
    ghost use Rattle.program_rows.specs.Parts.{shown_row};
    ghost use Rattle.program_rows.specs.Rows.{row_of, weight};

    /// `Bb`, and `Cc` and `Pp` counted from 1.
    fn name(self, alloc: Global) -> Result<Vec<u8>, AllocError>
        ensures { IfOk result (λ name. (lots : Lots) → name.items ≡ (row_of lots self).name) }
    {
        match self {
            Subject::Bidder(number) => numbered(alloc, b'B', number),
            Subject::Category(place) => numbered(alloc, b'C', u16::from(place) + 1),
            Subject::Pool(place) => numbered(alloc, b'P', u16::from(place) + 1),
        }
    }

    /// The greatest sum of its row.
    fn most(self, rules: &Rules) -> u64
        requires { IsThere (lots_in rules.now) self }
        ensures most { pos result ≡ (row_of (lots_in rules.now) self).right_side }
        ensures limit { result ≤ GREATEST_AMOUNT }
    {
        match self {
            Subject::Bidder(_) => 1,
            Subject::Category(place) => u64::from(rules.categories()[usize::from(place)].supply),
            Subject::Pool(place) => rules.pools()[usize::from(place)].cap,
        }
    }

    /// Its row.
    pub(crate) fn row(self, alloc: Global, rules: &Rules) -> Result<Row, AllocError>
        requires { IsThere (lots_in rules.now) self }
        ensures { IfOk result (λ row. shown_row row ≡ row_of (lots_in rules.now) self) }
    {
        Ok(Row {
            name: self.name(alloc)?,
            kind: RowKind::AtMost,
            right_side: self.most(rules) as i64,
        })
    }

    /// How much of a bid counts in its row.
    pub(crate) fn weight(self, rules: &Rules, bid: KeptBid<'_>) -> u64
        requires there { IsThere (lots_in rules.now) self }
        requires sized { length bid.offer.now.package ≡ length rules.now.categories }
        ensures weight { result ≡ weight (lots_in rules.now) self (offer_of bid.entry) }
        ensures limit { result ≤ 2 ^ 37 }
    {
        match self {
            Subject::Bidder(number) => u64::from(number == bid.bidder),
            Subject::Category(place) => {
                u64::from(bid.offer.package.quantities()[usize::from(place)])
            }
            Subject::Pool(place) => rules.pools()[usize::from(place)].load(&bid.offer.package),
        }
    }
}
