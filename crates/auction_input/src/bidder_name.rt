//! The name of a bidder, as a value that is copied.

ghost use Rattle.std.specs.Prelude.{◌≡◌, [], map};
ghost use Rattle.bid_desk.specs.Sale.{bidder_name};

use auction_terms::{Name, Rules};
use std::marker::Model;

// The most bytes of a name.
const NAME_LEN: usize = 16;

/// The name of a bidder, which is copied as a number is. Contracts see its bytes.
#[derive(Clone, Copy)]
pub struct BidderName {
    // Zeros come after the name.
    bytes: [u8; NAME_LEN],
    len: usize,
}

impl Model for BidderName {
    ghost use Rattle.std.specs.Prelude.{◌≡◌, ◌-◌, ◌++◌, ℕ, List, length, replicate, take};
    ghost use Rattle.std.proofs.Common.{◌∙◌, ap, sym};

    ghost Value = { List ℕ };

    ghost view = { λ name. take name.len name.bytes };

    ghost invariant = { λ name. (length (take name.len name.bytes) ≡ name.len) × (name.bytes ≡ take name.len name.bytes ++ replicate (16 - name.len) 0) };

    ghost inverse = { λ text. record { bytes = text ++ replicate (16 - length text) 0; len = length text } };

    ghost inverse_ok = { λ name known i. record {
      bytes = (ap (λ n. take name.len name.bytes ++ replicate (16 - n) 0) known.0 ∙ sym known.1) i;
      len = known.0 i;
    } };
}

impl BidderName {
    // No name.
    fn none() -> BidderName
        ensures { result ≡ [] }
    {
        BidderName {
            bytes: [0; NAME_LEN],
            len: 0,
        }
    }

    fn copied(name: &Name) -> BidderName
        ensures { result ≡ name.now }
    {
        let text = name.as_bytes();
        let mut bytes = [0; NAME_LEN];
        bytes[..text.len()].copy_from_slice(text);
        BidderName {
            bytes,
            len: text.len(),
        }
    }

    /// The name of the bidder of that number; of a number that no bidder has no bytes.
    pub fn of_bidder(rules: &Rules, bidder: u16) -> BidderName
        ensures { result ≡ bidder_name (map (λ bidder. bidder.name) rules.now.bidders) bidder }
    {
        if bidder == 0 {
            return BidderName::none();
        }
        match rules.bidders().get(usize::from(bidder) - 1) {
            Some(bidder) => BidderName::copied(&bidder.name),
            None => BidderName::none(),
        }
    }

    /// The bytes of the name.
    pub fn as_slice(&self) -> &[u8]
        ensures { result.now ≡ self.now }
    {
        &self.bytes[..self.len]
    }
}
