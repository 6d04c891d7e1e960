//! The chair, with the calls that it made.

ghost use Rattle.std.specs.Prelude.{◌≡◌, map, length};
ghost use Rattle.bid_desk.specs.Holding.{pair_value};

use crate::desk::Round;
use bid_book::{Call, Reply};
use std::marker::Model;
use std::sync::ledger::Share;

/// The chair, with the calls that it made and the replies that it was given.
#[derive(Drop)]
pub struct Chair<L: Round> {
    pub(crate) own: Vec<(Call, Reply)>,
    pub(crate) share: Share<L>,
}

impl<L: Round> Model for Chair<L> {
    ghost use Rattle.std.specs.Prelude.{◌≡◌, ◌<◌, map, vec_len};
    ghost use Rattle.bid_desk.specs.Holding.{ChairOwn, pair_value};

    ghost Value = { ChairOwn };

    ghost view = { λ s. record { pairs = map pair_value s.own.items; share = s.share.amount } };

    ghost invariant = { λ s. (s.share.amount ≡ vec_len s.own) × (0 < s.share.parts) };
}

impl<L: Round> Chair<L> {
    /// The calls with their replies, in order.
    pub fn own(&self) -> &[(Call, Reply)]
        ensures pairs { map pair_value result.now ≡ self.now.pairs }
        ensures share { self.now.share ≡ length self.now.pairs }
    {
        self.own.as_slice()
    }
}
