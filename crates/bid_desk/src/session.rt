//! Sessions, each with the calls that it made.

ghost use Rattle.std.specs.Prelude.{◌≡◌, ◌*◌, ◌<◌, map, length};
ghost use Rattle.bid_desk.specs.Holding.{pair_value};
ghost use Rattle.bid_desk.specs.inside.Slots.{slot_of};
ghost use Rattle.bid_desk.specs.Sessions.{IsSessionOf};

use crate::desk::Round;
use crate::slots::slot_of;
use bid_book::{Call, Reply};
use std::marker::Model;
use std::sync::ledger::Share;

/// A bidder's session, with the calls that it made and the replies that it was given.
#[derive(Drop)]
pub struct Session<L: Round> {
    pub(crate) bidder: u16,
    pub(crate) session: u8,
    pub(crate) own: Vec<(Call, Reply)>,
    pub(crate) share: Share<L>,
}

impl<L: Round> Model for Session<L> {
    ghost use Rattle.std.specs.Prelude.{◌≡◌, ◌<◌, map, vec_len};
    ghost use Rattle.bid_desk.specs.Sessions.{IsSessionOf};
    ghost use Rattle.bid_desk.specs.Holding.{SessionOwn, pair_value};

    ghost Value = { SessionOwn };

    ghost view = { λ s. record { bidder = s.bidder; session = s.session; pairs = map pair_value s.own.items; share = s.share.amount } };

    ghost invariant = { λ s. (s.share.amount ≡ vec_len s.own) × (0 < s.share.parts) × IsSessionOf L.rules s.bidder s.session };
}

impl<L: Round> Session<L> {
    /// The bidder's number.
    pub fn bidder(&self) -> u16
        ensures { result ≡ self.now.bidder }
    {
        self.bidder
    }

    /// The place of the session's slot.
    pub(crate) fn slot(&self) -> usize
        ensures slot { result ≡ slot_of self.now.bidder self.now.session }
        ensures known { IsSessionOf L.rules self.now.bidder self.now.session }
    {
        slot_of(self.bidder, self.session)
    }

    /// The session's number.
    pub fn session(&self) -> u8
        ensures { result ≡ self.now.session }
    {
        self.session
    }

    /// The calls with their replies, in order.
    pub fn own(&self) -> &[(Call, Reply)]
        ensures pairs { map pair_value result.now ≡ self.now.pairs }
        ensures share { self.now.share ≡ length self.now.pairs }
    {
        self.own.as_slice()
    }
}
