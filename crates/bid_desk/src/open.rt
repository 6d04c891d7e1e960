//! A desk is opened.

ghost use Rattle.std.specs.Prelude.{ℕ, ◌≡◌, ◌+◌, ◌<◌, ◌≤◌, ◌∷◌, ◌++◌, [], length, vec_len, vec_capacity, IfOk, IfErr};
ghost use Rattle.auction_terms.specs.Terms.{session_count};
ghost use Rattle.bid_desk.specs.Sessions.{IsSessionOf};
ghost use Rattle.bid_desk.specs.Opening.{all_sessions, sessions_of, fresh_session};

use crate::chair::Chair;
use crate::desk::{Desk, Round};
use crate::held::Held;
use crate::session::Session;
use auction_terms::Rules;
use bid_book::Book;
use std::alloc::Global;
use std::sync::Mutex;
use std::sync::ledger::{Blank, Share};

/// Why a desk was not opened. It hands the ledger and the rules back.
#[derive(Drop)]
pub enum OpenError {
    OutOfMemory { blank: Blank, rules: Rules },
}

impl<L: Round> Desk<L> {
    /// Opens a desk. The sessions come in order of bidder, then session.
    pub fn open(
        alloc: Global,
        blank: Blank,
        rules: Rules,
    ) -> Result<(Desk<L>, Chair<L>, Vec<Session<L>>), OpenError>
        requires name { blank.name ≡ L.name }
        requires parts { blank.parts ≡ L.parts }
        requires part_count { (blank.parts ≡ L.part_count)
            × (L.part_count ≡ session_count rules + 1) }
        requires rules { rules ≡ L.rules }
        ensures chair { IfOk result (λ r. (r.1.pairs ≡ []) × (r.1.share ≡ 0)) }
        ensures sessions { IfOk result (λ r. r.2.items ≡ all_sessions 1 rules.bidders) }
        ensures back { IfErr result (λ e. e ≡ OpenError.OutOfMemory blank rules) }
    {
        match Vec::with_capacity(alloc, rules.session_count()) {
            Err(_) => Err(OpenError::OutOfMemory { blank, rules }),
            Ok(room) => {
                let mut sessions: Vec<Session<L>> = room;
                let (count, all) = blank.open::<L>();
                let mut share = all;
                add_all_sessions(alloc, &mut sessions, &mut share, &rules);
                let own = Vec::new(alloc);
                let book = Book::new(alloc);
                let held = Mutex::new(Held { book, count });
                Ok((Desk { held, rules }, Chair { own, share }, sessions))
            }
        }
    }
}

/// Adds the sessions of all bidders.
fn add_all_sessions<L: Round>(
    alloc: Global,
    sessions: &mut Vec<Session<L>>,
    rest: &mut Share<L>,
    rules: &Rules,
)
    requires rules { rules.now ≡ L.rules }
    requires empty { sessions.old.items ≡ [] }
    requires room { session_count rules.now ≤ vec_capacity sessions.old }
    requires parts { rest.old.parts ≡ session_count rules.now + 1 }
    requires amount { rest.old.amount ≡ 0 }
    ensures sessions { sessions.new.items ≡ all_sessions 1 rules.now.bidders }
    ensures parts { rest.new.parts ≡ 1 }
    ensures amount { rest.new.amount ≡ 0 }
{
    for (i, bidder) in rules.bidders().iter().enumerate() {
        add_sessions(alloc, sessions, rest, i as u16 + 1, bidder.sessions);
    }
}

/// Adds the sessions of one bidder.
fn add_sessions<L: Round>(
    alloc: Global,
    sessions: &mut Vec<Session<L>>,
    rest: &mut Share<L>,
    bidder: u16,
    count: u8,
)
    requires known { (s : ℕ) → 1 ≤ s → s ≤ count → IsSessionOf L.rules bidder s }
    requires room { vec_len sessions.old + count ≤ vec_capacity sessions.old }
    requires parts { count < rest.old.parts }
    requires amount { rest.old.amount ≡ 0 }
    ensures sessions { sessions.new.items ≡ sessions.old.items ++ sessions_of bidder count }
    ensures len { vec_len sessions.new ≡ vec_len sessions.old + count }
    ensures room { vec_capacity sessions.old ≤ vec_capacity sessions.new }
    ensures parts { rest.new.parts + count ≡ rest.old.parts }
    ensures amount { rest.new.amount ≡ 0 }
{
    for i in 0..count {
        let share = rest.split_off(1, 0);
        push_session(sessions, new_session(alloc, bidder, i + 1, share));
    }
}

/// Adds a session, for which there is room.
fn push_session<L: Round>(sessions: &mut Vec<Session<L>>, session: Session<L>)
    requires { vec_len sessions.old < vec_capacity sessions.old }
    ensures sessions { sessions.new.items ≡ sessions.old.items ++ session ∷ [] }
    ensures len { vec_len sessions.new ≡ vec_len sessions.old + 1 }
    ensures room { vec_capacity sessions.old ≤ vec_capacity sessions.new }
{
    let _ = sessions.push(session);
}

/// A session that has made no call.
fn new_session<L: Round>(alloc: Global, bidder: u16, session: u8, share: Share<L>) -> Session<L>
    requires known { IsSessionOf L.rules bidder session }
    requires part { 0 < share.parts }
    requires amount { share.amount ≡ 0 }
    ensures { result ≡ fresh_session bidder session }
{
    Session {
        bidder,
        session,
        own: Vec::new(alloc),
        share,
    }
}
