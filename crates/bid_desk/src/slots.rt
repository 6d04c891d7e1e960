//! The place of each session in a list of sessions.

ghost use Rattle.std.specs.Prelude.{ℕ, ◌≡◌, ◌≢◌, ◌*◌, ◌<◌, ◌≤◌, length, IfOk, IfSome, IfNone};
ghost use Rattle.auction_terms.specs.Terms.{AreTerms};
ghost use Rattle.bid_desk.specs.Sessions.{IsSessionOf};
ghost use Rattle.bid_desk.specs.inside.Slots.{AllOnce, AreSlots, IsFirstWrong, slot_of};

use crate::desk::Round;
use crate::session::Session;
use auction_terms::{MOST_SESSIONS, Rules};
use std::alloc::{AllocError, Global};

/// How often a session is in a list, and its last place there.
#[derive(Clone, Copy, Debug)]
pub(crate) struct Slot {
    pub(crate) times: usize,
    pub(crate) place: usize,
}

/// How many slots a bidder has: one for each session that it may have.
const SLOTS: usize = MOST_SESSIONS as usize;

/// The place of a session's slot.
pub(crate) fn slot_of(bidder: u16, session: u8) -> usize
    requires bidder { 1 ≤ bidder }
    requires session { 1 ≤ session }
    ensures { result ≡ slot_of bidder session }
{
    (usize::from(bidder) - 1) * SLOTS + (usize::from(session) - 1)
}

/// The slots of the sessions of all bidders.
pub(crate) fn slots_of<L: Round>(
    alloc: Global,
    rules: &Rules,
    sessions: &[Session<L>],
) -> Result<Vec<Slot>, AllocError>
    requires { rules.now ≡ L.rules }
    ensures slots { IfOk result (λ slots. AreSlots L.rules sessions.now (length sessions.now)
        slots.items) }
    ensures terms { AreTerms L.rules }
{
    let empty = Slot { times: 0, place: 0 };
    let mut slots = vec![in alloc; empty; rules.bidders().len() * SLOTS]?;
    for (place, session) in sessions.iter().enumerate() {
        let slot = session.slot();
        let times = slots[slot].times + 1;
        slots[slot] = Slot { times, place };
    }
    Ok(slots)
}

/// The session whose slot is at a place, if the rules name one.
pub(crate) fn session_at(rules: &Rules, place: usize) -> Option<(u16, u8)>
    requires { place < length rules.now.bidders * MOST_SESSIONS }
    ensures some { IfSome result (λ x. IsSessionOf rules.now x.0 x.1 × (slot_of x.0 x.1 ≡ place)) }
    ensures none { IfNone result ((b s : ℕ) → IsSessionOf rules.now b s → slot_of b s ≢ place) }
{
    let bidder = place / SLOTS;
    let session = place % SLOTS + 1;
    if session <= usize::from(rules.bidders()[bidder].sessions) {
        Some((bidder as u16 + 1, session as u8))
    } else {
        None
    }
}

/// The first session of the rules that isn't there exactly once.
pub(crate) fn missing(rules: &Rules, slots: &[Slot]) -> Option<(u16, u8)>
    requires size { length slots.now ≡ length rules.now.bidders * MOST_SESSIONS }
    requires most { (b s : ℕ) → IsSessionOf rules.now b s → s ≤ MOST_SESSIONS }
    ensures none { IfNone result (AllOnce rules.now slots.now) }
    ensures some { IfSome result (λ x. IsFirstWrong rules.now slots.now x.0 x.1) }
{
    for (place, slot) in slots.iter().enumerate() {
        if let Some((bidder, session)) = session_at(rules, place) {
            if slot.times != 1 {
                return Some((bidder, session));
            }
        }
    }
    None
}
