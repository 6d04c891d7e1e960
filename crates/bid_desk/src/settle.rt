//! A stopped desk is settled.
//!
//! Settling compares two records of one round that were kept apart: the history under the lock, and the list of calls and
//! replies that each session, and the chair, kept of its own. If they agree, each call of each caller is in the history
//! once, in that caller's order, and nothing else is; that is what a closed book rests on, and no sum of counts is taken.
//!
//! It goes in three steps, each of which may end it with a cause, and the causes are reported in this order:
//!
//! 1. The chair has closed. This is tested before any memory is taken.
//! 2. Each session of the rules is exactly once among those handed in (`slots`: a slot for each session that a bidder may
//!    have, with how often it came and where).
//! 3. One pass over the history advances a comparison for each caller (`comparing`): how many pairs of its list have been
//!    met, or the first place that differs. At the end a list that goes on, or has ended before, differs there too. The first
//!    caller that differs is reported, by bidder, then session, the chair last.
//!
//! To mind when changing it: whatever ends it, the stopped desk, the chair and the sessions go back as they came, so nothing is
//! taken out of them before the last step. A cause is reported only if it holds, even when it is reported late: 'differs' names a
//! place at which the two really differ. Memory is the last cause; it may come in place of 2 and 3, never of 1.

ghost use Rattle.std.specs.Prelude.{◌≡◌, map, length, true, IfSome, IfNone, IfOk, IfErr, All};
ghost use Rattle.auction_terms.specs.Terms.{AreTerms};
ghost use Rattle.bid_book.specs.History.{entry_value, is_closed, own_pairs};
ghost use Rattle.bid_desk.specs.Holding.{IsEntryOf};
ghost use Rattle.bid_desk.specs.Settlement.{IsSettled, IsCause, IsFirstOfAll, StandOnce, AgreeAll};
ghost use Rattle.bid_desk.specs.inside.Slots.{AreSlots};

use crate::chair::Chair;
use crate::closed::ClosedBook;
use crate::comparing::compare;
use crate::desk::{Round, Stopped};
use crate::session::Session;
use crate::slots::{Slot, missing, session_at, slots_of};
use auction_terms::Rules;
use bid_book::{Caller, Entry};
use std::alloc::{AllocError, Global};

/// Why a stopped desk is not settled. Each cause is reported only if those before it don't hold.
#[derive(Clone, Copy, PartialEq, Eq, Debug)]
pub enum Cause {
    /// The chair has not closed.
    StillOpen,
    /// This session of the rules isn't exactly once among those that were handed in.
    Sessions { bidder: u16, session: u8 },
    /// This caller's list and the history differ, first at this place of the list, from 1.
    Differs { caller: Caller, place: usize },
    OutOfMemory,
}

/// A settlement that was refused. It hands everything back.
#[derive(Drop)]
pub struct Unsettled<L: Round> {
    pub stopped: Stopped<L>,
    pub chair: Chair<L>,
    pub sessions: Vec<Session<L>>,
    pub cause: Cause,
}

/// The first caller whose own list differs from the history, by bidder, then session, the chair last; and the first place.
fn differing<L: Round>(
    alloc: Global,
    rules: &Rules,
    history: &[Entry],
    slots: &[Slot],
    sessions: &[Session<L>],
    chair: &Chair<L>,
) -> Result<Option<(Caller, usize)>, AllocError>
    requires rules { rules.now ≡ L.rules }
    requires entries { All (IsEntryOf L.rules) (map entry_value history.now) }
    requires slots { AreSlots L.rules sessions.now (length sessions.now) slots.now }
    requires once { StandOnce L.rules sessions.now }
    ensures sessions { IfOk result (λ found. IfNone found
        (AgreeAll L.rules (map entry_value history.now) sessions.now)) }
    ensures chair { IfOk result (λ found. IfNone found
        (own_pairs (map entry_value history.now) Caller.Chair ≡ chair.now.pairs)) }
    ensures differs { IfOk result (λ found. IfSome found
        (λ x. IsFirstOfAll L.rules (map entry_value history.now) chair.now sessions.now x.0 x.1)) }
{
    let comparisons = compare(alloc, history, slots, sessions, chair)?;
    for (slot, found) in slots.iter().enumerate() {
        if let Some((bidder, session)) = session_at(rules, slot) {
            let at = found.place;
            let comparison = comparisons.sessions[at];
            if let Some(place) = comparison.difference(sessions[at].own()) {
                return Ok(Some((Caller::Session { bidder, session }, place)));
            }
        }
    }
    match comparisons.chair.difference(chair.own()) {
        Some(place) => Ok(Some((Caller::Chair, place))),
        None => Ok(None),
    }
}

/// The first cause in a closed round, if any.
fn cause_of<L: Round>(
    alloc: Global,
    stopped: &Stopped<L>,
    chair: &Chair<L>,
    sessions: &[Session<L>],
) -> Result<Option<Cause>, AllocError>
    requires { is_closed stopped.now.history ≡ true }
    ensures none { IfOk result (λ found. IfNone found
        (IsSettled L.rules stopped.now.history chair.now sessions.now)) }
    ensures some { IfOk result (λ found. IfSome found
        (IsCause L.rules stopped.now.history chair.now sessions.now)) }
    ensures terms { AreTerms L.rules }
{
    let rules = &stopped.rules;
    let slots = slots_of(alloc, rules, sessions)?;
    if let Some((bidder, session)) = missing(rules, &slots) {
        return Ok(Some(Cause::Sessions { bidder, session }));
    }
    let history = stopped.history();
    if let Some((caller, place)) = differing(alloc, rules, history, &slots, sessions, chair)? {
        return Ok(Some(Cause::Differs { caller, place }));
    }
    Ok(None)
}

/// The first cause, if any.
fn refusal<L: Round>(
    alloc: Global,
    stopped: &Stopped<L>,
    chair: &Chair<L>,
    sessions: &[Session<L>],
) -> Option<Cause>
    ensures none { IfNone result (IsSettled L.rules stopped.now.history chair.now sessions.now) }
    ensures some { IfSome result (IsCause L.rules stopped.now.history chair.now sessions.now) }
    ensures terms { IfNone result (AreTerms L.rules) }
{
    if stopped.held.is_open() {
        return Some(Cause::StillOpen);
    }
    match cause_of(alloc, stopped, chair, sessions) {
        Ok(cause) => cause,
        Err(_) => Some(Cause::OutOfMemory),
    }
}

impl<L: Round> Stopped<L> {
    /// Compares the history with every session and the chair, and closes the book. Sessions may come in any order.
    pub fn settle(
        self,
        alloc: Global,
        chair: Chair<L>,
        sessions: Vec<Session<L>>,
    ) -> Result<ClosedBook, Unsettled<L>>
        ensures rules { IfOk result (λ b. b.rules ≡ L.rules) }
        ensures history { IfOk result (λ b. b.history ≡ self.history) }
        ensures settled { IfOk result (λ b. IsSettled L.rules self.history chair sessions.items) }
        ensures back { IfErr result (λ u. (u.stopped ≡ self) × (u.chair ≡ chair)
            × (u.sessions ≡ sessions)) }
        ensures cause { IfErr result (λ u. IsCause L.rules self.history chair sessions.items
            u.cause) }
    {
        match refusal(alloc, &self, &chair, sessions.as_slice()) {
            Some(cause) => Err(Unsettled {
                stopped: self,
                chair,
                sessions,
                cause,
            }),
            None => {
                let Stopped { held, rules } = self;
                Ok(held.close_book(rules))
            }
        }
    }
}
