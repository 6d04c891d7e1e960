//! How far the callers' own lists agree with a history.

ghost use Rattle.std.specs.Prelude.{ℕ, ◌≡◌, ◌+◌, ◌<◌, ◌↔◌, [], ◌∷◌, ◌++◌, List, Some, slice_get, map, take, length, IsTrue, IfSome, IfNone, IfOk, All};
ghost use Rattle.bid_forms.specs.Offers.{Offers};
ghost use Rattle.bid_book.specs.declared.call.Call.{Call};
ghost use Rattle.bid_book.specs.declared.reply.Reply.{Reply};
ghost use Rattle.bid_book.specs.History.{entry_value, call_value, reply_value};
ghost use Rattle.bid_desk.specs.Holding.{IsEntryOf, pair_value};
ghost use Rattle.bid_desk.specs.Settlement.{IsFirstDifference, StandOnce};
ghost use Rattle.bid_desk.specs.inside.Slots.{AreSlots};
ghost use Rattle.bid_desk.specs.inside.Comparing.{AreCompared, IsCompared, IsWithin};

use crate::chair::Chair;
use crate::desk::Round;
use crate::session::Session;
use crate::slots::{Slot, slot_of};
use bid_book::{Call, Caller, Entry, Reply};
use std::alloc::{AllocError, Global};

/// How far a caller's own list agrees with a history.
#[derive(Clone, Copy, Debug)]
pub(crate) enum Comparison {
    /// The caller's entries are the first pairs of its list.
    Agrees { pairs: usize },
    /// They differ, first at this place, counted from 1.
    Differs { place: usize },
}

/// The comparisons of the sessions in a list, and of the chair.
#[derive(Drop, Debug)]
pub(crate) struct Comparisons {
    pub(crate) sessions: Vec<Comparison>,
    pub(crate) chair: Comparison,
}

impl Comparison {
    /// Takes one more of the caller's entries in.
    fn with(self, own: &[(Call, Reply)], entry: &Entry) -> Comparison
        requires { IsWithin (length own.now) self }
        ensures { (theirs : List (Call Offers × Reply Offers))
            → IsCompared theirs (map pair_value own.now) self
            → IsCompared (theirs ++ (call_value entry.now.call, reply_value entry.now.reply) ∷ [])
            (map pair_value own.now) result }
    {
        match self {
            Comparison::Differs { place } => Comparison::Differs { place },
            Comparison::Agrees { pairs } => {
                if agrees_at(own, pairs, entry) {
                    Comparison::Agrees { pairs: pairs + 1 }
                } else {
                    Comparison::Differs { place: pairs + 1 }
                }
            }
        }
    }

    /// The first place at which the caller's own list differs from the whole history.
    pub(crate) fn difference(self, own: &[(Call, Reply)]) -> Option<usize>
        ensures same { (theirs : List (Call Offers × Reply Offers))
            → IsCompared theirs (map pair_value own.now) self
            → IfNone result (theirs ≡ map pair_value own.now) }
        ensures differs { (theirs : List (Call Offers × Reply Offers))
            → IsCompared theirs (map pair_value own.now) self
            → IfSome result (IsFirstDifference theirs (map pair_value own.now)) }
    {
        match self {
            Comparison::Differs { place } => Some(place),
            Comparison::Agrees { pairs } => {
                if pairs < own.len() {
                    Some(pairs + 1)
                } else {
                    None
                }
            }
        }
    }
}

/// Whether the pair at a place is the entry's call and reply.
fn agrees_at(own: &[(Call, Reply)], place: usize, entry: &Entry) -> bool
    ensures { IsTrue result ↔ (slice_get (map pair_value own.now) place
        ≡ Some (call_value entry.now.call, reply_value entry.now.reply)) }
{
    match own.get(place) {
        None => false,
        Some(pair) => entry.call.is_same(&pair.0) && entry.reply.is_same(&pair.1),
    }
}

/// Compares each caller's own list with a history, in one pass over the history.
pub(crate) fn compare<L: Round>(
    alloc: Global,
    history: &[Entry],
    slots: &[Slot],
    sessions: &[Session<L>],
    chair: &Chair<L>,
) -> Result<Comparisons, AllocError>
    requires entries { All (IsEntryOf L.rules) (map entry_value history.now) }
    requires slots { AreSlots L.rules sessions.now (length sessions.now) slots.now }
    requires once { StandOnce L.rules sessions.now }
    ensures { IfOk result (AreCompared (map entry_value history.now) sessions.now chair.now) }
{
    let nothing = Comparison::Agrees { pairs: 0 };
    let mut comparisons = Comparisons {
        sessions: vec![in alloc; nothing; sessions.len()]?,
        chair: nothing,
    };
    for place in 0..history.len() {
        compare_entry(&mut comparisons, history, place, slots, sessions, chair);
    }
    Ok(comparisons)
}

/// Compares the entry at a place with its caller's own list.
fn compare_entry<L: Round>(
    comparisons: &mut Comparisons,
    history: &[Entry],
    place: usize,
    slots: &[Slot],
    sessions: &[Session<L>],
    chair: &Chair<L>,
)
    requires within { place < length history.now }
    requires entries { All (IsEntryOf L.rules) (map entry_value history.now) }
    requires slots { AreSlots L.rules sessions.now (length sessions.now) slots.now }
    requires once { StandOnce L.rules sessions.now }
    requires compared { AreCompared (take place (map entry_value history.now)) sessions.now
        chair.now comparisons.old }
    ensures { AreCompared (take (place + 1) (map entry_value history.now)) sessions.now chair.now
        comparisons.new }
{
    let entry = &history[place];
    match entry.caller {
        Caller::Session { bidder, session } => {
            let at = slots[slot_of(bidder, session)].place;
            let so_far = comparisons.sessions[at];
            comparisons.sessions[at] = so_far.with(sessions[at].own(), entry);
        }
        Caller::Chair => {
            let so_far = comparisons.chair;
            comparisons.chair = so_far.with(chair.own(), entry);
        }
    }
}
