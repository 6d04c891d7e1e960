//! How desks are opened and settled: if memory is short all comes back, and the call is made once more.

ghost use Rattle.std.specs.Prelude.{◌≡◌, ◌+◌};
ghost use Rattle.auction_terms.specs.Terms.{session_count};

use auction_terms::Rules;
use bid_desk::{Cause, Chair, ClosedBook, Desk, OpenError, Round, Session, Stopped, Unsettled};
use std::alloc::Global;
use std::sync::ledger::Blank;

/// Opens a desk.
pub fn opened<L: Round>(
    alloc: Global,
    blank: Blank,
    rules: Rules,
) -> Option<(Desk<L>, Chair<L>, Vec<Session<L>>)>
    requires name { blank.name ≡ L.name }
    requires parts { blank.parts ≡ L.parts }
    requires part_count { (blank.parts ≡ L.part_count) × (L.part_count ≡ session_count rules + 1) }
    requires rules { rules ≡ L.rules }
{
    match Desk::<L>::open(alloc, blank, rules) {
        Ok(opened) => Some(opened),
        Err(OpenError::OutOfMemory { blank, rules }) => {
            Desk::<L>::open(alloc, blank, rules).ok()
        }
    }
}

/// Settles. If memory is short everything comes back, and settles after that.
pub fn settled<L: Round>(
    alloc: Global,
    stopped: Stopped<L>,
    chair: Chair<L>,
    sessions: Vec<Session<L>>,
) -> Option<ClosedBook> {
    match stopped.settle(alloc, chair, sessions) {
        Ok(closed) => Some(closed),
        Err(refused) => {
            let Unsettled {
                stopped,
                chair,
                sessions,
                cause,
            } = refused;
            if cause != Cause::OutOfMemory {
                return None;
            }
            stopped.settle(alloc, chair, sessions).ok()
        }
    }
}
