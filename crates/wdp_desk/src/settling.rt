//! Settling a closed round.

use crate::faults::Explaining;
use crate::filter::{Ended, journal_ended, print_ended};
use crate::listing::read_file;
use desk_book::{SettleFault, find_front, replay, settled_input};
use std::io::Write;

// Writes the input of a closed round.
fn settle(rt: &HostRuntime, journal: &str, openings: &str) -> Result<(), Ended> {
    let bytes = read_file(rt, journal)?;
    let replayed = match replay(rt.alloc(), Explaining, bytes.as_slice()) {
        Ok(replayed) => replayed,
        Err(fault) => return Err(journal_ended(fault)),
    };
    if replayed.end < bytes.len() {
        return Err(Ended::Journal("its end is torn: start the desk once"));
    }
    if replayed.desk.is_open() {
        return Err(Ended::Journal("the round isn't closed"));
    }
    let Ok(front) = find_front(bytes.as_slice()) else {
        return Err(Ended::Journal("it has no front of a desk's journal"));
    };
    let opened = match read_file(rt, openings) {
        Ok(opened) => opened,
        Err(_) => return Err(Ended::Openings("they can't be read")),
    };
    match settled_input(rt.alloc(), &replayed.desk, front.rules, opened.as_slice()) {
        Ok(input) if rt.stdout().write_all(input.as_slice()).is_ok() => Ok(()),
        Ok(_) => Err(Ended::Untold),
        Err(SettleFault::NoOpening { at }) => Err(Ended::NoOpening { at }),
        Err(SettleFault::NotStanding { at }) => Err(Ended::NotStanding { at }),
        Err(SettleFault::Again { at }) => Err(Ended::OpenedAgain { at }),
        Err(SettleFault::Missing { entry }) => Err(Ended::Unopened { entry }),
        Err(SettleFault::OutOfMemory) => Err(Ended::OutOfMemory),
    }
}

/// Writes the input of a closed round, and gives the status of the process.
pub fn run_settle(rt: &HostRuntime, journal: &str, openings: &str) -> u8 {
    match settle(rt, journal, openings) {
        Ok(()) => 0,
        Err(ended) => {
            print_ended(rt, journal, &ended);
            1
        }
    }
}
