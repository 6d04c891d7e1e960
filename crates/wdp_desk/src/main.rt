//! The desk of a round as a filter: calls on standard input, a reply to each on standard output, and what a reply tells of is on
//! the disk before it.
#![tactic(auto)]

mod disk;
mod faults;
mod filter;
mod listing;
mod reading;
mod settling;
mod words;

use crate::filter::run_filter;
use crate::listing::run_replay;
use crate::settling::run_settle;
use crate::words::{Words, read_words};
use std::process::ExitCode;

const USAGE: &str =
    "usage: wdp-desk JOURNAL < CALLS > REPLIES\n       wdp-desk --replay JOURNAL\n       wdp-desk --settle JOURNAL OPENINGS\n";

/// What `--version` prints.
const VERSION_LINE: &str = "wdp-desk 2.0.0\n";

fn main(rt: HostRuntime) -> ExitCode {
    let status = match read_words(&rt) {
        Words::Filter { journal } => run_filter(&rt, journal.as_str()),
        Words::Replay { journal } => run_replay(&rt, journal.as_str()),
        Words::Settle { journal, openings } => {
            run_settle(&rt, journal.as_str(), openings.as_str())
        }
        Words::Help => {
            let _ = rt.print(USAGE);
            0
        }
        Words::Version => {
            let _ = rt.print(VERSION_LINE);
            0
        }
        Words::Wrong => {
            let _ = eprint!(&rt; "{USAGE}");
            2
        }
    };
    ExitCode::from(status)
}
