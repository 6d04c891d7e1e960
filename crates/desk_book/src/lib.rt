//! The desk of a round: its calls, its book of commitments, and the text of its journal.
#![tactic(auto)]

mod answer;
mod answering;
mod asked;
mod calls;
mod commitment;
mod desk;
mod digests;
mod entries;
mod fields;
mod front;
mod heads;
mod judge;
pub mod laws;
mod limits;
mod machine;
mod openings;
mod recording;
mod replaying;
mod replies;
mod settle;
mod untaken;
mod writing;

pub use answer::Answer;
pub use asked::Asked;
pub use calls::{Call, Found, Submission, Who, find_call};
pub use commitment::Commitment;
pub use desk::{Counts, Desk};
pub use digests::{commit_of, digest_of};
pub use front::{DeskFront, FrontFault, find_front};
pub use judge::Judge;
pub use limits::{ENTRY_LEN, HEAD_LIMIT, JOURNAL_LIMIT, LAST_ROOM, SEALED_LIMIT};
pub use machine::serve_calls;
pub use openings::{Opening, OpeningFault, find_opening};
pub use replaying::{EntryText, HeadWords, ReadFault, Replayed, TailWords, find_entry, replay};
pub use settle::{SettleFault, settled_input};
pub use untaken::Untaken;
