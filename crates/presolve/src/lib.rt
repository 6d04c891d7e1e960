//! Presolve: which bids can be left out of the winner determination, since another bid of their form is at least as good,
//! or since their lots are worth more where they are left; and which other bid, or that worth, is the reason.
#![tactic(auto)]

mod few_bids;
mod flags;
mod keeping;
pub mod laws;
mod order;
mod ranks;
mod reason;
mod reason_objects;
mod reason_words;
mod reasons;
mod search;
mod sieve;
mod writing;

pub use few_bids::{FEW_BIDS, has_few_bids};
pub use flags::Flags;
pub use keeping::kept;
pub use order::by_size;
pub use reason::Reason;
pub use reasons::Reasons;
pub use writing::write_left_out;
