//! The objects of JSON that say an award, one a line.
#![tactic(auto)]

mod awards;
mod groups;
mod items;
pub mod laws;
mod lots;
mod objects;
mod payments;
mod proved;
mod sums;
mod winners;

pub use objects::{Outcome, add_shown, add_unshown};
