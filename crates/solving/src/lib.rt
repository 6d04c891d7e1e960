//! The winners of an auction from its sealed bids: a solution and a certificate of each group, and every award of a tie, as an audit that
//! `verify` has accepted.
#![tactic(auto)]

mod audit;
mod groups;
mod nowhere;
mod solver;

pub use audit::{write_audit, write_unproved};
pub use solver::{Options, Unsolved, Wanted, solve};
