//! What is found of one program: a solution and a certificate as texts, every award of a tie, and the certificate of a group none of whose
//! bidders wins.
#![tactic(auto)]

mod found;
mod known;
mod losers;
mod parts;
mod ties;

pub use found::{Found, found_alike, search};
pub use parts::add_part;
pub use ties::add_ties;
