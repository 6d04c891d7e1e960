//! A desk on a line: calls come in any pieces, and what they are told of is on the disk before they are told.
#![tactic(auto)]

mod line;
mod machine;
mod outside;

pub use line::{Left, Stop, serve};
pub use machine::{Front, Machine, Mark};
pub use outside::{Outside, Unkept, Untold};
