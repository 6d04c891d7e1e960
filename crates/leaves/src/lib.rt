//! The best point of a 0-1 program, and a certificate each of whose leaves the checker of certificates has taken.
#![tactic(auto)]

mod bound;
mod judging;
mod layout;
mod path;
mod point;
mod proving;
mod root;
mod text;
mod tree;

pub use layout::{Layout, lay_out};
pub use point::Best;
pub use proving::{Answer, Proof, Task, prove};
pub use tree::Aim;
