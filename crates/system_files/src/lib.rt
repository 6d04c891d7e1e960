//! The files, the standard streams and the stack of the system, as the programs use them.
#![tactic(auto)]

mod disk;
mod out;
mod stack;
mod terminal;

pub use disk::Disk;
pub use out::{Ending, Out, Unkept};
pub use stack::{TooLittle, print_lack, touch};
pub use terminal::StandardInput;
