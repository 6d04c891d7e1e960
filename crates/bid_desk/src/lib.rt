//! The desk of a sealed round: the book under a lock, its sessions and its settlement.
//!
//! Threads enter the desk, make calls on what is held, and leave. What is stated is stated on what is held, so `enter` is the
//! only call that waits. Each session,
//! and the chair, keeps the calls that it made with the replies that it was given, and a share of the count of entries. At the end the desk is stopped, and
//! settled against all of them.
#![tactic(auto)]

mod chair;
mod closed;
mod comparing;
mod desk;
mod held;
mod open;
mod session;
mod settle;
mod slots;

pub use chair::Chair;
pub use closed::ClosedBook;
pub use desk::{Desk, Round, Stopped};
pub use held::{DeskError, Held};
pub use open::OpenError;
pub use session::Session;
pub use settle::{Cause, Unsettled};
