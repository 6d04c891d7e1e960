//! All faults of an input, in the order in which they are reported, with their lines, fields and causes: what `explain` prints.
#![tactic(auto)]

mod detail;
mod explaining;
mod fault;
mod finding;
pub mod laws;
mod lines;
mod merging;
mod objects;
mod part_faults;
mod placed;
mod reading;
mod shown;
mod wording;

pub use explaining::explain;
pub use fault::Fault;
pub use finding::input_faults;
pub use placed::{add_file_name, add_hint, add_message};
pub use wording::add_wording;
