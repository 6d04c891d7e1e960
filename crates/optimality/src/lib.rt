//! Certificates that no point of a 0-1 program has a lower objective, or that no other point has as low a one.
#![tactic(auto)]

mod arithmetic;
mod by_columns;
mod by_rows;
mod checker;
pub mod laws;
mod leaf_value;
mod lines;
mod narrow_sums;
mod only_points;
mod reader;
mod refusal;
mod row_forms;
mod sums;
mod terms;

pub use checker::{Checker, Leaf, OpenSplit};
pub use leaf_value::is_above;
pub use only_points::check_only;
pub use reader::{check_certificate, check_optimum, check_selection, new_checker};
pub use refusal::Limit;
pub use sums::Sums;
