//! Solutions of programs, what they win, and the report.
#![tactic(auto)]

mod allocation;
mod costs;
mod following;
pub mod laws;
mod limits;
mod mapping;
mod others;
mod pricing;
mod reading;
mod report_lines;
mod sale;
mod solution_values;
mod writing;

pub use allocation::{Allocation, same_winners};
pub use costs::{amounts_in, amounts_of, cost, lots_taken, total};
pub use limits::{SOLUTION_LIMIT, TOLERANCE_PARTS};
pub use mapping::map_back;
pub use others::{Further, OtherAwards, others_of};
pub use pricing::{Pricing, is_exact, paid, paid_in_pounds, price_of};
pub use reading::read_solution;
pub use report_lines::add_names_line;
pub use sale::{amount_of, name_of};
pub use solution_values::ValueFault;
pub use writing::{add_report_with, report, report_with, write_allocation};
