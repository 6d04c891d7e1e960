//! What the program answers to its words and its input: the text or the report of each command, or the line of a refusal;
//! and what solutions, certificates, claims and prices show of an auction.
#![tactic(auto)]

mod certified;
mod claimed;
mod command_line;
mod commands;
mod file_lines;
mod first_faulty;
mod group_texts;
pub mod laws;
mod messages;
mod options;
mod parser;
mod pieces;
mod pricing;
mod report_run;
mod running;
mod winning;

pub use certified::check_certificates;
pub use claimed::claim_of;
pub use command_line::{Command, command_of};
pub use commands::answer;
pub use commands::check::write_sizes;
pub use commands::compile::{run_compile, write_programs};
pub use commands::objects::{report_as_objects, verify_as_objects};
pub use commands::verify::{verify, verify_with_forms, write_verified};
pub use file_lines::{print_file_line, print_file_refusal, print_unread};
pub use group_texts::{RunFault, write_joined};
pub use messages::print_refusal;
pub use parser::VERSION;
pub use pieces::write_pieces;
pub use pricing::pricing_of;
pub use report_run::{check_counts, won_by_groups};
pub use running::run;
pub use winning::{allocation_won, won_without};
