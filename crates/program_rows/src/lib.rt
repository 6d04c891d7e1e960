//! A 0-1 program as rows and columns: the program of an auction's bids, what a text of one means, and the faults of programs,
//! solutions and certificates.
#![tactic(auto)]

mod agreeing;
mod broken;
mod building;
mod certificate_fault;
mod column;
mod columns;
mod costs;
mod entries;
pub mod laws;
mod lists;
mod lookups;
mod mps_fault;
mod mps_fault_kind;
mod name_set;
mod names;
mod ones;
mod point;
mod program;
mod row;
mod row_sums;
mod rows;
mod same;
mod selected_entries;
mod selection;
mod shared;
mod solution_fault;
mod spelling;
mod subject;

pub use building::{build, build_bids};
pub use certificate_fault::{CertificateFault, CertificateFaultKind};
pub use column::{Bounds, Column};
pub use columns::Columns;
pub use mps_fault::MpsFault;
pub use mps_fault_kind::MpsFaultKind;
pub use name_set::{NameSet, Seeded, place_of};
pub use point::Point;
pub use program::{Program, ProgramParts};
pub use row::{Row, RowKind};
pub use same::same_program;
pub use selected_entries::Entries;
pub use selection::Selection;
pub use shared::{SharedProgram, build_shared};
pub use solution_fault::SolutionFault;
pub use spelling::bid_named;
