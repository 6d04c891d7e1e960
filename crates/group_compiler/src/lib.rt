//! The program of each group, and its text joined from the pages of bidders, by workers that draw the groups' numbers from one counter.
#![tactic(auto)]

mod claim;
mod claims;
mod compiled;
mod compiling;
mod gate;
mod group_programs;
pub mod laws;
mod limits;
mod maker;
mod ordering;
mod page;
mod page_maker;
mod pages;
mod pool;
mod rendering;
mod section;
mod steps;
mod stop;
mod work;
mod writing;

pub use claim::Claim;
pub use claims::Claims;
pub use compiled::Compiled;
pub use compiling::{Compiler, compile_one};
pub use gate::{Gate, OpenGate};
pub use group_programs::GroupPrograms;
pub use limits::{ALL_DRAWS, WORKER_DRAWS};
pub use maker::Maker;
pub use page::Page;
pub use pages::Pages;
pub use pool::{compile_all, make_all, make_each};
pub use section::Section;
pub use writing::add_group_text;
