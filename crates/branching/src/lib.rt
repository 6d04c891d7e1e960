//! Branch and bound over blocks of columns, guided by a dual simplex in floating point. It hands out nodes, and promises nothing.
#![tactic(auto)]

mod problem;
mod search;
mod split;

pub use problem::{Block, Column, Problem};
pub use search::{Node, Search};
pub use split::{Candidate, Measure, Split};
