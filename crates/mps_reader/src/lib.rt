//! Programs read from MPS text.
#![tactic(auto)]

/// Returns a fault if the test holds.
macro_rules! refuse {
    ($test:expr, $kind:ident) => {
        if $test {
            return Err(Refusal::Fault(MpsFaultKind::$kind));
        }
    };
}

mod bounds;
mod columns;
mod entries;
mod fields;
mod headers;
pub mod laws;
mod limits;
mod reader;
mod refusal;
mod right_sides;
mod rows;
mod sections;
mod tables;

pub use limits::PROGRAM_LIMIT;
pub use reader::read_program;
