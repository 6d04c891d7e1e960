//! What is wrong with a solution.

ghost use Rattle.std.specs.Prelude.{◌≡◌, Some};
ghost use Rattle.auction_terms.specs.Wording.{wording_text};
ghost use Rattle.program_rows.specs.SolutionFaultText.{solution_fault_text};
ghost use Rattle.program_rows.specs.declared.solution_fault.SolutionFault.TheVariants as fault;

use auction_terms::Wording;
use std::alloc::AllocError;
use std::fmt;
use thiserror::Error;

/// Why a solution is no point of its program. A place is the number of a line, from 1; columns and rows go by their places from 0.
#[derive(Clone, Copy, Debug, PartialEq, Eq, Error)]
pub enum SolutionFault {
    /// The text is above its limit.
    TooLarge,
    /// The line hasn't two fields.
    Fields { place: usize },
    /// The program has no such column: there is no such bid, or the bid is left out; or there is no `K`.
    UnknownColumn { place: usize },
    /// An earlier line names the column.
    RepeatedColumn { place: usize },
    /// The value isn't a number, or is beyond the limits of digits and exponents.
    ValueText { place: usize },
    /// The value is more than 1/100,000 from 0 and from 1.
    NotZeroOne { place: usize },
    /// A column that is fixed has another value: `K` is 0, or isn't named. The place is `at column NAME`.
    BoundBroken { column: usize },
    /// A row is broken: a bidder has two bids (`B..`), a category is above its supply (`C..`), or a pool is above its cap
    /// (`P..`). The place is `at row NAME`, with the first such row.
    RowBroken { row: usize },
    /// Memory was refused.
    OutOfMemory,
}

impl SolutionFault {
    /// The message of the fault: its number and name, and the line that it is in. The caller, who has the program, adds the
    /// name of a column or row that is broken.
    pub fn wording(self) -> Wording
        ensures { wording_text result ≡ solution_fault_text self }
    {
        match self {
            SolutionFault::TooLarge => Wording::Words("1 TooLarge"),
            SolutionFault::Fields { place } => Wording::Number("2 Fields at line ", place as u64),
            SolutionFault::UnknownColumn { place } => Wording::Number(
                "3 UnknownColumn at line ",
                place as u64,
            ),
            SolutionFault::RepeatedColumn { place } => Wording::Number(
                "4 RepeatedColumn at line ",
                place as u64,
            ),
            SolutionFault::ValueText { place } => Wording::Number(
                "5 ValueText at line ",
                place as u64,
            ),
            SolutionFault::NotZeroOne { place } => Wording::Number(
                "6 NotZeroOne at line ",
                place as u64,
            ),
            SolutionFault::BoundBroken { column: _ } => Wording::Words("7 BoundBroken"),
            SolutionFault::RowBroken { row: _ } => Wording::Words("8 RowBroken"),
            SolutionFault::OutOfMemory => Wording::Words("out of memory"),
        }
    }
}

impl fmt::Display for SolutionFault {
    ghost output = { λ fault. Some (solution_fault_text fault) };

    fn fmt<W: fmt::Write>(&self, f: &mut fmt::Formatter<W>) -> fmt::Result {
        self.wording().fmt(f)
    }
}

impl From<AllocError> for SolutionFault {
    ghost from_gives = { λ _ e. e ≡ fault.OutOfMemory };

    fn from(_: AllocError) -> SolutionFault {
        SolutionFault::OutOfMemory
    }
}
