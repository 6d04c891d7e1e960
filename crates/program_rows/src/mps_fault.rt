//! What is wrong with an MPS text.

ghost use Rattle.std.specs.Prelude.{◌≡◌, Some};
ghost use Rattle.auction_terms.specs.Wording.{wording_text};
ghost use Rattle.program_rows.specs.MpsFaultText.{mps_fault_text};

use crate::mps_fault_kind::MpsFaultKind;
use auction_terms::Wording;
use std::fmt;
use thiserror::Error;

/// What is wrong with an MPS text, and in which line. Lines are counted from 1; a text that is too large and want
/// of memory have line 0, as has a text without lines.
#[derive(Clone, Copy, Debug, PartialEq, Eq, Error)]
pub struct MpsFault {
    pub line: usize,
    pub kind: MpsFaultKind,
}

impl MpsFault {
    /// The message of the fault: its number and name, the line that it is in, and a column.
    pub fn wording(self) -> Wording
        ensures { wording_text result ≡ mps_fault_text self.line self.kind }
    {
        let line = self.line as u64;
        match self.kind {
            MpsFaultKind::TooLarge => Wording::Words("1 TooLarge"),
            MpsFaultKind::NotText => Wording::Number("2 NotText at line ", line),
            MpsFaultKind::Section => Wording::Number("3 Section at line ", line),
            MpsFaultKind::SectionLeftOut => Wording::Number("4 SectionLeftOut at line ", line),
            MpsFaultKind::Fields => Wording::Number("5 Fields at line ", line),
            MpsFaultKind::RowType => Wording::Number("6 RowType at line ", line),
            MpsFaultKind::RowRepeated => Wording::Number("7 RowRepeated at line ", line),
            MpsFaultKind::NoObjective => Wording::Number("8 NoObjective at line ", line),
            MpsFaultKind::UnknownRow => Wording::Number("9 UnknownRow at line ", line),
            MpsFaultKind::ColumnSplit => Wording::Number("10 ColumnSplit at line ", line),
            MpsFaultKind::EntryRepeated => Wording::Number("11 EntryRepeated at line ", line),
            MpsFaultKind::NumberText => Wording::Number("12 NumberText at line ", line),
            MpsFaultKind::NotWhole => Wording::Number("13 NotWhole at line ", line),
            MpsFaultKind::NumberRange => Wording::Number("14 NumberRange at line ", line),
            MpsFaultKind::Marker => Wording::Number("15 Marker at line ", line),
            MpsFaultKind::UnknownColumn => Wording::Number("16 UnknownColumn at line ", line),
            MpsFaultKind::BoundType => Wording::Number("17 BoundType at line ", line),
            MpsFaultKind::BoundValue => Wording::Number("18 BoundValue at line ", line),
            MpsFaultKind::ObjectiveConstant => Wording::Number(
                "19 ObjectiveConstant at line ",
                line,
            ),
            MpsFaultKind::SenseMax => Wording::Number("20 SenseMax at line ", line),
            MpsFaultKind::NoEnd => Wording::Number("21 NoEnd at line ", line),
            MpsFaultKind::NotBinary { column } => Wording::Numbers(
                "22 NotBinary at line ",
                line,
                ", column ",
                column as u64,
            ),
            MpsFaultKind::OutOfMemory => Wording::Words("out of memory"),
        }
    }
}

impl fmt::Display for MpsFault {
    ghost output = { λ fault. Some (mps_fault_text fault.line fault.kind) };

    fn fmt<W: fmt::Write>(&self, f: &mut fmt::Formatter<W>) -> fmt::Result {
        self.wording().fmt(f)
    }
}
